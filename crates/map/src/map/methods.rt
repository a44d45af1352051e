// The map as a host, and what it can be asked.
ghost use Rattle.std.specs.Prelude.{◌≡◌, ◌<◌, ◌≤◌, [], length, pos, IfSome};
ghost use Rattle.std.specs.Option.{option_map};
ghost use Rattle.host.specs.Books.{answer_to, after, pair};
ghost use Rattle.map.specs.Boards.{board_book, commanded, holder_of, piece_at};
ghost use Rattle.map.specs.Pieces.{board_of};
ghost use Rattle.map.specs.Maps.{map_board, map_book};
ghost use Rattle.map.specs.Laws.{StaysOrderly};

use super::{Grid, Map};
use crate::piece::{Piece, Square};
use host::Host;
use text::Table;

impl Map {
    // No piece stands yet. After any orders, no piece stands twice and no square holds two.
    pub fn new() -> Map
        ensures empty { map_board result ≡ [] }
        ensures book { map_book result ≡ board_book 12 32 [] }
        ensures orderly { StaysOrderly }
    {
        Grid::empty()
    }
}

impl<const SIDE: u8, const ROOM: usize> Grid<SIDE, ROOM> {
    fn empty() -> Self
        ensures { map_board result ≡ [] }
    {
        let unplaced = Piece {
            name: Table::new(),
            square: Square { row: 0, column: 0 },
        };
        let pieces = Table::empty(unplaced);
        Grid { pieces }
    }

    // The name of the piece on a square; none where none stands, and off the map.
    pub fn piece_at(&self, row: i32, column: i32) -> Option<&[u8]>
        ensures { option_map (λ x. x.now) result ≡ piece_at SIDE row column (map_board self.now) }
    {
        let i = self.holder(Self::square(row, column)?)?;
        Some(self.pieces()[i].name.as_slice())
    }

    // Which of the pieces is on a square.
    pub fn holder(&self, square: Square) -> Option<usize>
        ensures is { result ≡ holder_of (pos square.row) (pos square.column) (map_board self.now) }
        ensures within { IfSome result (λ i. i < length (map_board self.now)) }
    {
        self.pieces
            .as_slice()
            .iter()
            .position(|piece| piece.square == square)
    }

    // The pieces that stand, in the order in which they were placed.
    pub fn pieces(&self) -> &[Piece]
        ensures is { board_of result.now ≡ map_board self.now }
        ensures few { length result.now ≤ ROOM }
    {
        self.pieces.as_slice()
    }
}

impl<const SIDE: u8, const ROOM: usize> Host for Grid<SIDE, ROOM> {
    ghost book = { map_book };

    // The code, and the board that the order leaves.
    fn issue(&mut self, environment: &[u8], command: &[u8]) -> i32
        ensures code { result ≡ answer_to (map_book self.old) (pair environment.now command.now) }
        ensures next { map_book self.new ≡ after (map_book self.old) (pair environment.now command.now) }
        ensures board { map_board self.new ≡ (commanded SIDE ROOM (map_board self.old) command.now).board }
    {
        self.obey(command).number()
    }
}
