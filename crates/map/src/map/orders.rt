// Orders carried out.
ghost use Rattle.std.specs.Prelude.{◌≡◌, ◌<◌, true, false, ◌&&◌, length, pos, MatchOption, IfSome};
ghost use Rattle.text.specs.Tables.{held};
ghost use Rattle.map.specs.Boards.{on_board, place_of, holder_of, other_than, place_at, move_at, take_at, commanded};
ghost use Rattle.map.specs.Maps.{map_board, Leaves};

use super::Grid;
use crate::code::Code;
use crate::order::{Order, read_order};
use crate::piece::{Piece, Square};
use text::{Table, find_first};

fn is_other(holder: Option<usize>, i: usize) -> bool
    ensures { result ≡ other_than i holder }
{
    holder.is_some_and(|j| j != i)
}

impl<const SIDE: u8, const ROOM: usize> Grid<SIDE, ROOM> {
    // A row or a column from 1 to the side. A match, since of a `filter` over the converted number
    // the bounds were not proved.
    fn in_side(z: i32) -> Option<u8>
        ensures { MatchOption result (on_board SIDE z ≡ false) (λ n. (on_board SIDE z ≡ true) × (z ≡ pos n)) }
    {
        match u8::try_from(z) {
            Ok(n) if 1 <= n && n <= SIDE => Some(n),
            _ => None,
        }
    }

    // The square of a row and a column; none where they are off the map.
    pub(crate) fn square(row: i32, column: i32) -> Option<Square>
        ensures { MatchOption result ((on_board SIDE row && on_board SIDE column) ≡ false) (λ s. ((on_board SIDE row && on_board SIDE column) ≡ true) × (row ≡ pos s.row) × (column ≡ pos s.column)) }
    {
        let row = Self::in_side(row)?;
        let column = Self::in_side(column)?;
        Some(Square { row, column })
    }

    fn find_piece(&self, name: &[u8]) -> Option<usize>
        ensures is { result ≡ place_of name.now (map_board self.now) }
        ensures within { IfSome result (λ i. i < length (map_board self.now)) }
    {
        find_first(self.pieces.as_slice(), b"", name)
    }

    fn place(&mut self, piece: Piece) -> Code
        ensures { Leaves (place_at ROOM (map_board self.old) (held piece.name) (pos piece.square.row) (pos piece.square.column) (place_of (held piece.name) (map_board self.old)) (holder_of (pos piece.square.row) (pos piece.square.column) (map_board self.old))) self.new result }
    {
        if self.find_piece(piece.name.as_slice()).is_some() {
            return Code::WrongPiece;
        }
        if self.holder(piece.square).is_some() {
            return Code::SquareHeld;
        }
        match self.pieces.push(piece) {
            Ok(()) => Code::Done,
            Err(_) => Code::TooManyPieces,
        }
    }

    fn shift(&mut self, piece: Piece) -> Code
        ensures { Leaves (move_at (map_board self.old) (held piece.name) (pos piece.square.row) (pos piece.square.column) (place_of (held piece.name) (map_board self.old)) (holder_of (pos piece.square.row) (pos piece.square.column) (map_board self.old))) self.new result }
    {
        let Some(i) = self.find_piece(piece.name.as_slice()) else {
            return Code::WrongPiece;
        };
        if is_other(self.holder(piece.square), i) {
            return Code::SquareHeld;
        }
        self.pieces.replace(i, piece);
        Code::Done
    }

    fn take(&mut self, name: Table<u8, 8>) -> Code
        ensures { Leaves (take_at (map_board self.old) (place_of (held name) (map_board self.old))) self.new result }
    {
        let Some(i) = self.find_piece(name.as_slice()) else {
            return Code::WrongPiece;
        };
        self.pieces.remove(i);
        Code::Done
    }

    pub(crate) fn obey(&mut self, command: &[u8]) -> Code
        ensures { Leaves (commanded SIDE ROOM (map_board self.old) command.now) self.new result }
    {
        match read_order(command) {
            None => Code::Malformed,
            Some(Order::Place(name, row, column)) => match Self::square(row, column) {
                Some(square) => self.place(Piece { name, square }),
                None => Code::OffTheMap,
            },
            Some(Order::Move(name, row, column)) => match Self::square(row, column) {
                Some(square) => self.shift(Piece { name, square }),
                None => Code::OffTheMap,
            },
            Some(Order::Take(name)) => self.take(name),
        }
    }
}
