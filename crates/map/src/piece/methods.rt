// How a piece is told from others.
ghost use Rattle.map.specs.Boards.{is_piece};
ghost use Rattle.map.specs.Pieces.{stand_of};

use super::Piece;
use text::Named;

impl Named for Piece {
    ghost named = { λ p _ name. is_piece name (stand_of p) };

    fn bears(&self, _bytes: &[u8], name: &[u8]) -> bool {
        self.name.as_slice() == name
    }
}
