// The map: a grid of squares with pieces on them.
use crate::piece::Piece;
use text::Table;

mod methods;
mod orders;

// At most so many pieces on so many rows and columns.
#[derive(Clone, Copy)]
pub struct Grid<const SIDE: u8, const ROOM: usize> {
    pieces: Table<Piece, ROOM>,
}

// The map of twelve rows and twelve columns.
pub type Map = Grid<12, 32>;
