// A piece and its square, as the table holds it.

use text::Table;

mod methods;

// A row and a column.
#[derive(Clone, Copy, PartialEq, Eq, Debug)]
pub struct Square {
    pub row: u8,
    pub column: u8,
}

#[derive(Clone, Copy)]
pub struct Piece {
    pub name: Table<u8, 8>,
    pub square: Square,
}
