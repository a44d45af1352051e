// The map: pieces on squares, and the orders that move them.
#![tactic(auto)]

mod code;
mod map;
mod order;
mod piece;

pub use crate::code::Code;
pub use crate::map::{Grid, Map};
pub use crate::piece::{Piece, Square};
