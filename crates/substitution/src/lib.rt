// The words of a statement: taken from its line, and the names in them replaced by their values.
#![tactic(auto)]

mod gathered;
mod reader;
mod replace;
mod scratch;
mod statement;
mod written;

pub use crate::gathered::Gathered;
pub use crate::reader::Reader;
pub use crate::scratch::Scratch;
pub use crate::written::{Word, Written};
