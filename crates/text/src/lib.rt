// Bytes, words, numbers and names: what every other layer reads and writes.
#![tactic(auto)]

mod bytes;
mod numbers;
mod order;
mod search;
mod short;
mod table;
mod words;

pub use crate::bytes::all_within;
pub use crate::numbers::number;
pub use crate::order::{byte_or_blank, compare_words};
pub use crate::search::{Named, find, find_first};
pub use crate::short::Short;
pub use crate::table::{Full, Table, Text};
pub use crate::words::{next_word, until};
