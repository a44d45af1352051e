// A list of words, as a session's arguments and the words of a statement are kept.
#![tactic(auto)]

mod words;

pub use crate::words::Words;
