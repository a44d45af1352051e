// Looks up the words that the language knows, and changes texts as its functions do.
#![tactic(auto)]

mod arguments;
mod controls;
mod functions;
mod kinds;
mod names;
mod tables;
mod words;

pub use crate::controls::control_of;
pub use crate::functions::{translate, trim};
pub use crate::names::kind_of;
pub use crate::words::{comparative_of, function_of, manner_of};
