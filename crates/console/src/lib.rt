// What the program's words do, as functions.
#![tactic(auto)]

mod boards;
mod messages;
mod page;
mod scripts;

pub use crate::boards::orders;
pub use crate::messages::{HELP, meaning};
pub use crate::scripts::{Answer, check, list};
