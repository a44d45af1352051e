// Scripts: their lines, the directory that tells where each line stands, and Check.
#![tactic(auto)]

mod judge;
mod line;
mod lines;
mod refusal;
mod script;

pub use crate::line::Line;
pub use crate::lines::{Lines, next_line};
pub use crate::refusal::Refusal;
pub use crate::script::Script;
