// Which statement a line comes to: its first word decides, and an &IF may lead to another.
#![tactic(auto)]

mod clause;
mod condition;
mod lead;
mod leading;
mod solid;
mod turn;

pub use crate::lead::Lead;
pub use crate::leading::find_lead;
