// Machines of interactions: runs over them, courses of calls, and the law that compares courses.
#![tactic(auto)]

mod laws;
mod reason;

pub use crate::laws::{answers_stand, courses_compare};
pub use crate::reason::Reason;
