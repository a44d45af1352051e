// The right side of an assignment, evaluated.
#![tactic(auto)]

mod calls;
mod fault;
mod items;
mod right_side;
mod sums;
mod tail;

pub use crate::right_side::evaluate;
