// The language: what each statement does, and the positions and examples that compute from its definitions.
#![tactic(auto)]

mod fault;
mod keyword;
mod laws;
mod life;
mod mark;
mod name;

pub use crate::fault::{Cause, StatementFault, StoreFault, WordFault};
pub use crate::keyword::{Comparative, Control, Function, Manner, Order};
pub use crate::laws::{examples_stand, positions_stand, scenarios_compare};
pub use crate::life::{Life, Stop};
pub use crate::mark::{Mark, mark_of};
pub use crate::name::{KeptName, Kind};
