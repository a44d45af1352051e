// The fixed tables of a session: variables, and lines that are stacked or wait.
#![tactic(auto)]

mod lines;
mod variables;

pub use crate::lines::Lines;
pub use crate::variables::Variables;
