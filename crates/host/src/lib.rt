// Hosts: where commands go, and what is known of their answers.
#![tactic(auto)]

mod cue;
mod host;
mod name;
mod nowhere;
mod recorder;
mod refusal;
mod switch;

pub use crate::cue::Cue;
pub use crate::host::Host;
pub use crate::name::Name;
pub use crate::nowhere::Nowhere;
pub use crate::recorder::{Issued, Recorder};
pub use crate::refusal::Refusal;
pub use crate::switch::Switch;
