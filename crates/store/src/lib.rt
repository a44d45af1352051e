// The state of a session.
#![tactic(auto)]

mod calls;
mod state;
mod store;
mod value;

pub use crate::calls::{Call, Calls};
pub use crate::state::State;
pub use crate::store::Store;
pub use crate::value::Value;
