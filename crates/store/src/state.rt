// A session: its store, the lines stacked and waiting, and the steps taken.
use crate::store::Store;
use tables::Lines;

mod methods;

#[derive(Clone, Copy)]
pub struct State<'b, 'd> {
    pub store: Store<'b, 'd>,
    // What &STACK has put there and &READ has not taken yet.
    pub stack: Lines,
    // Lines typed that no &READ has taken yet, the oldest first.
    pub waiting: Lines,
    pub steps: u32,
}
