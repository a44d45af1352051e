// The ordinary variables that are not null, at most 64.
use text::{Table, Text};

mod methods;

#[derive(Clone, Copy)]
pub(crate) struct Variable {
    name: Text,
    value: Text,
}

// Fixed memory that is copied with the session, not a map: found by the one search.
#[derive(Clone, Copy)]
pub struct Variables {
    records: Table<Variable, 64>,
}
