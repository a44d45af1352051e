// The open calls, at most 8.
use text::Table;
use words::Words;

mod methods;

// The line of a &CALL, and the arguments that its return brings back.
#[derive(Clone, Copy)]
pub struct Call {
    pub line: u64,
    pub arguments: Words,
}

// The innermost call stands last.
#[derive(Clone, Copy)]
pub struct Calls {
    records: Table<Call, 8>,
}
