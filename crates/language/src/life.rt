// Whether a session runs, and how it came to its end.
use crate::fault::Cause;

// A stop: its cause, the line, and the word, which is 0 outside the words' own layer.
#[derive(Clone, Copy, PartialEq, Eq, Debug)]
pub struct Stop {
    pub cause: Cause,
    pub line: u64,
    pub word: u16,
}

#[derive(Clone, Copy, PartialEq, Eq, Debug)]
pub enum Life {
    Running,
    Ended(i32),
    Stopped(Stop),
}
