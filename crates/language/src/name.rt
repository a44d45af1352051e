// What a name, with its ampersand, stands for.

// The variables that the engine keeps.
#[derive(Clone, Copy)]
pub enum KeptName {
    Ampersand,
    ArgumentString,
    Blank,
    CommandLine,
    Depth,
    From,
    Count,
    Place,
    Link,
    Code,
}

#[derive(Clone, Copy)]
pub enum Kind {
    // Kept by the engine.
    Kept(KeptName),
    // A control word or a function, whose value is its own name.
    Own,
    // Not carried, so that it has no value.
    Absent,
    // An argument, counted from 1.
    Argument(usize),
    Ordinary,
}
