// The words that the language knows.

#[derive(Clone, Copy)]
pub enum Function {
    Concat,
    Length,
    Trans,
    Trim,
    Word,
}

#[derive(Clone, Copy)]
pub enum Comparative {
    Equal,
    Unequal,
    Less,
    NotLess,
    More,
    NotMore,
}

// What &READ fills with a line.
#[derive(Clone, Copy)]
pub enum Manner {
    Args,
    String,
    Vars,
}

// A control word whose words are all replaced by their values first.
#[derive(Clone, Copy)]
pub enum Order {
    Args,
    Call,
    Command,
    Exit,
    Goto,
    Presume,
    Print,
    Return,
    Skip,
    Stack,
    Subcommand,
    Trace,
}

#[derive(Clone, Copy)]
pub enum Control {
    If,
    Read,
    Obeys(Order),
}
