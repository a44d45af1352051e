// Why a statement stops, by the layer that raises it: each cause with its number.
// Each layer has its own method: in a trait, every impl would want the same line.
ghost use Rattle.std.specs.Prelude.{◌≡◌};
ghost use Rattle.language.specs.Faults.{word_number, statement_number, store_number, cause_number};

#[derive(Clone, Copy, PartialEq, Eq, Debug)]
pub enum WordFault {
    NameTooLong = 10101,
    WordTooLong = 10102,
    NotCarried = 10103,
}

impl WordFault {
    pub fn number(&self) -> u16
        ensures { result ≡ word_number self.now }
    {
        *self as u16
    }
}

#[derive(Clone, Copy, PartialEq, Eq, Debug)]
pub enum StatementFault {
    TooLong = 10102,
    Malformed = 10104,
    NoControlWord = 10105,
    WrongWord = 10106,
    NoSuchLabel = 10107,
    OutOfRange = 10109,
    UnknownFunction = 10110,
    LineBelowOne = 10113,
    TooManyCalls = 10114,
    NoOpenCall = 10115,
}

impl StatementFault {
    pub fn number(&self) -> u16
        ensures { result ≡ statement_number self.now }
    {
        *self as u16
    }
}

#[derive(Clone, Copy, PartialEq, Eq, Debug)]
pub enum StoreFault {
    ListTooLong = 10102,
    CannotBeSet = 10108,
    TooManyVariables = 10111,
    TooManyLines = 10112,
}

impl StoreFault {
    pub fn number(&self) -> u16
        ensures { result ≡ store_number self.now }
    {
        *self as u16
    }
}

#[derive(Clone, Copy, PartialEq, Eq, Debug)]
pub enum Cause {
    Words(WordFault),
    Statement(StatementFault),
    Store(StoreFault),
}

impl Cause {
    pub fn number(&self) -> u16
        ensures { result ≡ cause_number self.now }
    {
        match self {
            Cause::Words(fault) => fault.number(),
            Cause::Statement(fault) => fault.number(),
            Cause::Store(fault) => fault.number(),
        }
    }
}
