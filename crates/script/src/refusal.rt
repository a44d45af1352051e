// Why Check refuses a script.
ghost use Rattle.std.specs.Prelude.{◌≡◌, Some};
ghost use Rattle.script.specs.Refusals.{refusal_number, refusal_line, refusal_words};

use std::error::Error;
use std::fmt;

#[derive(Clone, Copy, PartialEq, Eq, Debug)]
pub enum Refusal {
    TooManyBytes,
    ByteNotAllowed { line: usize },
    LineTooLong { line: usize },
    TooManyLines,
    NoTrace,
}

impl Refusal {
    // By cases: a variant that holds a line can have no discriminant.
    pub fn number(&self) -> u8
        ensures { result ≡ refusal_number self.now }
    {
        match self {
            Refusal::TooManyBytes => 1,
            Refusal::ByteNotAllowed { .. } => 2,
            Refusal::LineTooLong { .. } => 3,
            Refusal::TooManyLines => 4,
            Refusal::NoTrace => 5,
        }
    }

    // The first line that the refusal speaks of, counted from 1.
    pub fn line(&self) -> Option<usize>
        ensures { result ≡ refusal_line self.now }
    {
        match self {
            Refusal::ByteNotAllowed { line } | Refusal::LineTooLong { line } => Some(*line),
            Refusal::TooManyBytes | Refusal::TooManyLines | Refusal::NoTrace => None,
        }
    }
}

impl fmt::Display for Refusal {
    ghost output = { λ e. Some (refusal_words (refusal_number e) (refusal_line e)) };

    fn fmt<W: fmt::Write>(&self, f: &mut fmt::Formatter<W>) -> fmt::Result {
        let number = self.number();
        match self.line() {
            Some(line) => write!(f, "refused {number} line {line}"),
            None => write!(f, "refused {number}"),
        }
    }
}

impl Error for Refusal {}
