// What the map answers to an order.
ghost use Rattle.std.specs.Prelude.{◌≡◌};
ghost use Rattle.map.specs.Codes.{code_number};

// Each code with its number. Done is one of them and no Ok, since a host answers every code alike.
#[derive(Clone, Copy, PartialEq, Eq, Debug)]
pub enum Code {
    Done = 0,
    SquareHeld = 4,
    WrongPiece = 8,
    OffTheMap = 12,
    TooManyPieces = 16,
    Malformed = 20,
}

impl Code {
    // A method of its own: in a trait, every impl would want the same line.
    pub fn number(&self) -> i32
        ensures { result ≡ code_number self.now }
    {
        *self as i32
    }
}
