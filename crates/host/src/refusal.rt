// Why a name is refused.
ghost use Rattle.std.specs.Prelude.{◌≡◌};
ghost use Rattle.host.specs.Refusals.{refusal_number};

// Each refusal with its number.
#[derive(Clone, Copy, PartialEq, Eq, Debug)]
pub enum Refusal {
    NotAName = 16,
}

impl Refusal {
    // A method of its own: in a trait, every impl would want the same line.
    pub fn number(&self) -> u8
        ensures { result ≡ refusal_number self.now }
    {
        *self as u8
    }
}
