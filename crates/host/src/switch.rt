// Two hosts behind one name.
ghost use Rattle.std.specs.Prelude.{◌≡◌};
ghost use Rattle.host.specs.Books.{switched};
ghost use Rattle.host.specs.Hosts.{name_of};

use crate::host::Host;
use crate::name::Name;

// Pairs for the name go to the first host with the environment emptied, all others to the second.
#[derive(Clone, Copy)]
pub struct Switch<A, B> {
    pub name: Name,
    pub first: A,
    pub second: B,
}

impl<A: Host, B: Host> Switch<A, B> {
    pub fn new(name: Name, first: A, second: B) -> Switch<A, B>
        ensures parts { (result.name ≡ name) × (result.first ≡ first) × (result.second ≡ second) }
        ensures book { switched (name_of result.name) (A.Host.book result.first) (B.Host.book result.second) ≡ switched (name_of name) (A.Host.book first) (B.Host.book second) }
    {
        Switch {
            name,
            first,
            second,
        }
    }
}

impl<A: Host, B: Host> Host for Switch<A, B> {
    ghost book = { λ s. switched (name_of s.name) (A.Host.book s.first) (B.Host.book s.second) };

    fn issue(&mut self, environment: &[u8], command: &[u8]) -> i32 {
        if environment == self.name.as_bytes() {
            self.first.issue(b"", command)
        } else {
            self.second.issue(environment, command)
        }
    }
}
