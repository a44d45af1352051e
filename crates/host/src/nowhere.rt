// A host that has no environment.
ghost use Rattle.std.specs.Prelude.{◌≡◌};
ghost use Rattle.host.specs.Hosts.{nowhere};

use crate::host::Host;

// Answers -3 to every command.
#[derive(Clone, Copy)]
pub struct Nowhere;

impl Host for Nowhere {
    ghost book = { λ _. nowhere };

    fn issue(&mut self, _environment: &[u8], _command: &[u8]) -> i32 {
        -3
    }
}
