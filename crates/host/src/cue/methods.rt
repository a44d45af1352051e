// How a list of codes answers.
ghost use Rattle.std.specs.Prelude.{◌≡◌};
ghost use Rattle.host.specs.Hosts.{cued, cue_book};

use super::Cue;
use crate::host::Host;

impl<'a> Cue<'a> {
    // Answers the nth code to the nth command, and 0 after the last.
    pub fn new(codes: &'a [i32]) -> Cue<'a>
        ensures { cue_book result ≡ cued codes.now }
    {
        Cue { codes }
    }
}

impl Host for Cue<'_> {
    ghost book = { cue_book };

    fn issue(&mut self, _environment: &[u8], _command: &[u8]) -> i32 {
        let Some((code, rest)) = self.codes.split_first() else {
            return 0;
        };
        self.codes = rest;
        *code
    }
}
