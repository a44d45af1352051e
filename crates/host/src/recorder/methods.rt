// How exchanges are kept.
ghost use Rattle.std.specs.Prelude.{◌≡◌, true, [], ◌∷◌, ◌++◌, map, is_ok, if◌then◌else◌};
ghost use Rattle.host.specs.Books.{answer_to, after, pair};
ghost use Rattle.host.specs.Records.{exchange, kept, Noted};

use super::{Issued, Recorder};
use crate::host::Host;
use std::alloc::{AllocError, Global};

fn note(
    heap: Global,
    issued: &mut Vec<Issued>,
    environment: &[u8],
    command: &[u8],
    code: i32,
) -> Result<(), AllocError>
    ensures { map exchange issued.new.items ≡ (if is_ok result then map exchange issued.old.items ++ (pair environment.now command.now, code) ∷ [] else map exchange issued.old.items) }
{
    let environment = Vec::from_slice(heap, environment)?;
    let command = Vec::from_slice(heap, command)?;
    issued.push(Issued {
        environment,
        command,
        code,
    })?;
    Ok(())
}

impl<H: Host> Recorder<H> {
    pub fn new(heap: Global, host: H) -> Recorder<H>
        ensures host { result.host ≡ host }
        ensures none { kept result ≡ [] }
        ensures complete { result.complete ≡ true }
    {
        Recorder {
            host,
            issued: Vec::new(heap),
            complete: true,
            heap,
        }
    }
}

impl<H: Host> Host for Recorder<H> {
    ghost book = { λ r. H.Host.book r.host };

    fn issue(&mut self, environment: &[u8], command: &[u8]) -> i32
        ensures code { result ≡ answer_to (H.Host.book self.old.host) (pair environment.now command.now) }
        ensures next { H.Host.book self.new.host ≡ after (H.Host.book self.old.host) (pair environment.now command.now) }
        ensures noted { Noted self.old (pair environment.now command.now, result) self.new }
    {
        let code = self.host.issue(environment, command);
        if self.complete {
            self.complete = note(self.heap, &mut self.issued, environment, command, code).is_ok();
        }
        code
    }
}
