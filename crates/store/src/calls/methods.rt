// Calls opened and closed.
ghost use Rattle.std.specs.Prelude.{◌≡◌, ◌<◌, [], ◌∷◌, length, MatchOption};
ghost use Rattle.language.specs.Store.{link_of};
ghost use Rattle.store.specs.Calls.{frame_seen, frames_seen};

use super::{Call, Calls};
use text::Table;
use words::Words;

impl Calls {
    pub fn new() -> Calls
        ensures { frames_seen result ≡ [] }
    {
        let blank = Call {
            line: 0,
            arguments: Words::new(),
        };
        Calls {
            records: Table::empty(blank),
        }
    }

    pub fn len(&self) -> usize
        ensures { result ≡ length (frames_seen self.now) }
    {
        self.records.as_slice().len()
    }

    // The line of the innermost call, 0 where none is open.
    pub fn link(&self) -> u64
        ensures { result ≡ link_of (frames_seen self.now) }
    {
        self.records.as_slice().last().map_or(0, |call| call.line)
    }

    pub fn push(&mut self, call: Call)
        requires { length (frames_seen self.old) < 8 }
        ensures { frames_seen self.new ≡ frame_seen call ∷ frames_seen self.old }
    {
        let _ = self.records.push(call);
    }

    // Closes the innermost call; none where none is open.
    pub fn pop(&mut self) -> Option<Call>
        ensures { MatchOption result ((frames_seen self.old ≡ []) × (self.new ≡ self.old)) (λ call. frames_seen self.old ≡ frame_seen call ∷ frames_seen self.new) }
    {
        self.records.pop()
    }
}
