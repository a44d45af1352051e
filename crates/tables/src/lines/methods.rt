// Lines added at either end and taken from the front.
ghost use Rattle.std.specs.Prelude.{◌≡◌, ◌+◌, ◌<◌, ◌≤◌, [], ◌∷◌, ◌++◌, length, MatchOption};
ghost use Rattle.text.specs.Tables.{held};
ghost use Rattle.tables.specs.Tables.{lines_seen, wrapped};

use super::Lines;
use text::Text;

// The place that is `k` places behind another in the round.
fn place(first: usize, k: usize) -> usize
    requires first { first < 32 }
    requires k { k ≤ 32 }
    ensures is { result ≡ wrapped 32 (first + k) }
    ensures within { result < 32 }
{
    (first + k) % 32
}

impl Lines {
    pub fn new() -> Lines
        ensures { lines_seen result ≡ [] }
    {
        Lines {
            records: [Text::new(); 32],
            first: 0,
            count: 0,
        }
    }

    #[tactic(auto, using(crate::proofs::Seen::seen_length))]
    pub fn len(&self) -> usize
        ensures { result ≡ length (lines_seen self.now) }
    {
        self.count
    }

    // One more line, behind all others.
    #[tactic(auto, using(crate::proofs::Seen::seen_length, crate::proofs::Seen::pushed_last))]
    pub fn push_last(&mut self, line: Text)
        requires { length (lines_seen self.old) < 32 }
        ensures { lines_seen self.new ≡ lines_seen self.old ++ held line ∷ [] }
    {
        let at = place(self.first, self.count);
        self.records[at] = line;
        self.count += 1;
    }

    // One more line, before all others.
    #[tactic(auto, using(crate::proofs::Seen::seen_length, crate::proofs::Seen::pushed_first))]
    pub fn push_first(&mut self, line: Text)
        requires { length (lines_seen self.old) < 32 }
        ensures { lines_seen self.new ≡ held line ∷ lines_seen self.old }
    {
        let at = place(self.first, 31);
        self.records[at] = line;
        self.first = at;
        self.count += 1;
    }

    // Takes the first line out; none where there is none.
    #[tactic(auto, using(crate::proofs::Seen::taken_first))]
    pub fn take_first(&mut self) -> Option<Text>
        ensures { MatchOption result ((lines_seen self.old ≡ []) × (self.new ≡ self.old)) (λ t. lines_seen self.old ≡ held t ∷ lines_seen self.new) }
    {
        if self.count == 0 {
            return None;
        }
        let line = self.records[self.first];
        self.first = place(self.first, 1);
        self.count -= 1;
        Some(line)
    }
}
