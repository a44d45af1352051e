// Check, and what a checked script can be asked.
ghost use Rattle.std.specs.Prelude.{◌≡◌, ◌≤◌, length, codes};
ghost use Rattle.std.specs.Option.{option_map};
ghost use Rattle.script.specs.Lines.{records_of};
ghost use Rattle.script.specs.Refusals.{told};
ghost use Rattle.script.specs.Judgement.{judged};
ghost use Rattle.script.specs.Views.{bytes_of, script_lines, line_numbered, labelled, Left};

use super::Script;
use crate::judge::fill;
use crate::line::Line;
use crate::refusal::Refusal;
use text::find;

static FIRST: [u8; 6] = *b"&TRACE";

static FIRST_LINE: [Line; 1] = [Line {
    offset: 0,
    length: 6,
}];

impl<'b, 'd> Script<'b, 'd> {
    // The one line `&TRACE`.
    pub fn new() -> Script<'b, 'd>
        ensures { bytes_of result ≡ codes "&TRACE" }
    {
        Script {
            bytes: &FIRST,
            lines: &FIRST_LINE,
            beyond: &[],
        }
    }

    // Fills the script from `bytes`, with `directory` for its records, and answers the number of
    // lines; or refuses, and the script stays as it was.
    #[tactic(auto, using(crate::proofs::Soundness::sound_filled))]
    pub fn check(&mut self, bytes: &'b [u8], directory: &'d mut [Line]) -> Result<usize, Refusal>
        ensures answer { told result ≡ judged bytes.now (length directory.old) }
        ensures after { Left self.old bytes.now directory.old result self.new }
    {
        let count = fill(bytes, directory)?;
        let (lines, beyond) = directory.split_at(count);
        *self = Script {
            bytes,
            lines,
            beyond,
        };
        Ok(count)
    }

    pub fn bytes(&self) -> &'b [u8]
        ensures { result.now ≡ bytes_of self.now }
    {
        self.bytes
    }

    // The records of its lines.
    #[tactic(auto, using(crate::proofs::Soundness::sound_records, crate::proofs::Soundness::sound_few))]
    pub fn lines(&self) -> &'d [Line]
        ensures is { result.now ≡ records_of (bytes_of self.now) }
        ensures few { length result.now ≤ 1024 }
    {
        self.lines
    }

    // The line of a number, counted from 1.
    pub fn line(&self, number: usize) -> Option<&'b [u8]>
        ensures { option_map (λ x. x.now) result ≡ line_numbered (script_lines self.now) number }
    {
        let line = self.lines.get(number.checked_sub(1)?)?;
        Some(line.text(self.bytes))
    }

    // The number of the first line whose first word is `label`, sought from the line that follows
    // the line `from`, then from the top, the line `from` last.
    pub fn find_label(&self, from: usize, label: &[u8]) -> Option<usize>
        ensures { result ≡ labelled (script_lines self.now) from label.now }
    {
        find(self.lines(), from, self.bytes, label).map(|i| i + 1)
    }
}
