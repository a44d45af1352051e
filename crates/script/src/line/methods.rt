// What a record of the directory can be asked.
ghost use Rattle.std.specs.Prelude.{◌≡◌, ◌≤◌, length};
ghost use Rattle.script.specs.Lines.{line_text, first_word_is};

use super::Line;
use text::{Named, next_word};

pub(crate) fn first_word_is(line: &[u8], name: &[u8]) -> bool
    ensures { result ≡ first_word_is name.now line.now }
{
    next_word(line).is_some_and(|(word, _)| word == name)
}

impl Line {
    // The line's bytes, as far as `bytes` has them.
    #[tactic(auto, using(crate::proofs::Parts::cut_part))]
    pub fn text<'a>(&self, bytes: &'a [u8]) -> &'a [u8]
        ensures is { result.now ≡ line_text bytes.now self.now }
        ensures short { length result.now ≤ 255 }
    {
        let from = (self.offset as usize).min(bytes.len());
        let to = (from + self.length as usize).min(bytes.len());
        &bytes[from..to]
    }
}

// A line bears the label that is its first word.
impl Named for Line {
    ghost named = { λ line bytes name. first_word_is name (line_text bytes line) };

    fn bears(&self, bytes: &[u8], name: &[u8]) -> bool {
        first_word_is(self.text(bytes), name)
    }
}
