// Words taken from a line, one at a time.
ghost use Rattle.std.specs.Prelude.{◌≡◌, ◌<◌, [], ◌∷◌, length, IfSome, MatchOption};
ghost use Rattle.std.specs.Iterator.{YieldsFirstBy, item_count};
ghost use Rattle.text.specs.Shorts.{short_bytes};
ghost use Rattle.language.specs.Words.{written_words};
ghost use Rattle.substitution.specs.Writing.{word_seen, written_seen};

use super::{Word, Written};
use text::{Short, next_word};

impl<'a> Written<'a> {
    pub fn new(line: Short<'a>) -> Written<'a>
        ensures is { written_seen result ≡ written_words (short_bytes line.entry) }
        ensures whole { result.rest.now ≡ short_bytes line.entry }
    {
        Written {
            number: 1,
            rest: line.as_slice(),
        }
    }

    // The first word, and those that follow it; none where there are no more.
    pub fn first(self) -> Option<(Word<'a>, Written<'a>)>
        ensures is { MatchOption result (written_seen self.entry ≡ []) (λ p. written_seen self.entry ≡ word_seen p.0 ∷ written_seen p.1) }
        ensures less { IfSome result (λ p. length p.1.rest.now < length self.entry.rest.now) }
    {
        let (bytes, rest) = next_word(self.rest)?;
        let word = Word {
            number: self.number,
            bytes: Short::of(bytes),
        };
        let behind = Written {
            number: self.number + 1,
            rest,
        };
        Some((word, behind))
    }
}

impl<'a> Iterator for Written<'a> {
    type Item = Word<'a>;

    ghost next_gives = { YieldsFirstBy word_seen written_seen };

    ghost remaining = { item_count written_seen };

    fn next(&mut self) -> Option<Word<'a>> {
        let (word, behind) = self.first()?;
        *self = behind;
        Some(word)
    }
}
