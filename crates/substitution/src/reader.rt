// The words of a line, the names in them replaced by their values.
ghost use Rattle.std.specs.Prelude.{◌≡◌};
ghost use Rattle.language.specs.Faults.{in_word, by_statement, in_line};
ghost use Rattle.language.specs.Words.{word_of, target_of};
ghost use Rattle.store.specs.Stores.{core_seen};
ghost use Rattle.substitution.specs.Scratches.{held_in};
ghost use Rattle.substitution.specs.Writing.{word_seen};

use crate::replace::{replace_target, replace_word};
use crate::scratch::Scratch;
use crate::written::Word;
use language::{Cause, StatementFault, Stop, WordFault};
use store::Store;

// The values that names have, and the line that a stop names.
#[derive(Clone, Copy)]
pub struct Reader<'s, 'b, 'd> {
    pub store: &'s Store<'b, 'd>,
    pub line: u64,
}

impl Reader<'_, '_, '_> {
    // The fault of a word as the stop that names it.
    fn in_word(self, number: u16, text: Result<Scratch, WordFault>) -> Result<Scratch, Stop>
        ensures { held_in result ≡ in_word self.entry.line number (held_in text) }
    {
        text.map_err(|fault| Stop {
            cause: Cause::Words(fault),
            line: self.line,
            word: number,
        })
    }

    // The fault of a statement as a stop that names no word.
    pub fn in_statement<T>(self, judged: Result<T, StatementFault>) -> Result<T, Stop>
        ensures { result ≡ in_line self.entry.line (by_statement judged) }
    {
        judged.map_err(|fault| Stop {
            cause: Cause::Statement(fault),
            line: self.line,
            word: 0,
        })
    }

    // A word with its names replaced, or the stop that names it.
    pub fn word(self, word: Word) -> Result<Scratch, Stop>
        ensures { held_in result ≡ word_of self.entry.line (core_seen self.entry.store.now) (word_seen word.entry) }
    {
        self.in_word(word.number, replace_word(self.store, word.bytes))
    }

    // A target is a name itself.
    pub fn target(self, word: Word) -> Result<Scratch, Stop>
        ensures { held_in result ≡ target_of self.entry.line (core_seen self.entry.store.now) (word_seen word.entry) }
    {
        self.in_word(word.number, replace_target(self.store, word.bytes))
    }
}
