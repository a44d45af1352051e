// The words of a statement replaced and gathered.
ghost use Rattle.std.specs.Prelude.{◌≡◌, List, [], Some};
ghost use Rattle.language.specs.Faults.{giving};
ghost use Rattle.language.specs.Texts.{Bytes};
ghost use Rattle.language.specs.Words.{word_of, words_in, gathered};
ghost use Rattle.store.specs.Stores.{core_seen};
ghost use Rattle.substitution.specs.Gathering.{gathering, grown_all, taken_into, words_into, listed_of, behind};
ghost use Rattle.substitution.specs.Writing.{word_seen, written_seen};

use crate::gathered::Gathered;
use crate::reader::Reader;
use crate::written::{Word, Written};
use language::{StatementFault, Stop};
use words::Words;

impl Reader<'_, '_, '_> {
    // A word with its names replaced, unless it becomes null. One without an ampersand stands as it
    // is.
    #[tactic(auto, using(crate::proofs::Growing::unmarked))]
    fn take(self, word: Word, into: &mut Gathered) -> Result<(), Stop>
        ensures { giving result (gathering into.new) ≡ taken_into (gathering into.old) (word_of self.entry.line (core_seen self.entry.store.now) (word_seen word.entry)) }
    {
        let bytes = word.bytes.as_slice();
        if bytes.contains(&b'&') {
            into.take_unless_null(self.word(word)?.as_bytes());
        } else {
            into.take_unless_null(bytes);
        }
        Ok(())
    }

    // Takes every word; the leftmost fault comes first.
    fn take_all(self, words: Written, into: &mut Gathered) -> Result<(), Stop>
        ensures { giving result (gathering into.new) ≡ words_into (gathering into.old) (words_in self.entry.line (core_seen self.entry.store.now) (written_seen words.entry)) }
    {
        for word in words {
            self.take(word, into)?;
        }
        Ok(())
    }

    // The words that are there and every word behind them; then the statement may be too long.
    #[tactic(auto, using(crate::proofs::Growing::all_behind, crate::proofs::Growing::listed_unless))]
    pub fn gather(self, words: Written, mut into: Gathered) -> Result<Words, Stop>
        ensures { (front : List Bytes) → gathering into ≡ grown_all (Some []) front → listed_of result ≡ behind front (gathered self.entry.line front (words_in self.entry.line (core_seen self.entry.store.now) (written_seen words.entry))) }
    {
        self.take_all(words, &mut into)?;
        self.in_statement(into.words.ok_or(StatementFault::TooLong))
    }
}
