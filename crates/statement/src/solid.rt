// The first of some words that is not null once its names are replaced.
ghost use Rattle.std.specs.Prelude.{◌≡◌, ◌<◌, [], length, IfOk, MatchOption};
ghost use Rattle.store.specs.Stores.{core_seen};
ghost use Rattle.substitution.specs.Writing.{written_seen};
ghost use Rattle.statement.specs.Solid.{first_solid, found_in};

use language::Stop;
use substitution::{Reader, Scratch, Written};

// Takes words up to the first that is not null.
pub(crate) fn first_solid(reader: Reader, words: &mut Written) -> Result<Option<Scratch>, Stop>
    ensures is { found_in result (written_seen words.new) ≡ first_solid reader.entry.line (core_seen reader.entry.store.now) (written_seen words.old) }
    ensures left { IfOk result (λ found. MatchOption found (written_seen words.new ≡ []) (λ _. length (written_seen words.new) < length (written_seen words.old))) }
{
    // Of a `for` over words that are lent, nothing is proved of those that it leaves.
    while let Some(word) = words.next() {
        let text = reader.word(word)?;
        if !text.as_bytes().is_empty() {
            return Ok(Some(text));
        }
    }
    Ok(None)
}
