// One word with the names in it replaced, from right to left.
ghost use Rattle.std.specs.Prelude.{◌≡◌, ◌+◌, ◌≤◌, length, drop, OnOk, IfOk};
ghost use Rattle.text.specs.Shorts.{short_bytes};
ghost use Rattle.language.specs.Faults.{giving};
ghost use Rattle.language.specs.Words.{replaced, substituted, named};
ghost use Rattle.store.specs.Stores.{core_seen};
ghost use Rattle.substitution.specs.Replaced.{within};
ghost use Rattle.substitution.specs.Scratches.{scratch_held, held_in};

use crate::scratch::Scratch;
use language::WordFault;
use store::{Store, Value};
use text::{Short, Text};

fn set_within(left: usize, value: Short, text: &mut Scratch) -> Result<(), WordFault>
    requires { left ≤ 255 }
    ensures is { giving result (scratch_held text.new) ≡ within left (short_bytes value.entry) }
    ensures room { OnOk result (left + length (scratch_held text.new) ≤ 255) }
{
    if value.as_slice().len() > 255 - left {
        return Err(WordFault::WordTooLong);
    }
    text.set(value);
    Ok(())
}

// The value of a name takes its place, with so many bytes to the left of it: as many as the place
// of the name, so it is a parameter and no field of the text.
fn replace_name(store: &Store, left: usize, text: &mut Scratch) -> Result<(), WordFault>
    requires { left + length (scratch_held text.old) ≤ 255 }
    ensures is { giving result (scratch_held text.new) ≡ replaced (core_seen store.now) left (scratch_held text.old) }
    ensures room { OnOk result (left + length (scratch_held text.new) ≤ 255) }
{
    let name = text.as_bytes();
    if name.len() > 32 {
        return Err(WordFault::NameTooLong);
    }
    match store.value(name) {
        Value::Bytes(value) => set_within(left, value, text),
        Value::Own => Ok(()),
        Value::Count(n) => set_within(left, Text::from_number(n).as_short(), text),
        Value::Code(z) => set_within(left, Text::from_number(z).as_short(), text),
        Value::Absent => Err(WordFault::NotCarried),
    }
}

// What stands behind the first `from` bytes of a word, with its names replaced. The word is a slice,
// since it is read byte by byte.
fn replace_behind(store: &Store, word: &[u8], from: usize) -> Result<Scratch, WordFault>
    requires short { length word.now ≤ 255 }
    requires from { from ≤ length word.now }
    ensures is { held_in result ≡ substituted (core_seen store.now) from (drop from word.now) }
    ensures room { IfOk result (λ text. from + length (scratch_held text) ≤ 255) }
{
    let mut text = Scratch::new();
    // The place of a byte is also the number of bytes to the left of it.
    for i in (from..word.len()).rev() {
        text.prepend(word[i]);
        if word[i] == b'&' {
            replace_name(store, i, &mut text)?;
        }
    }
    Ok(text)
}

// A word with its names replaced.
pub(crate) fn replace_word(store: &Store, word: Short) -> Result<Scratch, WordFault>
    ensures { held_in result ≡ substituted (core_seen store.now) 0 (short_bytes word.entry) }
{
    replace_behind(store, word.as_slice(), 0)
}

// A target: its first byte stays, and the whole is a name.
pub(crate) fn replace_target(store: &Store, word: Short) -> Result<Scratch, WordFault>
    ensures { held_in result ≡ named (core_seen store.now) (short_bytes word.entry) }
{
    let word = word.as_slice();
    let Some(first) = word.first() else {
        return Ok(Scratch::new());
    };
    let mut name = replace_behind(store, word, 1)?;
    if name.as_bytes().len() > 31 {
        return Err(WordFault::NameTooLong);
    }
    name.prepend(*first);
    Ok(name)
}
