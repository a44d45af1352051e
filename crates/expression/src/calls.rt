// Functions applied to their words.
ghost use Rattle.std.specs.Prelude.{◌≡◌, ◌-◌, ◌≤◌, ◌&&◌, [], length, if◌then◌else◌, nat_le, nat_lt, slice_index_or};
ghost use Rattle.text.specs.Shorts.{short_bytes};
ghost use Rattle.text.specs.Tables.{held};
ghost use Rattle.language.specs.Faults.{giving};
ghost use Rattle.language.specs.Functions.{concatenated, function_of, applied, applied_by};
ghost use Rattle.language.specs.Functions.Function.{size, trans, trim, pick};
ghost use Rattle.language.specs.Views.{function_seen};
ghost use Rattle.expression.specs.Calls.{outcome_of};
ghost use Rattle.expression.specs.Tails.{words_in};

use crate::fault::CallFault;
use crate::tail::Tail;
use keywords::{function_of, translate, trim};
use language::Function;
use text::{Short, Text, number};

// The words have room in a text even with blanks between them, so `append` never fails here.
fn concatenate(words: Tail, value: &mut Text)
    ensures { held value.new ≡ concatenated (words_in words.entry) }
{
    value.clear();
    for word in words {
        let _ = value.append(word.as_slice());
    }
}

fn measure(words: Tail, value: &mut Text) -> Result<(), CallFault>
    ensures { giving result (held value.new) ≡ outcome_of (applied size (words_in words.entry)) }
{
    if words.len() > 1 {
        return Err(CallFault::WrongWord);
    }
    *value = Text::from_number(words.get(0).as_slice().len());
    Ok(())
}

fn translate_first(words: Tail, value: &mut Text) -> Result<(), CallFault>
    ensures { giving result (held value.new) ≡ outcome_of (applied trans (words_in words.entry)) }
{
    let n = words.len();
    if n == 0 || n > 3 {
        return Err(CallFault::WrongWord);
    }
    value.set_short(words.get(0));
    translate(value, words.get(1).as_slice(), words.get(2).as_slice());
    Ok(())
}

fn trim_first(words: Tail, value: &mut Text) -> Result<(), CallFault>
    ensures { giving result (held value.new) ≡ outcome_of (applied trim (words_in words.entry)) }
{
    if words.len() > 1 {
        return Err(CallFault::WrongWord);
    }
    *value = Text::from_bytes(trim(words.get(0).as_slice()));
    Ok(())
}

// The word of a number, counted from 1, before the last word; null where there is none.
fn numbered_word(words: Tail, k: usize) -> Short
    ensures { short_bytes result ≡ (if nat_le 1 k && nat_lt k (length (words_in words.entry)) then slice_index_or (words_in words.entry) (k - 1) [] else []) }
{
    if k == 0 || k >= words.len() {
        return Short::of(&[]);
    }
    words.get(k - 1)
}

fn choose(words: Tail, value: &mut Text) -> Result<(), CallFault>
    ensures { giving result (held value.new) ≡ outcome_of (applied pick (words_in words.entry)) }
{
    let last = words.get(words.len().saturating_sub(1));
    let z = number(last.as_slice()).ok_or(CallFault::WrongWord)?;
    let k = usize::try_from(z).map_err(|_| CallFault::WrongWord)?;
    value.set_short(numbered_word(words, k));
    Ok(())
}

fn apply(function: Function, words: Tail, value: &mut Text) -> Result<(), CallFault>
    ensures { giving result (held value.new) ≡ outcome_of (applied (function_seen function) (words_in words.entry)) }
{
    match function {
        Function::Concat => {
            concatenate(words, value);
            Ok(())
        }
        Function::Length => measure(words, value),
        Function::Trans => translate_first(words, value),
        Function::Trim => trim_first(words, value),
        Function::Word => choose(words, value),
    }
}

// Applies the function that a word names to the words that follow OF.
pub(crate) fn call(name: Short, words: Tail, value: &mut Text) -> Result<(), CallFault>
    ensures { giving result (held value.new) ≡ outcome_of (applied_by (function_of (short_bytes name.entry)) (words_in words.entry)) }
{
    let function = function_of(name.as_slice()).ok_or(CallFault::UnknownFunction)?;
    apply(function, words, value)
}
