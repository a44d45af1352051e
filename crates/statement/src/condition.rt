// Conditions: a word, a comparative and a word.
ghost use Rattle.std.specs.Prelude.{◌≡◌, drop};
ghost use Rattle.language.specs.Conditions.{holds, condition_holds};
ghost use Rattle.language.specs.Views.{comparative_seen};
ghost use Rattle.words.specs.Listed.{listed};

use keywords::comparative_of;
use language::{Comparative, StatementFault};
use std::cmp::Ordering;
use text::compare_words;
use words::Words;

fn is_so(comparative: Comparative, order: Ordering) -> bool
    ensures { result ≡ holds (comparative_seen comparative) order }
{
    match comparative {
        Comparative::Equal => order.is_eq(),
        Comparative::Unequal => order.is_ne(),
        Comparative::Less => order.is_lt(),
        Comparative::NotLess => order.is_ge(),
        Comparative::More => order.is_gt(),
        Comparative::NotMore => order.is_le(),
    }
}

// Whether the condition behind the first word is so; a second word that is missing is null.
#[tactic(auto, using(crate::proofs::Conditions::placed))]
pub(crate) fn condition_holds(words: &Words) -> Result<bool, StatementFault>
    ensures { result ≡ condition_holds (drop 1 (listed words.now)) }
{
    if words.len() < 3 {
        return Err(StatementFault::Malformed);
    }
    let comparative = comparative_of(words.get(2).as_slice()).ok_or(StatementFault::Malformed)?;
    let order = compare_words(words.get(1).as_slice(), words.get(3).as_slice());
    Ok(is_so(comparative, order))
}
