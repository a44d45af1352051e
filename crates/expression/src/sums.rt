// Sums, judged term by term.
ghost use Rattle.std.specs.Prelude.{◌≡◌};
ghost use Rattle.language.specs.Assignments.{yields};
ghost use Rattle.expression.specs.Calls.{stated};
ghost use Rattle.expression.specs.Items.{item_seen, items_in};
ghost use Rattle.expression.specs.Sums.{term_of, sign_of, sign_in, moved, judged, added, walk};

use crate::calls::call;
use crate::fault::CallFault;
use crate::items::{Item, Items};
use language::StatementFault;
use text::{Text, number};

#[derive(Clone, Copy, PartialEq, Eq, Debug)]
enum Sign {
    Plus,
    Minus,
}

fn sign_of(word: &[u8]) -> Option<Sign>
    ensures { result ≡ sign_of word.now }
{
    match word {
        b"+" => Some(Sign::Plus),
        b"-" => Some(Sign::Minus),
        _ => None,
    }
}

// The sign that an item is; a function is none.
fn sign_in(item: Item) -> Option<Sign>
    ensures { result ≡ sign_in (item_seen item.entry) }
{
    match item {
        Item::Word(word) => sign_of(word.as_slice()),
        Item::Call(_, _) => None,
    }
}

fn moved(total: i32, sign: Sign, z: i32) -> Result<i32, StatementFault>
    ensures { result ≡ judged (moved sign total z) }
{
    let sum = match sign {
        Sign::Plus => total.checked_add(z),
        Sign::Minus => total.checked_sub(z),
    };
    sum.ok_or(StatementFault::OutOfRange)
}

fn term_of(item: Item, value: &mut Text) -> Result<i32, CallFault>
    ensures { result ≡ term_of (yields (item_seen item.entry)) }
{
    let z = match item {
        Item::Word(word) => number(word.as_slice()),
        Item::Call(function, words) => {
            call(function, words, value)?;
            number(value.as_slice())
        }
    };
    z.ok_or(CallFault::WrongWord)
}

// A sum with one more term. A term that is no number counts before every fault of the sum, and
// an unknown function after it.
fn add(
    total: Result<i32, StatementFault>,
    sign: Sign,
    term: Result<i32, CallFault>,
) -> Result<i32, StatementFault>
    ensures { result ≡ added total sign term }
{
    match term {
        Ok(z) => moved(total?, sign, z),
        Err(CallFault::WrongWord) => Err(StatementFault::WrongWord),
        Err(CallFault::UnknownFunction) => total.and(Err(StatementFault::UnknownFunction)),
    }
}

// The first term, with the fault of the statement.
fn first(item: Item, value: &mut Text) -> Result<i32, StatementFault>
    ensures { result ≡ stated (term_of (yields (item_seen item.entry))) }
{
    Ok(term_of(item, value)?)
}

// The sum that begins with an item. What is missing behind a sign is no number.
pub(crate) fn sum(item: Item, mut items: Items, value: &mut Text) -> Result<i32, StatementFault>
    ensures { result ≡ walk (stated (term_of (yields (item_seen item.entry)))) (items_in items.entry) }
{
    let mut total = first(item, value);
    while let Some(sign) = items.next() {
        let sign = sign_in(sign).ok_or(StatementFault::Malformed)?;
        let term = items.next().ok_or(StatementFault::WrongWord)?;
        total = add(total, sign, term_of(term, value));
    }
    total
}
