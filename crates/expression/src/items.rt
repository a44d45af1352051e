// The items of a right side: words, and a function with its words, which comes last.
ghost use Rattle.std.specs.Prelude.{◌≡◌, drop, length, nat_eq};
ghost use Rattle.std.specs.Iterator.{YieldsFirstBy, item_count};
ghost use Rattle.text.specs.Shorts.{short_bytes};
ghost use Rattle.text.specs.Tables.{held};
ghost use Rattle.language.specs.Assignments.{begins_of, items_of, yields};
ghost use Rattle.language.specs.Faults.{giving};
ghost use Rattle.words.specs.Listed.{listed};
ghost use Rattle.expression.specs.Calls.{outcome_of};
ghost use Rattle.expression.specs.Items.{item_seen, items_in};
ghost use Rattle.expression.specs.Tails.{words_in};

use crate::calls::call;
use crate::fault::CallFault;
use crate::tail::Tail;
use text::{Short, Text};
use words::Words;

#[derive(Clone, Copy)]
pub(crate) enum Item<'a> {
    Word(Short<'a>),
    Call(Short<'a>, Tail<'a>),
}

// Puts the text of an item on its own into `value`.
pub(crate) fn put(item: Item, value: &mut Text) -> Result<(), CallFault>
    ensures { giving result (held value.new) ≡ outcome_of (yields (item_seen item.entry)) }
{
    match item {
        Item::Word(word) => {
            value.set_short(word);
            Ok(())
        }
        Item::Call(function, words) => call(function, words, value),
    }
}

#[derive(Clone, Copy)]
pub(crate) struct Items<'a> {
    words: Tail<'a>,
}

// Whether the first word is the one that follows a function.
fn begins_of(mut words: Tail) -> bool
    ensures { result ≡ begins_of (words_in words.entry) }
{
    words
        .next()
        .is_some_and(|word| word.as_slice() == b"OF".as_slice())
}

impl<'a> Items<'a> {
    pub(crate) fn new(words: &'a Words, from: usize) -> Items<'a>
        ensures { items_in result ≡ items_of (drop from (listed words.now)) }
    {
        Items {
            words: Tail::new(words, from),
        }
    }

    #[tactic(auto, using(crate::proofs::ItemLists::no_items))]
    pub(crate) fn is_empty(&self) -> bool
        ensures { result ≡ nat_eq (length (items_in self.now)) 0 }
    {
        self.words.len() == 0
    }
}

impl<'a> Iterator for Items<'a> {
    type Item = Item<'a>;

    ghost next_gives = { YieldsFirstBy item_seen items_in };

    ghost remaining = { item_count items_in };

    fn next(&mut self) -> Option<Item<'a>> {
        let word = self.words.next()?;
        let rest = self.words;
        if begins_of(rest) {
            self.words = rest.behind(rest.len());
            return Some(Item::Call(word, rest.behind(1)));
        }
        Some(Item::Word(word))
    }
}
