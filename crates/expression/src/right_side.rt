// The right side of an assignment.
ghost use Rattle.std.specs.Prelude.{◌≡◌, drop};
ghost use Rattle.text.specs.Shorts.{short_bytes};
ghost use Rattle.text.specs.Tables.{held};
ghost use Rattle.language.specs.Assignments.{items_of, right_side};
ghost use Rattle.language.specs.Faults.{giving};
ghost use Rattle.words.specs.Listed.{listed};
ghost use Rattle.expression.specs.Items.{items_in};

use crate::items::{Items, put};
use crate::sums::sum;
use language::StatementFault;
use text::Text;
use words::Words;

// Puts the value of the words from a place on into `value`, which is lent so that the
// caller's text is filled in place.
#[tactic(auto, using(crate::proofs::Walks::sum_is))]
pub fn evaluate(words: &Words, from: usize, value: &mut Text) -> Result<(), StatementFault>
    ensures { giving result (held value.new) ≡ right_side (items_of (drop from (listed words.now))) }
{
    let mut items = Items::new(words, from);
    let Some(first) = items.next() else {
        value.clear();
        return Ok(());
    };
    if items.is_empty() {
        return Ok(put(first, value)?);
    }
    *value = Text::from_number(sum(first, items, value)?);
    Ok(())
}
