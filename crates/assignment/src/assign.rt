// A name set to the value of a right side, its faults in their order.
ghost use Rattle.std.specs.Prelude.{◌≡◌, ◌≤◌, drop, OnErr};
ghost use Rattle.text.specs.Shorts.{short_bytes};
ghost use Rattle.language.specs.Assignments.{assigns};
ghost use Rattle.language.specs.Faults.{giving};
ghost use Rattle.language.specs.Orders.{becomes};
ghost use Rattle.words.specs.Listed.{listed};
ghost use Rattle.store.specs.Stores.{core_seen};

use expression::evaluate;
use language::Cause;
use store::Store;
use text::{Short, Text};
use words::Words;

// Sets a name to the value of the words behind the first two, and goes on.
fn set_name(store: &mut Store, name: Short, words: &Words) -> Result<(), Cause>
    requires { store.old.place ≤ 1024 }
    ensures is { giving result (becomes (core_seen store.new)) ≡ assigns (core_seen store.old) (short_bytes name.entry) (drop 2 (listed words.now)) }
    ensures unless { OnErr result (core_seen store.new ≡ core_seen store.old) }
{
    let mut value = Text::new();
    evaluate(words, 2, &mut value).map_err(Cause::Statement)?;
    store.put(name, value.as_short()).map_err(Cause::Store)?;
    store.place += 1;
    Ok(())
}
