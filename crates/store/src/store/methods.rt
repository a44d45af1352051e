// A new store.
ghost use Rattle.std.specs.Prelude.{◌≡◌};
ghost use Rattle.text.specs.Shorts.{short_bytes};
ghost use Rattle.script.specs.Views.{bytes_of};
ghost use Rattle.language.specs.Cores.{fresh};
ghost use Rattle.store.specs.Stores.{core_seen};

use super::Store;
use crate::calls::Calls;
use language::Life;
use script::Script;
use tables::Variables;
use text::{Short, Text};
use words::Words;

impl<'b, 'd> Store<'b, 'd> {
    // At line 1, with the words of the string as its arguments.
    pub fn new(script: Script<'b, 'd>, string: Short<'_>) -> Store<'b, 'd>
        ensures { core_seen result ≡ fresh (bytes_of script.entry) (short_bytes string.entry) }
    {
        Store {
            script,
            string: Text::from_short(string),
            variables: Variables::new(),
            arguments: Words::of_line(string),
            calls: Calls::new(),
            presumed: Text::new(),
            place: 1,
            from: 0,
            command_line: 0,
            code: 0,
            life: Life::Running,
        }
    }
}
