// A new session.
ghost use Rattle.std.specs.Prelude.{◌≡◌};
ghost use Rattle.text.specs.Shorts.{short_bytes};
ghost use Rattle.script.specs.Views.{bytes_of};
ghost use Rattle.host.specs.Books.{Book};
ghost use Rattle.language.specs.Cores.{fresh};
ghost use Rattle.language.specs.Sessions.{new_session};
ghost use Rattle.store.specs.States.{state_seen};

use super::State;
use crate::store::Store;
use script::Script;
use tables::Lines;
use text::Short;

impl<'b, 'd> State<'b, 'd> {
    // Nothing is stacked, nothing waits, and no step is taken.
    pub fn new(script: Script<'b, 'd>, string: Short<'_>) -> State<'b, 'd>
        ensures { (book : Book) → state_seen result book ≡ new_session (fresh (bytes_of script.entry) (short_bytes string.entry)) book }
    {
        State {
            store: Store::new(script, string),
            stack: Lines::new(),
            waiting: Lines::new(),
            steps: 0,
        }
    }
}
