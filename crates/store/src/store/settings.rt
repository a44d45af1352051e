// Names set.
ghost use Rattle.std.specs.Prelude.{◌≡◌, true, is_ok, MatchBool};
ghost use Rattle.text.specs.Shorts.{short_bytes};
ghost use Rattle.language.specs.Faults.{giving};
ghost use Rattle.language.specs.Store.{settable, settable_by, put_by, put};
ghost use Rattle.language.specs.Texts.{has_ampersand};
ghost use Rattle.language.specs.Views.{kind_seen};
ghost use Rattle.store.specs.Others.{OthersKept};
ghost use Rattle.store.specs.Stores.{core_seen};

use super::Store;
use keywords::kind_of;
use language::{Kind, StoreFault};
use text::Short;

impl<'b, 'd> Store<'b, 'd> {
    fn is_settable_by(&self, kind: Kind) -> bool
        ensures { result ≡ settable_by (core_seen self.now) (kind_seen kind) }
    {
        match kind {
            Kind::Kept(_) | Kind::Own | Kind::Absent => false,
            Kind::Argument(j) => j <= self.arguments.len(),
            Kind::Ordinary => true,
        }
    }

    fn put_by(&mut self, name: Short<'_>, value: Short<'_>, kind: Kind) -> Result<(), StoreFault>
        ensures is { giving result (core_seen self.new) ≡ put_by (core_seen self.old) (short_bytes name.entry) (short_bytes value.entry) (kind_seen kind) }
        ensures unless { MatchBool (is_ok result) (Unit {0}) (core_seen self.new ≡ core_seen self.old) }
    {
        match kind {
            Kind::Kept(_) | Kind::Own | Kind::Absent => Err(StoreFault::CannotBeSet),
            Kind::Argument(j) => self
                .arguments
                .set(j.saturating_sub(1), value.as_slice())
                .map_err(|_| StoreFault::ListTooLong),
            Kind::Ordinary => self.variables.set(name, value),
        }
    }

    #[tactic(auto, using(crate::proofs::Putting::settable_is))]
    pub fn is_settable(&self, name: &[u8]) -> bool
        ensures { result ≡ settable (core_seen self.now) name.now }
    {
        self.is_settable_by(kind_of(name))
    }

    // Sets a name, where it can be set. Every other name keeps its value.
    pub fn put(&mut self, name: Short<'_>, value: Short<'_>) -> Result<(), StoreFault>
        ensures is { giving result (core_seen self.new) ≡ put (core_seen self.old) (short_bytes name.entry) (short_bytes value.entry) }
        ensures unless { MatchBool (is_ok result) (Unit {0}) (core_seen self.new ≡ core_seen self.old) }
        ensures others { has_ampersand (short_bytes name.entry) ≡ true → OthersKept (short_bytes name.entry) (core_seen self.old) (core_seen self.new) }
    {
        let kind = kind_of(name.as_slice());
        if !self.is_settable_by(kind) {
            return Err(StoreFault::CannotBeSet);
        }
        self.put_by(name, value, kind)
    }
}
