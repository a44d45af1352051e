// The value of every name.
ghost use Rattle.std.specs.Prelude.{◌≡◌, ℕ, List, Some};
ghost use Rattle.language.specs.Store.{kept_value, value_by, value_of};
ghost use Rattle.language.specs.Views.{kept_seen, kind_seen};
ghost use Rattle.store.specs.Stores.{core_seen};
ghost use Rattle.store.specs.Values.{value_seen};

use super::Store;
use crate::value::Value;
use keywords::kind_of;
use language::{KeptName, Kind};
use text::Short;

impl<'b, 'd> Store<'b, 'd> {
    fn kept_value(&self, name: KeptName) -> Value<'_>
        ensures { (n : List ℕ) → value_seen n result ≡ Some (kept_value (core_seen self.now) (kept_seen name)) }
    {
        match name {
            KeptName::Ampersand => Value::Bytes(Short::of(b"&")),
            KeptName::ArgumentString => Value::Bytes(self.string.as_short()),
            KeptName::Blank => Value::Bytes(Short::of(b" ")),
            KeptName::CommandLine => Value::Count(self.command_line),
            KeptName::Depth => Value::Count(self.calls.len() as u64),
            KeptName::From => Value::Count(self.from),
            KeptName::Count => Value::Count(self.arguments.len() as u64),
            KeptName::Place => Value::Count(self.place),
            KeptName::Link => Value::Count(self.calls.link()),
            KeptName::Code => Value::Code(self.code),
        }
    }

    fn value_by(&self, name: &[u8], kind: Kind) -> Value<'_>
        ensures { value_seen name.now result ≡ value_by (core_seen self.now) name.now (kind_seen kind) }
    {
        match kind {
            Kind::Kept(kept) => self.kept_value(kept),
            Kind::Own => Value::Own,
            Kind::Absent => Value::Absent,
            Kind::Argument(j) => Value::Bytes(self.arguments.get(j.saturating_sub(1))),
            Kind::Ordinary => Value::Bytes(self.variables.value(name)),
        }
    }

    // The value of a name, with its ampersand.
    #[tactic(auto, using(crate::proofs::Putting::value_is))]
    pub fn value(&self, name: &[u8]) -> Value<'_>
        ensures { value_seen name.now result ≡ value_of (core_seen self.now) name.now }
    {
        self.value_by(name, kind_of(name))
    }
}
