// Variables found, changed, added and freed.
ghost use Rattle.std.specs.Prelude.{◌≡◌, ◌<◌, [], length, IfSome, is_ok, MatchBool};
ghost use Rattle.text.specs.Shorts.{short_bytes};
ghost use Rattle.text.specs.Tables.{held};
ghost use Rattle.language.specs.Faults.{giving};
ghost use Rattle.language.specs.Store.{bears, variable, variable_at, value_at};
ghost use Rattle.tables.specs.Assigned.{assigned_to};
ghost use Rattle.tables.specs.Tables.{variable_seen, variables_seen};

use super::{Variable, Variables};
use language::StoreFault;
use text::{Named, Short, Table, Text, find_first};

impl Variable {
    fn new(name: Short<'_>, value: Short<'_>) -> Variable
        ensures { variable_seen result ≡ variable (short_bytes name.entry) (short_bytes value.entry) }
    {
        Variable {
            name: Text::from_short(name),
            value: Text::from_short(value),
        }
    }
}

impl Named for Variable {
    ghost named = { λ v _ name. bears name (variable_seen v) };

    fn bears(&self, _bytes: &[u8], name: &[u8]) -> bool {
        self.name.as_slice() == name
    }
}

impl Variables {
    pub fn new() -> Variables
        ensures { variables_seen result ≡ [] }
    {
        let blank = Variable {
            name: Text::new(),
            value: Text::new(),
        };
        Variables {
            records: Table::empty(blank),
        }
    }

    #[tactic(auto, using(crate::proofs::Records::found))]
    fn find(&self, name: &[u8]) -> Option<usize>
        ensures is { result ≡ variable_at (variables_seen self.now) name.now }
        ensures within { IfSome result (λ i. i < length (held self.now.records)) }
    {
        find_first(self.records.as_slice(), b"", name)
    }

    // The value of a variable, null where there is none.
    pub fn value(&self, name: &[u8]) -> Short<'_>
        ensures { short_bytes result ≡ value_at (variables_seen self.now) (variable_at (variables_seen self.now) name.now) }
    {
        match self.find(name) {
            Some(i) => self.records.as_slice()[i].value.as_short(),
            None => Short::of(b""),
        }
    }

    // Sets a variable: one that becomes null gives its place back, and a new one takes a place.
    pub fn set(&mut self, name: Short<'_>, value: Short<'_>) -> Result<(), StoreFault>
        ensures is { giving result (variables_seen self.new) ≡ assigned_to (variables_seen self.old) (short_bytes name.entry) (short_bytes value.entry) }
        ensures unless { MatchBool (is_ok result) (Unit {0}) (variables_seen self.new ≡ variables_seen self.old) }
    {
        let null = value.as_slice().is_empty();
        match self.find(name.as_slice()) {
            Some(i) if null => self.records.remove(i),
            Some(i) => self.records.replace(i, Variable::new(name, value)),
            None if null => {}
            None => self
                .records
                .push(Variable::new(name, value))
                .map_err(|_| StoreFault::TooManyVariables)?,
        }
        Ok(())
    }
}
