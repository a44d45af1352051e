// What a statement is, past every &IF that leads to it.
ghost use Rattle.std.specs.Prelude.{◌≡◌, List};
ghost use Rattle.machine.specs.Machines.{Line};
ghost use Rattle.language.specs.Statements.{statement};
ghost use Rattle.store.specs.Stores.{core_seen};
ghost use Rattle.substitution.specs.Writing.{written_seen};
ghost use Rattle.statement.specs.Leads.{result_means};

use crate::clause::whether;
use crate::lead::Lead;
use crate::turn::{Turn, begin};
use language::Stop;
use substitution::{Reader, Written};

// The statement that words make. An &IF whose clause holds leads to the statement behind it.
pub fn find_lead<'a>(reader: Reader, mut words: Written<'a>) -> Result<Lead<'a>, Stop>
    ensures { (st : List Line) → result_means reader.entry.line (core_seen reader.entry.store.now) st result ≡ statement reader.entry.line (core_seen reader.entry.store.now) st (written_seen words.entry) }
{
    loop {
        match begin(reader, words)? {
            Turn::Leads(lead) => return Ok(lead),
            Turn::Tests(after) => words = after,
        }
        if !whether(reader, &mut words)? {
            return Ok(Lead::Nothing);
        }
    }
}
