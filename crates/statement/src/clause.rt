// The clause of an &IF: its words, and whether it holds.
ghost use Rattle.std.specs.Prelude.{◌≡◌, ◌≤◌, List, [], length, OnOk};
ghost use Rattle.machine.specs.Machines.{Line};
ghost use Rattle.language.specs.Faults.{giving};
ghost use Rattle.language.specs.Statements.{clause};
ghost use Rattle.store.specs.Stores.{core_seen};
ghost use Rattle.substitution.specs.Gathering.{gathering};
ghost use Rattle.substitution.specs.Writing.{written_seen};
ghost use Rattle.statement.specs.Clauses.{clause_of, clauses_behind, whether_means};

use crate::condition::condition_holds;
use crate::solid::first_solid;
use language::{StatementFault, Stop};
use substitution::{Gathered, Reader, Written};

// Takes words that are not null, up to three.
#[tactic(auto, using(crate::proofs::Turns::put_before, crate::proofs::Turns::one_more, crate::proofs::Turns::no_more))]
fn take_clause(reader: Reader, words: &mut Written, into: &mut Gathered) -> Result<(), Stop>
    ensures is { giving result (gathering into.new, written_seen words.new) ≡ clauses_behind (gathering into.old) (clause_of reader.entry.line (core_seen reader.entry.store.now) 3 (written_seen words.old)) }
    ensures no_more { OnOk result (length (written_seen words.new) ≤ length (written_seen words.old)) }
{
    for _ in 0..3usize {
        let Some(text) = first_solid(reader, words)? else {
            return Ok(());
        };
        into.take(text.as_bytes());
    }
    Ok(())
}

// Whether the clause that words begin with holds; the words are then those behind it.
#[tactic(auto, using(crate::proofs::Whether::clause_judged))]
pub(crate) fn whether(reader: Reader, words: &mut Written) -> Result<bool, Stop>
    ensures is { (st : List Line) → whether_means reader.entry.line (core_seen reader.entry.store.now) st result (written_seen words.new) ≡ clause reader.entry.line (core_seen reader.entry.store.now) st [] (written_seen words.old) }
    ensures no_more { OnOk result (length (written_seen words.new) ≤ length (written_seen words.old)) }
{
    let mut clause = Gathered::new();
    clause.take(b"&IF");
    take_clause(reader, words, &mut clause)?;
    let words = reader.in_statement(clause.words.ok_or(StatementFault::TooLong))?;
    reader.in_statement(condition_holds(&words))
}
