// One turn of finding out what a statement is.
ghost use Rattle.std.specs.Prelude.{◌≡◌, ℕ, ◌<◌, cond, List, [], length, drop, Some, None, Ok, IfOk, option_map};
ghost use Rattle.machine.specs.Machines.{Line};
ghost use Rattle.language.specs.Assignments.{begins_equals};
ghost use Rattle.language.specs.Cores.{Core};
ghost use Rattle.language.specs.Orders.{control_of};
ghost use Rattle.language.specs.Statements.{led, clause, decided, statement};
ghost use Rattle.language.specs.Words.{Word};
ghost use Rattle.store.specs.Stores.{core_seen};
ghost use Rattle.substitution.specs.Scratches.{scratch_held};
ghost use Rattle.substitution.specs.Writing.{written_seen};
ghost use Rattle.statement.specs.Turning.{turn_means, TestsFewer};

use crate::lead::Lead;
use crate::solid::first_solid;
use keywords::control_of;
use language::{Control, Mark, Stop, mark_of};
use substitution::{Reader, Scratch, Written};

// What a turn finds: the statement, or an &IF with the words of its clause and its rest.
#[derive(Clone, Copy)]
pub(crate) enum Turn<'a> {
    Leads(Lead<'a>),
    Tests(Written<'a>),
}

// The words behind an = that comes first.
fn behind_equals(mut words: Written<'_>) -> Option<Written<'_>>
    ensures { option_map written_seen result ≡ cond (begins_equals (written_seen words.entry)) (Some (drop 1 (written_seen words.entry))) None }
{
    match words.next()?.bytes.as_slice() {
        b"=" => Some(words),
        _ => None,
    }
}

// What a first word decides that is not null, with the words behind it.
fn turn_by(first: Scratch, after: Written<'_>) -> Turn<'_>
    ensures means { (line : ℕ) (c : Core) (st : List Line) → turn_means line c st (Ok result) ≡ led line c st (scratch_held first) (control_of (scratch_held first)) (written_seen after.entry) (clause line c st [] (written_seen after.entry)) }
    ensures fewer { (all : List Word) → length (written_seen after.entry) < length all → TestsFewer all result }
{
    let Some(control) = control_of(first.as_bytes()) else {
        return Turn::Leads(Lead::Commands(first, after));
    };
    match control {
        Control::If => Turn::Tests(after),
        Control::Read => Turn::Leads(Lead::Reads(after)),
        Control::Obeys(order) => Turn::Leads(Lead::Obeys(order, first, after)),
    }
}

// What the first word that is not null decides.
#[tactic(auto, using(crate::proofs::Decisions::decided_by))]
fn decide<'a>(reader: Reader, words: Written<'a>) -> Result<Turn<'a>, Stop>
    ensures means { (st : List Line) → turn_means reader.entry.line (core_seen reader.entry.store.now) st result ≡ decided reader.entry.line (core_seen reader.entry.store.now) st (written_seen words.entry) }
    ensures fewer { IfOk result (TestsFewer (written_seen words.entry)) }
{
    let mut after = words;
    match first_solid(reader, &mut after)? {
        Some(first) => Ok(turn_by(first, after)),
        None => Ok(Turn::Leads(Lead::Nothing)),
    }
}

// What a statement is, up to a first &IF.
pub(crate) fn begin<'a>(reader: Reader, words: Written<'a>) -> Result<Turn<'a>, Stop>
    ensures means { (st : List Line) → turn_means reader.entry.line (core_seen reader.entry.store.now) st result ≡ statement reader.entry.line (core_seen reader.entry.store.now) st (written_seen words.entry) }
    ensures fewer { IfOk result (TestsFewer (written_seen words.entry)) }
{
    let mut after = words;
    let Some(first) = after.next() else {
        return Ok(Turn::Leads(Lead::Nothing));
    };
    match mark_of(first.bytes.as_slice()) {
        Mark::Comment | Mark::Label => Ok(Turn::Leads(Lead::Misplaced(words))),
        Mark::Name => match behind_equals(after) {
            Some(right) => Ok(Turn::Leads(Lead::Assigns(first, right))),
            None => decide(reader, words),
        },
        Mark::Plain => decide(reader, words),
    }
}
