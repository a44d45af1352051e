// The judgement of a script, and its directory written in place.
ghost use Rattle.std.specs.Prelude.{◌≡◌, ◌≤◌, ◌++◌, length, drop, None};
ghost use Rattle.script.specs.Lines.{lines_of, records_of};
ghost use Rattle.script.specs.Refusals.{told};
ghost use Rattle.script.specs.Judgement.{long, first_line, traced, judged, filled};

use crate::line::Line;
use crate::line::methods::first_word_is;
use crate::lines::{Lines, first_foreign, first_long, next_line};
use crate::refusal::Refusal;

fn starts_with_trace(bytes: &[u8]) -> bool
    ensures { result ≡ traced (lines_of bytes.now) }
{
    next_line(bytes).is_some_and(|(line, _)| first_word_is(line, b"&TRACE"))
}

// The number of lines, or the first refusal that is due, where the directory has so many records.
fn judge(bytes: &[u8], records: usize) -> Result<usize, Refusal>
    ensures { told result ≡ judged bytes.now records }
{
    if bytes.len() > 65535 {
        return Err(Refusal::TooManyBytes);
    }
    if let Some(line) = first_foreign(bytes) {
        return Err(Refusal::ByteNotAllowed { line });
    }
    if let Some(line) = first_long(bytes) {
        return Err(Refusal::LineTooLong { line });
    }
    let count = Lines::new(bytes).count();
    if count > 1024 || count > records {
        return Err(Refusal::TooManyLines);
    }
    if !starts_with_trace(bytes) {
        return Err(Refusal::NoTrace);
    }
    Ok(count)
}

// Writes one record for each line, and leaves the records beyond as they were.
#[tactic(auto, using(crate::proofs::Sizes::lines_sizes))]
fn write_records(bytes: &[u8], directory: &mut [Line])
    requires small { length bytes.now ≤ 65535 }
    requires short { first_line long (lines_of bytes.now) ≡ None }
    requires room { length (lines_of bytes.now) ≤ length directory.old }
    ensures { directory.new ≡ records_of bytes.now ++ drop (length (lines_of bytes.now)) directory.old }
{
    let mut offset = 0usize;
    for (i, line) in Lines::new(bytes).enumerate() {
        directory[i] = Line {
            offset: offset as u16,
            length: line.len() as u8,
        };
        offset += line.len() + 1;
    }
}

// Judges the whole script, and only then writes the directory.
pub(crate) fn fill(bytes: &[u8], directory: &mut [Line]) -> Result<usize, Refusal>
    ensures answer { told result ≡ judged bytes.now (length directory.old) }
    ensures after { directory.new ≡ filled bytes.now directory.old result }
{
    let count = judge(bytes, directory.len())?;
    write_records(bytes, directory);
    Ok(count)
}
