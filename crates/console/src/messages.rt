// What the program tells a person.
ghost use Rattle.std.specs.Prelude.{◌≡◌};
ghost use Rattle.script.specs.Refusals.{refusal_number};
ghost use Rattle.console.specs.Messages.{refusal_meaning};

use script::Refusal;

// What a refusal means, and what to do about it.
pub fn meaning(refusal: Refusal) -> &'static str
    ensures { result.now ≡ refusal_meaning (refusal_number refusal) }
{
    match refusal {
        Refusal::TooManyBytes => "a script has at most 65,535 bytes; make it shorter",
        Refusal::ByteNotAllowed { .. } => {
            "the line has a byte that is not from 32 to 126; write it in blanks and plain ASCII"
        }
        Refusal::LineTooLong { .. } => "a line has at most 255 bytes; break it up",
        Refusal::TooManyLines => "a script has at most 1,024 lines; take some out",
        Refusal::NoTrace => "the first word of the first line must be &TRACE; put it there",
    }
}

pub const HELP: &str = "exec2: scenarios in EXEC 2

  exec2 check SCRIPT    the number of lines, or the refusal
  exec2 list SCRIPT     for each line its number, offset, length and text; then the number of lines
  exec2 orders          takes map orders from standard input, one to a line; writes each with its
                        code, and then the board
  exec2 help            this page

Orders are PLACE piece row column, MOVE piece row column and TAKE piece. A refused script ends with
status 1. The folder scenarios has scripts to try.
";
