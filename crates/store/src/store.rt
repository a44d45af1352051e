// What statements see and change, but for the stack.
use crate::calls::Calls;
use language::Life;
use script::Script;
use tables::Variables;
use text::Text;
use words::Words;

mod methods;
mod settings;
mod values;

#[derive(Clone, Copy)]
pub struct Store<'b, 'd> {
    pub script: Script<'b, 'd>,
    // The argument string.
    pub string: Text,
    pub variables: Variables,
    pub arguments: Words,
    pub calls: Calls,
    // The environment that plain commands go to; the host system's name is empty.
    pub presumed: Text,
    // The current line.
    pub place: u64,
    // The line of the last &GOTO that went.
    pub from: u64,
    // The line that sent the last command, and its code.
    pub command_line: u64,
    pub code: i32,
    pub life: Life,
}
