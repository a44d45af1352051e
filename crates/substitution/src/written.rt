// The words of a line as they are written, with their numbers.
ghost use Rattle.std.specs.Prelude.{◌+◌, ◌≤◌, length};

use text::Short;

mod methods;

// A word, and its number in the line, counted from 1.
#[derive(Clone, Copy)]
pub struct Word<'a> {
    pub number: u16,
    pub bytes: Short<'a>,
}

// What is left of a line, and the number of its next word. No line has more words than bytes.
#[derive(Clone, Copy)]
pub struct Written<'a> {
    number: u16,
    rest: &'a [u8],
    ghost from_one: { 1 ≤ number },
    ghost few: { number + length rest.now ≤ 256 },
}
