// The lines of a script, one at a time.
ghost use Rattle.std.specs.Prelude.{◌≡◌, ◌<◌, ◌^◌, length};
ghost use Rattle.std.specs.Iterator.{YieldsFirstRef, item_count};
ghost use Rattle.text.specs.Words.{parts};
ghost use Rattle.script.specs.Lines.{lines_of, next_line, Cuts};
ghost use Rattle.script.specs.Judgement.{foreign, long, first_line};
ghost use Rattle.script.specs.Rest.{lines_left};

use text::{all_within, until};

// The first line of `bytes`, and what follows the byte that ends it.
pub fn next_line(bytes: &[u8]) -> Option<(&[u8], &[u8])>
    ensures is { parts result ≡ next_line bytes.now }
    ensures cuts { Cuts bytes.now (parts result) }
{
    if bytes.is_empty() {
        return None;
    }
    let (line, rest) = bytes.split_at(until(bytes, b'\n'));
    if rest.is_empty() {
        return Some((line, rest));
    }
    Some((line, &rest[1..]))
}

// The lines that are left, from the first.
#[derive(Drop)]
pub struct Lines<'b> {
    rest: &'b [u8],
}

impl<'b> Lines<'b> {
    // Each line of `bytes` in turn.
    #[tactic(auto, using(crate::proofs::Sizes::lines_sizes))]
    pub fn new(bytes: &'b [u8]) -> Lines<'b>
        ensures is { lines_left result ≡ lines_of bytes.now }
        ensures few { length (lines_left result) < 2 ^ 64 }
    {
        Lines { rest: bytes }
    }
}

impl<'b> Iterator for Lines<'b> {
    type Item = &'b [u8];

    ghost next_gives = { YieldsFirstRef lines_left };

    ghost remaining = { item_count lines_left };

    fn next(&mut self) -> Option<&'b [u8]> {
        let (line, rest) = next_line(self.rest)?;
        self.rest = rest;
        Some(line)
    }
}

// The number of the first line with a byte that is not from 32 to 126, counted from 1. This and the
// next are chains of their own: of a closure that tests a line, a common function could promise no
// more than what its calls gave.
pub(crate) fn first_foreign(bytes: &[u8]) -> Option<usize>
    ensures { result ≡ first_line foreign (lines_of bytes.now) }
{
    Lines::new(bytes)
        .position(|line| !all_within(line, 32, 126))
        .map(|i| i + 1)
}

// The number of the first line of more than 255 bytes, counted from 1.
pub(crate) fn first_long(bytes: &[u8]) -> Option<usize>
    ensures { result ≡ first_line long (lines_of bytes.now) }
{
    Lines::new(bytes)
        .position(|line| line.len() > 255)
        .map(|i| i + 1)
}
