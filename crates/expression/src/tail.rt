// The words of a list from a place on.
ghost use Rattle.std.specs.Prelude.{◌≤◌, length};
ghost use Rattle.words.specs.Listed.{listed};

use words::Words;

mod methods;

#[derive(Clone, Copy)]
pub(crate) struct Tail<'a> {
    words: &'a Words,
    at: usize,
    ghost within: { at ≤ length (listed words.now) },
    ghost few: { at ≤ 256 },
}
