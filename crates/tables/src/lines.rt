// Lines of text in order, at most 32: those that are stacked, or those that wait.
ghost use Rattle.std.specs.Prelude.{◌≡◌, ◌<◌, ◌≤◌, length};

use text::Text;

mod methods;

// A ring in fixed memory, so that the first is taken without moving the others: the lines stand
// from the place `first` on, round past the end of the array.
#[derive(Clone, Copy)]
pub struct Lines {
    records: [Text; 32],
    first: usize,
    count: usize,
    ghost whole: { length records ≡ 32 },
    ghost begins: { first < 32 },
    ghost few: { count ≤ 32 },
}
