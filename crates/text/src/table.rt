// A table of at most so many items, held in place: the first of an array are in use.
ghost use Rattle.std.specs.Prelude.{◌≡◌, ◌≤◌, ⊤};

use std::alloc::AllocError;

mod bytes;
mod methods;

// Fixed memory, and copied whole: an array with its length. What lies beyond the length is
// nobody's business: contracts speak of what is `held`.
pub struct Table<T, const N: usize> {
    items: [T; N],
    len: usize,
    ghost fits: { len ≤ N },
}

// By hand: a derived clone would clone each item, and the ghost field allows no more than a copy.
impl<T: Copy, const N: usize> Clone for Table<T, N> {
    ghost is_clone = { λ x y. y ≡ x };

    ghost is_infallible = { λ _. ⊤ };

    fn clone(&self) -> Result<Self, AllocError> {
        Ok(*self)
    }
}

impl<T: Copy, const N: usize> Copy for Table<T, N> {}

// The bytes of a word, a value or a statement.
pub type Text = Table<u8, 255>;

// There is no room for more items.
#[derive(Clone, Copy, PartialEq, Eq, Debug)]
pub struct Full;
