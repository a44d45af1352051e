// What a table can be asked and made to hold.
ghost use Rattle.std.specs.Prelude.{◌≡◌, ◌+◌, ◌<◌, ◌≤◌, [], ◌∷◌, ◌++◌, length, is_ok, if◌then◌else◌, nat_le, slice_set, MatchOption};
ghost use Rattle.std.specs.List.{remove};
ghost use Rattle.text.specs.Tables.{held};

use super::{Full, Table};

impl<T: Copy, const N: usize> Table<T, N> {
    // A table that holds nothing; its array is filled with `blank`.
    pub fn empty(blank: T) -> Self
        ensures { held result ≡ [] }
    {
        Table {
            items: [blank; N],
            len: 0,
        }
    }

    pub fn as_slice(&self) -> &[T]
        ensures is { result.now ≡ held self.now }
        ensures short { length result.now ≤ N }
    {
        let items = &self.items[..];
        &items[..self.len]
    }

    pub fn clear(&mut self)
        ensures { held self.new ≡ [] }
    {
        self.len = 0;
    }

    // Holds `from` in place of what it held, unless that is too long.
    pub fn set(&mut self, from: &[T]) -> Result<(), Full>
        ensures answer { is_ok result ≡ nat_le (length from.now) N }
        ensures after { held self.new ≡ (if is_ok result then from.now else held self.old) }
    {
        if from.len() > N {
            return Err(Full);
        }
        self.clear();
        self.append(from)
    }

    pub fn append(&mut self, more: &[T]) -> Result<(), Full>
        ensures answer { is_ok result ≡ nat_le (length (held self.old) + length more.now) N }
        ensures after { held self.new ≡ (if is_ok result then held self.old ++ more.now else held self.old) }
    {
        let n = more.len();
        let at = self.len;
        if n > N - at {
            return Err(Full);
        }
        let items = &mut self.items[..];
        items[at..at + n].copy_from_slice(more);
        self.len = at + n;
        Ok(())
    }

    pub fn push(&mut self, item: T) -> Result<(), Full>
        ensures answer { is_ok result ≡ nat_le (length (held self.old) + 1) N }
        ensures after { held self.new ≡ (if is_ok result then held self.old ++ item ∷ [] else held self.old) }
    {
        let at = self.len;
        if at >= N {
            return Err(Full);
        }
        self.items[at] = item;
        self.len = at + 1;
        Ok(())
    }

    // Takes the last item out; none where there is none.
    pub fn pop(&mut self) -> Option<T>
        ensures { MatchOption result ((held self.old ≡ []) × (self.new ≡ self.old)) (λ item. held self.old ≡ held self.new ++ item ∷ []) }
    {
        if self.len == 0 {
            return None;
        }
        self.len -= 1;
        Some(self.items[self.len])
    }

    // Puts an item in the place of another.
    pub fn replace(&mut self, i: usize, item: T)
        requires { i < length (held self.old) }
        ensures { held self.new ≡ slice_set (held self.old) i item }
    {
        self.items[i] = item;
    }

    // Takes out the item at `i`; those behind it move up.
    pub fn remove(&mut self, i: usize)
        requires { i < length (held self.old) }
        ensures { held self.new ≡ remove (held self.old) i }
    {
        let items = &mut self.items[..];
        items[i..self.len].rotate_left(1);
        self.len -= 1;
    }
}
