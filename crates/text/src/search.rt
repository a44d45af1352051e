// The one search: the first record of a table that bears a name.
ghost use Rattle.std.specs.Prelude.{◌≡◌, ℕ, ◌<◌, Bool, List, length, IfSome};
ghost use Rattle.text.specs.Search.{first_from, first_round};

// A record that can be asked whether it bears a name. The bytes that it may point into are lent
// to the question.
pub trait Named {
    ghost named: { Self → List ℕ → List ℕ → Bool };

    fn bears(&self, bytes: &[u8], name: &[u8]) -> bool
        ensures { result ≡ named self.now bytes.now name.now };
}

// The place of the first record that bears `name`.
pub fn find_first<R: Named>(records: &[R], bytes: &[u8], name: &[u8]) -> Option<usize>
    ensures is { result ≡ first_from (λ x. R.Named.named x bytes.now name.now) 0 records.now }
    ensures within { IfSome result (λ i. i < length records.now) }
{
    records.iter().position(|record| record.bears(bytes, name))
}

// The place of the first record that bears `name`, from the place `from` to the end and then
// from the start round to it again.
pub fn find<R: Named>(records: &[R], from: usize, bytes: &[u8], name: &[u8]) -> Option<usize>
    ensures is { result ≡ first_round (λ x. R.Named.named x bytes.now name.now) from records.now }
    ensures within { IfSome result (λ i. i < length records.now) }
{
    let (before, behind) = records.split_at(from.min(records.len()));
    match find_first(behind, bytes, name) {
        Some(i) => Some(before.len() + i),
        None => find_first(before, bytes, name),
    }
}
