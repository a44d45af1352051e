// The number of an argument: digits without a leading zero, however many.
ghost use Rattle.std.specs.Prelude.{◌≡◌, drop};
ghost use Rattle.keywords.specs.Arguments.{capped_index};
ghost use Rattle.language.specs.Names.{index_of};
ghost use Rattle.text.specs.Numbers.{digits_after};

// Larger numbers are not told apart: no list of arguments has as many.
const LARGEST: usize = 1000000;

// The number that digits write; 0 for none. The reader of numeric words differs: to it, digits
// beyond its range are no number.
fn number(digits: &[u8]) -> Option<usize>
    ensures { result ≡ capped_index (digits_after 0 digits.now) }
{
    let mut n: usize = 0;
    for b in digits {
        if !b.is_ascii_digit() {
            return None;
        }
        n = (n * 10 + usize::from(*b - b'0')).min(LARGEST);
    }
    Some(n)
}

// The number of the argument that a name stands for; the ampersand goes first.
pub(crate) fn index(name: &[u8]) -> Option<usize>
    ensures { result ≡ capped_index (index_of (drop 1 name.now)) }
{
    match name.get(1..)? {
        [] | [b'0', ..] => None,
        digits => number(digits),
    }
}
