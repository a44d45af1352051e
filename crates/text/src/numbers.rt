// Numeric words read.
ghost use Rattle.std.specs.Prelude.{◌≡◌, ◌≤◌, IfSome, Some};
ghost use Rattle.text.specs.Numbers.{negative, after_sign, magnitude_of, capped, signed_by, ranged, number_of};

fn starts_with_minus(word: &[u8]) -> bool
    ensures { result ≡ negative word.now }
{
    matches!(word, [b'-', ..])
}

fn after_sign(word: &[u8]) -> &[u8]
    ensures { result.now ≡ after_sign word.now }
{
    match word {
        [b'+' | b'-', rest @ ..] => rest,
        _ => word,
    }
}

// The number that one or more digits write, where it is at most 2,147,483,648.
fn magnitude(digits: &[u8]) -> Option<u64>
    ensures is { result ≡ capped (magnitude_of digits.now) }
    ensures small { IfSome result (λ n. n ≤ 2147483648) }
{
    if digits.is_empty() {
        return None;
    }
    let mut n: u64 = 0;
    for b in digits {
        if !b.is_ascii_digit() {
            return None;
        }
        n = n * 10 + (*b - b'0') as u64;
        if n > 2147483648 {
            return None;
        }
    }
    Some(n)
}

fn with_sign(minus: bool, n: u64) -> Option<i32>
    requires { n ≤ 2147483648 }
    ensures { result ≡ ranged (signed_by minus (Some n)) }
{
    let z = n as i64;
    i32::try_from(if minus { -z } else { z }).ok()
}

// The value of a numeric word: one or more digits after at most one sign, within 32 bits.
pub fn number(word: &[u8]) -> Option<i32>
    ensures { result ≡ number_of word.now }
{
    let n = magnitude(after_sign(word))?;
    with_sign(starts_with_minus(word), n)
}
