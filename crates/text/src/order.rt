// Two words compared.
ghost use Rattle.std.specs.Prelude.{◌≡◌, slice_index_or};
ghost use Rattle.text.specs.Order.{padded_order, word_order};

use crate::numbers::number;
use std::cmp::Ordering;

// The byte at a place of a word that blanks follow.
pub fn byte_or_blank(word: &[u8], i: usize) -> u8
    ensures { result ≡ slice_index_or word.now i 32 }
{
    word.get(i).copied().unwrap_or(b' ')
}

fn padded_order(v: &[u8], w: &[u8]) -> Ordering
    ensures { result ≡ padded_order v.now w.now }
{
    let n = v.len().max(w.len());
    let padded_v = (0..n).map(|i| byte_or_blank(v, i));
    let padded_w = (0..n).map(|i| byte_or_blank(w, i));
    padded_v.cmp(padded_w)
}

// By value where both words are numeric; otherwise the shorter is padded with blanks and byte
// values decide.
pub fn compare_words(v: &[u8], w: &[u8]) -> Ordering
    ensures { result ≡ word_order v.now w.now }
{
    let Some(a) = number(v) else {
        return padded_order(v, w);
    };
    let Some(b) = number(w) else {
        return padded_order(v, w);
    };
    a.cmp(&b)
}
