// The functions of the language that change a text.
ghost use Rattle.std.specs.Prelude.{◌≡◌, nat_eq};
ghost use Rattle.language.specs.Functions.{trimmed, exchanged_at, translated};
ghost use Rattle.text.specs.Tables.{held};
ghost use Rattle.text.specs.Search.{first_from};

use text::{Text, byte_or_blank};

// A text without the blanks at its end.
pub fn trim(text: &[u8]) -> &[u8]
    ensures { result.now ≡ trimmed text.now }
{
    let blanks = text.iter().rev().take_while(|b| **b == b' ').count();
    &text[..text.len() - blanks]
}

fn exchanged(b: u8, from: &[u8], to: &[u8]) -> u8
    ensures { result ≡ exchanged_at to.now b (first_from (λ x. nat_eq x b) 0 from.now) }
{
    from.iter()
        .position(|x| *x == b)
        .map_or(b, |i| byte_or_blank(to, i))
}

// Each byte of a text that stands in `from` becomes the byte at its first place there in `to`, or a blank.
pub fn translate(text: &mut Text, from: &[u8], to: &[u8])
    ensures { held text.new ≡ translated (held text.old) from.now to.now }
{
    // It has room for each byte, as the text had.
    let mut made = Text::new();
    for b in text.as_slice() {
        let _ = made.push(exchanged(*b, from, to));
    }
    *text = made;
}
