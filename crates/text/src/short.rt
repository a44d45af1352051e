// A slice of at most 255 bytes: what a word, a name or a value may be.
ghost use Rattle.std.specs.Prelude.{◌≤◌, length};

mod methods;

#[derive(Clone, Copy)]
pub struct Short<'a> {
    bytes: &'a [u8],
    ghost short: { length bytes.now ≤ 255 },
}
