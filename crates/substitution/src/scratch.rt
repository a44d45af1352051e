// A word while the names in it are replaced: a text of at most 255 bytes that grows to the left.
ghost use Rattle.std.specs.Prelude.{◌≡◌, ◌≤◌, length};

mod methods;

// The text is the last `len` bytes of an array: a text lies in fixed memory, and none is allocated.
#[derive(Clone, Copy)]
pub struct Scratch {
    bytes: [u8; 255],
    len: usize,
    ghost whole: { length bytes ≡ 255 },
    ghost fits: { len ≤ 255 },
}
