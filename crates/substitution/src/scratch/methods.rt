// What a scratch text can be asked and made to hold.
ghost use Rattle.std.specs.Prelude.{◌≡◌, ◌<◌, ◌≤◌, [], ◌∷◌, length};
ghost use Rattle.text.specs.Shorts.{short_bytes};
ghost use Rattle.substitution.specs.Scratches.{scratch_held};

use super::Scratch;
use text::Short;

impl Scratch {
    pub fn new() -> Scratch
        ensures { scratch_held result ≡ [] }
    {
        Scratch {
            bytes: [0u8; 255],
            len: 0,
        }
    }

    // A slice with its bound as a clause, since those who read it want the slice.
    pub fn as_bytes(&self) -> &[u8]
        ensures is { result.now ≡ scratch_held self.now }
        ensures short { length result.now ≤ 255 }
    {
        &self.bytes[255 - self.len..]
    }

    pub(crate) fn set(&mut self, text: Short)
        ensures { scratch_held self.new ≡ short_bytes text.entry }
    {
        let text = text.as_slice();
        self.len = text.len();
        self.bytes[255 - self.len..].copy_from_slice(text);
    }

    // One byte more in front.
    pub(crate) fn prepend(&mut self, b: u8)
        requires { length (scratch_held self.old) < 255 }
        ensures { scratch_held self.new ≡ b ∷ scratch_held self.old }
    {
        self.len += 1;
        self.bytes[255 - self.len] = b;
    }
}
