// How a short slice is made and read.
ghost use Rattle.std.specs.Prelude.{◌≡◌, ◌≤◌, length};
ghost use Rattle.text.specs.Shorts.{short_bytes};
ghost use Rattle.text.specs.Tables.{held};

use super::Short;
use crate::table::Text;

impl<'a> Short<'a> {
    // For bytes that are known to be few.
    pub fn of(bytes: &'a [u8]) -> Short<'a>
        requires { length bytes.now ≤ 255 }
        ensures { short_bytes result ≡ bytes.now }
    {
        Short { bytes }
    }

    pub fn as_slice(&self) -> &'a [u8]
        ensures is { result.now ≡ short_bytes self.now }
        ensures short { length result.now ≤ 255 }
    {
        self.bytes
    }
}

impl Text {
    pub fn as_short(&self) -> Short<'_>
        ensures { short_bytes result ≡ held self.now }
    {
        Short::of(self.as_slice())
    }

    // The text that holds the bytes of a short slice.
    pub fn from_short(short: Short<'_>) -> Text
        ensures { held result ≡ short_bytes short.entry }
    {
        Text::from_bytes(short.as_slice())
    }

    // Holds the bytes of a short slice in place of what it held.
    pub fn set_short(&mut self, short: Short<'_>)
        ensures { held self.new ≡ short_bytes short.entry }
    {
        let _ = self.set(short.as_slice());
    }
}
