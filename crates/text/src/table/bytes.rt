// What tables of bytes can be asked beside.
ghost use Rattle.std.specs.Prelude.{◌≡◌, ◌≤◌, [], map, length, if◌then◌else◌, Some, None, nat_le};
ghost use Rattle.std.specs.Char.{to_ascii_uppercase};
ghost use Rattle.std.specs.Option.{option_map};
ghost use Rattle.text.specs.Tables.{held};

use super::{Table, Text};
use itoa::{Buffer, Integer};

impl<const N: usize> Table<u8, N> {
    pub fn new() -> Self
        ensures { held result ≡ [] }
    {
        Table::empty(0)
    }

    // The table that holds `bytes`; none where they are too many.
    pub fn from_slice(bytes: &[u8]) -> Option<Self>
        ensures { option_map held result ≡ (if nat_le (length bytes.now) N then Some bytes.now else None) }
    {
        let mut table = Table::new();
        table.set(bytes).ok()?;
        Some(table)
    }

    pub fn from_bytes(bytes: &[u8]) -> Self
        requires { length bytes.now ≤ N }
        ensures { held result ≡ bytes.now }
    {
        let mut table = Table::new();
        let _ = table.set(bytes);
        table
    }

    // Letters a to z become A to Z.
    pub fn make_uppercase(&mut self)
        ensures { held self.new ≡ map to_ascii_uppercase (held self.old) }
    {
        let items = &mut self.items[..];
        items[0..self.len].make_ascii_uppercase();
    }
}

impl Text {
    // A number as it is written: no plus sign and no leading zeros.
    pub fn from_number<I: Integer>(n: I) -> Text
        ensures { held result ≡ I.text n }
    {
        let mut buffer = Buffer::new();
        Text::from_bytes(buffer.format(n).as_bytes())
    }
}
