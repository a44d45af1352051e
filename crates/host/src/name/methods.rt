// How a name is filled and read.
ghost use Rattle.std.specs.Prelude.{◌≡◌, codes};
ghost use Rattle.host.specs.Names.{is_name, name_refusal};
ghost use Rattle.host.specs.Refusals.{refused_with};
ghost use Rattle.host.specs.Hosts.{name_of, NameLeft};

use super::Name;
use crate::refusal::Refusal;
use text::{Table, all_within};

fn is_name(bytes: &[u8]) -> bool
    ensures { result ≡ is_name bytes.now }
{
    1 <= bytes.len() && bytes.len() <= 8 && all_within(bytes, 33, 126)
}

impl Name {
    // The name `MAP`.
    pub fn new() -> Name
        ensures { name_of result ≡ codes "MAP" }
    {
        Name {
            text: Table::from_bytes(b"MAP"),
        }
    }

    // Takes one to eight bytes from 33 to 126 for the name; refuses all else, and stays as it was.
    pub fn set(&mut self, bytes: &[u8]) -> Result<(), Refusal>
        ensures answer { refused_with result ≡ name_refusal bytes.now }
        ensures after { NameLeft self.old bytes.now result self.new }
    {
        if !is_name(bytes) {
            return Err(Refusal::NotAName);
        }
        *self = Name {
            text: Table::from_bytes(bytes),
        };
        Ok(())
    }

    pub fn as_bytes(&self) -> &[u8]
        ensures { result.now ≡ name_of self.now }
    {
        self.text.as_slice()
    }
}
