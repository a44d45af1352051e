// The name of an environment, by which a switch knows its pairs.
ghost use Rattle.std.specs.Prelude.{◌≡◌, true};
ghost use Rattle.text.specs.Tables.{held};
ghost use Rattle.host.specs.Names.{is_name};

use text::Table;

mod methods;

// One to eight bytes from 33 to 126.
#[derive(Clone, Copy)]
pub struct Name {
    text: Table<u8, 8>,
    ghost valid: { is_name (held text) ≡ true },
}
