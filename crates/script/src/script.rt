// A checked script: its bytes, and the directory that it was lent.
ghost use Rattle.std.specs.Prelude.{◌≡◌, true};
ghost use Rattle.script.specs.Scripts.{sound};

use crate::line::Line;

mod methods;

// Only Check fills one, so that no script breaks the rules.
#[derive(Clone, Copy)]
pub struct Script<'b, 'd> {
    bytes: &'b [u8],
    lines: &'d [Line],
    // The records of the directory behind those of its lines: the caller's own, which Check leaves.
    beyond: &'d [Line],
    ghost checked: { sound bytes.now lines.now ≡ true },
}
