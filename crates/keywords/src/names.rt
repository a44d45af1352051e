// What a name stands for.
ghost use Rattle.std.specs.Prelude.{◌≡◌};
ghost use Rattle.keywords.specs.Arguments.{capped_kind};
ghost use Rattle.language.specs.Names.{kind_of};
ghost use Rattle.language.specs.Views.{kind_seen};

use crate::arguments::index;
use crate::kinds::known;
use language::Kind;

// A number of an argument above 1,000,000 is given as that.
pub fn kind_of(name: &[u8]) -> Kind
    ensures { kind_seen result ≡ capped_kind (kind_of name.now) }
{
    known(name).unwrap_or_else(|| index(name).map_or(Kind::Ordinary, Kind::Argument))
}
