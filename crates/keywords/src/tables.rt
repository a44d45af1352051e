// Tables of the names that the language knows, looked up.
ghost use Rattle.std.specs.Prelude.{◌≡◌};
ghost use Rattle.keywords.specs.Tables.{telling, listed};
ghost use Rattle.language.specs.Texts.{tabled};

// The byte after the ampersand, which tells most names apart; 0 where there is none.
pub(crate) fn telling_byte(name: &[u8]) -> u8
    ensures { result ≡ telling name.now }
{
    name.get(1).copied().unwrap_or(0)
}

// What the first entry of a name gives; inlined, so that the names of a known table are compared as constants.
#[inline(always)]
pub(crate) fn look_up<K: Copy>(table: &[(&[u8], K)], name: &[u8]) -> Option<K>
    ensures { result ≡ tabled (listed table.now) name.now }
{
    table
        .iter()
        .find(|entry| entry.0 == name)
        .map(|entry| entry.1)
}
