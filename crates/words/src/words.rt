// A list of words, null ones too, that joined by single blanks has at most 255 bytes.
ghost use Rattle.std.specs.Prelude.{◌≡◌, true};
ghost use Rattle.text.specs.Tables.{held};
ghost use Rattle.words.specs.Layout.{laid};

use text::Table;

mod methods;

// Each word lies behind a blank, so that what is joined from a word on is one slice. The lengths
// tell no word from one null word.
#[derive(Clone, Copy)]
pub struct Words {
    text: Table<u8, 256>,
    lengths: Table<u8, 256>,
    ghost whole: { laid (held lengths) (held text) ≡ true },
}
