// The words of a statement, gathered one at a time.
ghost use Rattle.std.specs.Prelude.{◌≡◌, [], Some};
ghost use Rattle.substitution.specs.Gathering.{gathering, grown, grown_by};

use words::Words;

// The words so far; none once they no longer fit, and no more are taken.
#[derive(Clone, Copy)]
pub struct Gathered {
    pub words: Option<Words>,
}

impl Gathered {
    pub fn new() -> Gathered
        ensures { gathering result ≡ Some [] }
    {
        Gathered {
            words: Some(Words::new()),
        }
    }

    pub fn take(&mut self, word: &[u8])
        ensures { gathering self.new ≡ grown (gathering self.old) word.now }
    {
        if let Some(words) = &mut self.words {
            if words.push(word).is_err() {
                self.words = None;
            }
        }
    }

    pub(crate) fn take_unless_null(&mut self, word: &[u8])
        ensures { gathering self.new ≡ grown_by (gathering self.old) word.now }
    {
        if !word.is_empty() {
            self.take(word);
        }
    }
}
