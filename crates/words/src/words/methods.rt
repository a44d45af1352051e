// What a list of words can be asked and made to hold.
ghost use Rattle.std.specs.Prelude.{◌≡◌, ◌+◌, ◌≤◌, [], ◌∷◌, ◌++◌, length, take, drop, sum_by, is_ok, if◌then◌else◌, slice_index_or, slice_set};
ghost use Rattle.text.specs.Shorts.{short_bytes};
ghost use Rattle.text.specs.Tables.{held};
ghost use Rattle.text.specs.Words.{words_of};
ghost use Rattle.language.specs.Texts.{behind_blanks, spaced, fits};
ghost use Rattle.words.specs.Listed.{listed};

use super::Words;
use text::{Full, Short, Table, next_word};

// How many bytes words of these lengths take, each behind a blank.
fn size(lengths: &[u8]) -> usize
    requires { length lengths.now ≤ 256 }
    ensures { result ≡ sum_by (λ n. n + 1) lengths.now }
{
    lengths.iter().map(|n| *n as usize + 1).sum()
}

impl Words {
    #[tactic(auto, using(crate::proofs::Listings::no_words))]
    pub fn new() -> Words
        ensures { listed result ≡ [] }
    {
        Words {
            text: Table::new(),
            lengths: Table::new(),
        }
    }

    #[tactic(auto, using(crate::proofs::Listings::count_is))]
    pub fn len(&self) -> usize
        ensures is { result ≡ length (listed self.now) }
        ensures few { result ≤ 256 }
    {
        self.lengths.as_slice().len()
    }

    // Where the blank in front of a word lies; past the last word, the end.
    #[tactic(auto, using(crate::proofs::Listings::starts))]
    fn start(&self, i: usize) -> usize
        ensures is { result ≡ length (behind_blanks (take i (listed self.now))) }
        ensures within { result ≤ length (held self.now.text) }
        ensures few { result ≤ 256 }
    {
        let lengths = self.lengths.as_slice();
        size(&lengths[..i.min(lengths.len())])
    }

    // The words from a place on, each behind its blank; past the last word none is sought.
    #[tactic(auto, using(crate::proofs::Listings::behinds))]
    fn behind(&self, i: usize) -> &[u8]
        ensures is { result.now ≡ behind_blanks (drop i (listed self.now)) }
        ensures within { length result.now ≤ 256 }
    {
        if i >= self.len() {
            return &[];
        }
        &self.text.as_slice()[self.start(i)..]
    }

    // The word at a place; null past the end.
    #[tactic(auto, using(crate::proofs::Listings::gets))]
    pub fn get(&self, i: usize) -> Short<'_>
        ensures { short_bytes result ≡ slice_index_or (listed self.now) i [] }
    {
        let joined = self.joined_from(i).as_slice();
        let n = self.lengths.as_slice().get(i).copied().unwrap_or(0);
        Short::of(&joined[..n as usize])
    }

    // The words from a place on, joined by single blanks.
    pub fn joined_from(&self, i: usize) -> Short<'_>
        ensures { short_bytes result ≡ spaced (drop i (listed self.now)) }
    {
        match self.behind(i) {
            [] => Short::of(b""),
            [_, joined @ ..] => Short::of(joined),
        }
    }

    #[tactic(auto, using(crate::proofs::Listings::pushes))]
    pub fn push(&mut self, word: &[u8]) -> Result<(), Full>
        ensures answer { is_ok result ≡ fits (listed self.old ++ word.now ∷ []) }
        ensures after { listed self.new ≡ (if is_ok result then listed self.old ++ word.now ∷ [] else listed self.old) }
    {
        if word.len() >= 256 - self.text.as_slice().len() {
            return Err(Full);
        }
        let _ = self.text.push(b' ');
        let _ = self.text.append(word);
        let _ = self.lengths.push(word.len() as u8);
        Ok(())
    }

    // Puts a word in place of another; past the end it leaves the list.
    #[tactic(auto, using(crate::proofs::Listings::sets))]
    pub fn set(&mut self, i: usize, word: &[u8]) -> Result<(), Full>
        ensures answer { is_ok result ≡ fits (slice_set (listed self.old) i word.now) }
        ensures after { listed self.new ≡ (if is_ok result then slice_set (listed self.old) i word.now else listed self.old) }
    {
        if i >= self.len() {
            return Ok(());
        }
        let mut text = Table::from_bytes(&self.text.as_slice()[..self.start(i) + 1]);
        text.append(word)?;
        text.append(self.behind(i + 1))?;
        let n = word.len() as u8;
        self.text = text;
        self.lengths.replace(i, n);
        Ok(())
    }

    // The words from a place on.
    #[tactic(auto, using(crate::proofs::Listings::tails))]
    pub fn tail(&self, i: usize) -> Words
        ensures { listed result ≡ drop i (listed self.now) }
    {
        let lengths = self.lengths.as_slice();
        Words {
            text: Table::from_bytes(self.behind(i)),
            lengths: Table::from_bytes(&lengths[i.min(lengths.len())..]),
        }
    }

    // The words of a line; they are no longer than the line. The call that cuts a word hands out what
    // follows it, so no index is counted.
    pub fn of_line(line: Short<'_>) -> Words
        ensures { listed result ≡ words_of (short_bytes line.entry) }
    {
        let mut words = Words::new();
        let mut rest = line.as_slice();
        while let Some((word, after)) = next_word(rest) {
            let _ = words.push(word);
            rest = after;
        }
        words
    }
}
