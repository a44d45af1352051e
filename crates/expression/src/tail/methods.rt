// How the words of a tail are read: one at a time, or by their place.
#![tactic(auto, using(std::proofs::lemmas::Grind::common_steps, std::proofs::lemmas::List::drop_min), unfolding(crate::specs::Tails::words_in))]

ghost use Rattle.std.specs.Prelude.{◌≡◌, ◌≤◌, [], length, drop, slice_index_or};
ghost use Rattle.std.specs.Iterator.{YieldsFirstBy, item_count};
ghost use Rattle.words.specs.Listed.{listed};
ghost use Rattle.text.specs.Shorts.{short_bytes};
ghost use Rattle.expression.specs.Tails.{words_in};

use super::Tail;
use text::Short;
use words::Words;

impl<'a> Tail<'a> {
    pub(crate) fn new(words: &'a Words, at: usize) -> Tail<'a>
        ensures { words_in result ≡ drop at (listed words.now) }
    {
        Tail {
            words,
            at: at.min(words.len()),
        }
    }

    pub(crate) fn len(&self) -> usize
        ensures is { result ≡ length (words_in self.now) }
        ensures few { result ≤ 256 }
    {
        self.words.len() - self.at
    }

    // The word at a place among these; null past the end.
    pub(crate) fn get(&self, k: usize) -> Short<'a>
        ensures { short_bytes result ≡ slice_index_or (words_in self.now) k [] }
    {
        if k >= self.len() {
            return Short::of(&[]);
        }
        self.words.get(self.at + k)
    }

    // The words behind the first `k`.
    pub(crate) fn behind(&self, k: usize) -> Tail<'a>
        ensures { words_in result ≡ drop k (words_in self.now) }
    {
        Tail::new(self.words, self.at + k.min(self.len()))
    }
}

impl<'a> Iterator for Tail<'a> {
    type Item = Short<'a>;

    ghost next_gives = { YieldsFirstBy short_bytes words_in };

    ghost remaining = { item_count words_in };

    fn next(&mut self) -> Option<Short<'a>> {
        if self.at >= self.words.len() {
            return None;
        }
        let word = self.get(0);
        self.at += 1;
        Some(word)
    }
}
