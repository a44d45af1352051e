// What the first character of a word says of it.
ghost use Rattle.std.specs.Prelude.{◌≡◌};
ghost use Rattle.language.specs.Marks.{mark_of};

#[derive(Clone, Copy)]
pub enum Mark {
    // An asterisk: a comment.
    Comment,
    // A hyphen.
    Label,
    // An ampersand.
    Name,
    Plain,
}

pub fn mark_of(word: &[u8]) -> Mark
    ensures { result ≡ mark_of word.now }
{
    match word {
        [] => Mark::Plain,
        [first, ..] => match *first as char {
            '*' => Mark::Comment,
            '-' => Mark::Label,
            '&' => Mark::Name,
            _ => Mark::Plain,
        },
    }
}
