// What a statement is, told by its first words.
use language::Order;
use substitution::{Scratch, Word, Written};

// The words are those that follow, or for a misplaced mark all of them. The first word of an order
// or a command has its names replaced; a target stands as written.
#[derive(Clone, Copy)]
pub enum Lead<'a> {
    // Nothing is done: no words, null ones only, or a clause that does not hold.
    Nothing,
    // A comment or a label where none may stand.
    Misplaced(Written<'a>),
    // A target, and the right side.
    Assigns(Word<'a>, Written<'a>),
    Reads(Written<'a>),
    Obeys(Order, Scratch, Written<'a>),
    // No control word: a command, unless it has an ampersand.
    Commands(Scratch, Written<'a>),
}
