// An order as it is written.
ghost use Rattle.std.specs.Prelude.{◌≡◌};
ghost use Rattle.std.specs.Option.{option_map};
ghost use Rattle.text.specs.Tables.{held};
ghost use Rattle.text.specs.Words.{words_of};
ghost use Rattle.map.specs.Orders.{square_of, order_by, order_of};
ghost use Rattle.map.specs.Written.{order_seen};

use text::{Table, next_word, number};

// A piece, and the row and column that it is to stand on: numbers as written, which need be no
// square.
#[derive(Clone, Copy)]
pub(crate) enum Order {
    Place(Table<u8, 8>, i32, i32),
    Move(Table<u8, 8>, i32, i32),
    Take(Table<u8, 8>),
}

// Two numeric words and no more: row and column.
fn square(words: &[u8]) -> Option<(i32, i32)>
    ensures { result ≡ square_of (words_of words.now) }
{
    let (row, rest) = next_word(words)?;
    let (column, rest) = next_word(rest)?;
    if next_word(rest).is_some() {
        return None;
    }
    Some((number(row)?, number(column)?))
}

// What a verb and a piece ask for, with the words that follow.
fn order_by(verb: &[u8], piece: Table<u8, 8>, rest: &[u8]) -> Option<Order>
    ensures { option_map order_seen result ≡ order_by verb.now (held piece) (words_of rest.now) }
{
    match verb {
        b"PLACE" => {
            let (row, column) = square(rest)?;
            Some(Order::Place(piece, row, column))
        }
        b"MOVE" => {
            let (row, column) = square(rest)?;
            Some(Order::Move(piece, row, column))
        }
        b"TAKE" if next_word(rest).is_none() => Some(Order::Take(piece)),
        _ => None,
    }
}

// The order that a command writes; none where it is malformed.
pub(crate) fn read_order(command: &[u8]) -> Option<Order>
    ensures { option_map order_seen result ≡ order_of (words_of command.now) }
{
    let (verb, rest) = next_word(command)?;
    let (piece, rest) = next_word(rest)?;
    order_by(verb, Table::from_slice(piece)?, rest)
}
