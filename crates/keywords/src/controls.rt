// The control words, by the byte after the ampersand.
ghost use Rattle.std.specs.Prelude.{◌≡◌};
ghost use Rattle.language.specs.Orders.{control_of};
ghost use Rattle.language.specs.Views.{control_seen};
ghost use Rattle.std.specs.Option.{option_map};

use crate::tables::{look_up, telling_byte};
use language::{Control, Order};

// One table for each byte, so that a word is compared only with those that share it.
static IN_A: &[(&[u8], Control)] = &[(b"&ARGS", Control::Obeys(Order::Args))];

static IN_C: &[(&[u8], Control)] = &[
    (b"&CALL", Control::Obeys(Order::Call)),
    (b"&COMMAND", Control::Obeys(Order::Command)),
];

static IN_E: &[(&[u8], Control)] = &[(b"&EXIT", Control::Obeys(Order::Exit))];

static IN_G: &[(&[u8], Control)] = &[(b"&GOTO", Control::Obeys(Order::Goto))];

static IN_I: &[(&[u8], Control)] = &[(b"&IF", Control::If)];

static IN_P: &[(&[u8], Control)] = &[
    (b"&PRESUME", Control::Obeys(Order::Presume)),
    (b"&PRINT", Control::Obeys(Order::Print)),
];

static IN_R: &[(&[u8], Control)] = &[
    (b"&READ", Control::Read),
    (b"&RETURN", Control::Obeys(Order::Return)),
];

static IN_S: &[(&[u8], Control)] = &[
    (b"&SKIP", Control::Obeys(Order::Skip)),
    (b"&STACK", Control::Obeys(Order::Stack)),
    (b"&SUBCOMMAND", Control::Obeys(Order::Subcommand)),
];

static IN_T: &[(&[u8], Control)] = &[
    (b"&TRACE", Control::Obeys(Order::Trace)),
    (b"&TYPE", Control::Obeys(Order::Print)),
];

#[tactic(auto, unfolding(language::specs::Orders::control_of))]
pub fn control_of(word: &[u8]) -> Option<Control>
    ensures { option_map control_seen result ≡ control_of word.now }
{
    match telling_byte(word) {
        b'A' => look_up(IN_A, word),
        b'C' => look_up(IN_C, word),
        b'E' => look_up(IN_E, word),
        b'G' => look_up(IN_G, word),
        b'I' => look_up(IN_I, word),
        b'P' => look_up(IN_P, word),
        b'R' => look_up(IN_R, word),
        b'S' => look_up(IN_S, word),
        b'T' => look_up(IN_T, word),
        _ => None,
    }
}
