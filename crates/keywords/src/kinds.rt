// What the names that the language knows stand for, by the byte after the ampersand.
ghost use Rattle.std.specs.Prelude.{◌≡◌};
ghost use Rattle.language.specs.Names.{known_names};
ghost use Rattle.language.specs.Texts.{tabled};
ghost use Rattle.language.specs.Views.{kind_seen};
ghost use Rattle.std.specs.Option.{option_map};

use crate::tables::{look_up, telling_byte};
use language::{KeptName, Kind};

// One table for each byte, so that a name is compared only with those that share it.
static ALONE: &[(&[u8], Kind)] = &[(b"&", Kind::Kept(KeptName::Ampersand))];

static IN_0: &[(&[u8], Kind)] = &[(b"&0", Kind::Absent)];

static IN_A: &[(&[u8], Kind)] = &[
    (b"&ARGSTRING", Kind::Kept(KeptName::ArgumentString)),
    (b"&ARGS", Kind::Own),
];

static IN_B: &[(&[u8], Kind)] = &[
    (b"&BLANK", Kind::Kept(KeptName::Blank)),
    (b"&BEGPRINT", Kind::Own),
    (b"&BEGSTACK", Kind::Own),
    (b"&BEGTYPE", Kind::Own),
    (b"&BUFFER", Kind::Own),
];

static IN_C: &[(&[u8], Kind)] = &[
    (b"&COLINE", Kind::Kept(KeptName::CommandLine)),
    (b"&CALL", Kind::Own),
    (b"&CASE", Kind::Own),
    (b"&COMMAND", Kind::Own),
    (b"&CONCAT", Kind::Own),
    (b"&CONCATENATION", Kind::Own),
];

static IN_D: &[(&[u8], Kind)] = &[
    (b"&DEPTH", Kind::Kept(KeptName::Depth)),
    (b"&DUMP", Kind::Own),
    (b"&DATE", Kind::Absent),
];

static IN_E: &[(&[u8], Kind)] = &[(b"&ERROR", Kind::Own), (b"&EXIT", Kind::Own)];

static IN_F: &[(&[u8], Kind)] = &[
    (b"&FROM", Kind::Kept(KeptName::From)),
    (b"&FILEMODE", Kind::Absent),
    (b"&FILENAME", Kind::Absent),
    (b"&FILETYPE", Kind::Absent),
];

static IN_G: &[(&[u8], Kind)] = &[(b"&GOTO", Kind::Own)];

static IN_I: &[(&[u8], Kind)] = &[
    (b"&INDEX", Kind::Kept(KeptName::Count)),
    (b"&IF", Kind::Own),
];

static IN_L: &[(&[u8], Kind)] = &[
    (b"&LINE", Kind::Kept(KeptName::Place)),
    (b"&LINENUM", Kind::Kept(KeptName::Place)),
    (b"&LINK", Kind::Kept(KeptName::Link)),
    (b"&LOOP", Kind::Own),
    (b"&LENGTH", Kind::Own),
];

static IN_N: &[(&[u8], Kind)] = &[(b"&N", Kind::Kept(KeptName::Count))];

static IN_P: &[(&[u8], Kind)] = &[(b"&PRESUME", Kind::Own), (b"&PRINT", Kind::Own)];

static IN_R: &[(&[u8], Kind)] = &[
    (b"&RC", Kind::Kept(KeptName::Code)),
    (b"&RETCODE", Kind::Kept(KeptName::Code)),
    (b"&READ", Kind::Own),
    (b"&RETURN", Kind::Own),
];

static IN_S: &[(&[u8], Kind)] = &[
    (b"&SKIP", Kind::Own),
    (b"&STACK", Kind::Own),
    (b"&SUBCOMMAND", Kind::Own),
];

static IN_T: &[(&[u8], Kind)] = &[
    (b"&TRACE", Kind::Own),
    (b"&TRUNC", Kind::Own),
    (b"&TYPE", Kind::Own),
    (b"&TRANS", Kind::Own),
    (b"&TRANSLATION", Kind::Own),
    (b"&TRIM", Kind::Own),
    (b"&TIME", Kind::Absent),
];

static IN_U: &[(&[u8], Kind)] = &[(b"&UPPER", Kind::Own)];

static IN_W: &[(&[u8], Kind)] = &[(b"&WORD", Kind::Own)];

pub(crate) fn known(name: &[u8]) -> Option<Kind>
    ensures { option_map kind_seen result ≡ tabled known_names name.now }
{
    match telling_byte(name) {
        0 => look_up(ALONE, name),
        b'0' => look_up(IN_0, name),
        b'A' => look_up(IN_A, name),
        b'B' => look_up(IN_B, name),
        b'C' => look_up(IN_C, name),
        b'D' => look_up(IN_D, name),
        b'E' => look_up(IN_E, name),
        b'F' => look_up(IN_F, name),
        b'G' => look_up(IN_G, name),
        b'I' => look_up(IN_I, name),
        b'L' => look_up(IN_L, name),
        b'N' => look_up(IN_N, name),
        b'P' => look_up(IN_P, name),
        b'R' => look_up(IN_R, name),
        b'S' => look_up(IN_S, name),
        b'T' => look_up(IN_T, name),
        b'U' => look_up(IN_U, name),
        b'W' => look_up(IN_W, name),
        _ => None,
    }
}
