// The words of the smaller tables: functions, comparatives and what &READ fills.
ghost use Rattle.std.specs.Prelude.{◌≡◌};
ghost use Rattle.language.specs.Conditions.{comparative_of};
ghost use Rattle.language.specs.Functions.{function_of};
ghost use Rattle.language.specs.Reads.{manner_of};
ghost use Rattle.language.specs.Views.{function_seen, comparative_seen, manner_seen};
ghost use Rattle.std.specs.Option.{option_map};

use crate::tables::look_up;
use language::{Comparative, Function, Manner};

static FUNCTIONS: &[(&[u8], Function)] = &[
    (b"&CONCAT", Function::Concat),
    (b"&CONCATENATION", Function::Concat),
    (b"&LENGTH", Function::Length),
    (b"&TRANS", Function::Trans),
    (b"&TRANSLATION", Function::Trans),
    (b"&TRIM", Function::Trim),
    (b"&WORD", Function::Word),
];

pub fn function_of(word: &[u8]) -> Option<Function>
    ensures { option_map function_seen result ≡ function_of word.now }
{
    look_up(FUNCTIONS, word)
}

// This and the next are a match and no table, so that the spellings of one value stand in one arm.
#[tactic(auto, unfolding(language::specs::Conditions::comparative_of))]
pub fn comparative_of(word: &[u8]) -> Option<Comparative>
    ensures { option_map comparative_seen result ≡ comparative_of word.now }
{
    match word {
        b"=" | b"EQ" => Some(Comparative::Equal),
        b"^=" | b"NE" => Some(Comparative::Unequal),
        b"<" | b"LT" => Some(Comparative::Less),
        b"^<" | b"NL" | b">=" | b"GE" => Some(Comparative::NotLess),
        b">" | b"GT" => Some(Comparative::More),
        b"^>" | b"NG" | b"<=" | b"LE" => Some(Comparative::NotMore),
        _ => None,
    }
}

#[tactic(auto, unfolding(language::specs::Reads::manner_of))]
pub fn manner_of(word: &[u8]) -> Option<Manner>
    ensures { option_map manner_seen result ≡ manner_of word.now }
{
    match word {
        b"ARGS" => Some(Manner::Args),
        b"STRING" => Some(Manner::String),
        b"VARS" | b"VAR" => Some(Manner::Vars),
        _ => None,
    }
}
