// Why a function makes no text of its words.
ghost use Rattle.std.specs.Prelude.{◌≡◌};
ghost use Rattle.expression.specs.Calls.{fault_of};

use language::StatementFault;

#[derive(Clone, Copy, PartialEq, Eq, Debug)]
pub(crate) enum CallFault {
    WrongWord,
    UnknownFunction,
}

impl From<CallFault> for StatementFault {
    ghost from_gives = { λ f r. r ≡ fault_of f };

    fn from(fault: CallFault) -> StatementFault {
        match fault {
            CallFault::WrongWord => StatementFault::WrongWord,
            CallFault::UnknownFunction => StatementFault::UnknownFunction,
        }
    }
}
