// Why a run came to its end.
#[derive(Clone, Copy, PartialEq, Eq, Debug)]
pub enum Reason {
    Ended,
    Spent,
    Waiting,
    Full,
}
