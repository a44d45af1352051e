// The value of a name, as it is kept.
use text::Short;

// What stands for the value: bytes that are kept somewhere, or what the value is written from.
#[derive(Clone, Copy)]
pub enum Value<'a> {
    Bytes(Short<'a>),
    // The name itself.
    Own,
    Count(u64),
    Code(i32),
    // The name is not carried: a case like the others, since the one reader tells all of them apart.
    Absent,
}
