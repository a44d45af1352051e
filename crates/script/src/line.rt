// A record of the directory: where a line stands.
pub(crate) mod methods;

#[derive(Clone, Copy, PartialEq, Eq, Default, Debug)]
pub struct Line {
    pub offset: u16,
    pub length: u8,
}
