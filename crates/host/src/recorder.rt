// A host that keeps what is issued to another.
use std::alloc::Global;

pub(crate) mod methods;

// A pair that a host received, and the code that it answered.
#[derive(Drop)]
pub struct Issued {
    pub environment: Vec<u8>,
    pub command: Vec<u8>,
    pub code: i32,
}

// Every pair goes to the host within. Once memory fails, no more is kept and `complete` is false;
// what is kept by then stays to be read, so it is no Option.
#[derive(Drop)]
pub struct Recorder<H> {
    pub host: H,
    pub issued: Vec<Issued>,
    pub complete: bool,
    heap: Global,
}
