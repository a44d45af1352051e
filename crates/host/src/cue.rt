// A host with a list of codes.
#[derive(Clone, Copy)]
pub struct Cue<'a> {
    // The codes that are not given yet.
    codes: &'a [i32],
}

pub(crate) mod methods;
