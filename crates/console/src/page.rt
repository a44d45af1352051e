// What the program writes, put together.
ghost use Rattle.std.specs.Prelude.{◌≡◌, [], ◌∷◌, ◌++◌, codes, IfSome, OnOk};
ghost use Rattle.console.specs.Pages.{page_text, Adds};

use std::alloc::{AllocError, Global};
use std::fmt;
use std::fmt::Display;

// The bytes that are there so far. Text comes onto it by `write!`, and bytes of any kind by `push`.
#[derive(Drop)]
pub(crate) struct Page {
    bytes: Vec<u8>,
}

impl Page {
    pub(crate) fn new(heap: Global) -> Page
        ensures { page_text result ≡ [] }
    {
        Page {
            bytes: Vec::new(heap),
        }
    }

    pub(crate) fn push(&mut self, more: &[u8]) -> Result<(), AllocError>
        ensures { OnOk result (Adds self.old self.new more.now) }
    {
        self.bytes.extend_from_slice(more)
    }

    // What `write!` and `writeln!` call. Only memory can fail.
    pub(crate) fn write_fmt<D: Display + Drop>(&mut self, text: D) -> Result<(), AllocError>
        ensures { OnOk result (IfSome (D.output text) (Adds self.old self.new)) }
    {
        match fmt::Write::write(self, text) {
            Ok(()) => Ok(()),
            Err(_) => Err(AllocError),
        }
    }

    pub(crate) fn into_bytes(self) -> Vec<u8>
        ensures { result.items ≡ page_text self }
    {
        self.bytes
    }
}

// Text is written straight onto the page, with no string in between.
impl fmt::Write for Page {
    ghost write_str_gives = { λ old text new. Adds old new text };

    fn write_str(&mut self, text: &str) -> fmt::Result {
        self.push(text.as_bytes()).map_err(|_| fmt::Error)
    }
}
