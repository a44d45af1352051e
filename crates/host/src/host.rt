// The interface of every host.
ghost use Rattle.std.specs.Prelude.{◌≡◌};
ghost use Rattle.host.specs.Books.{Book, answer_to, after, pair};

// A host receives pairs of environment and command, and answers a code. Its book gives, for each
// list of one or more pairs sent from now on, the answer to the last. A pair is passed as two slices,
// since each lies in a place of its own.
pub trait Host {
    ghost book: { Self → Book };

    fn issue(&mut self, environment: &[u8], command: &[u8]) -> i32
        ensures code { result ≡ answer_to (book self.old) (pair environment.now command.now) }
        ensures next { book self.new ≡ after (book self.old) (pair environment.now command.now) };
}
