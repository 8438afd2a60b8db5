//! The standard input of a host.
ghost use Rattle.std.specs.Prelude.{◌≡◌, List, None, Option, Some, ℕ};

use std::io::Read;
use std::rt::Files;

/// A host with a standard input.
pub trait HostInput {
    /// What reads it.
    type Given: Read + Drop;

    // the bytes that standard input gives up to its end, if they are known
    ghost given: { Self → Option (List ℕ) } = { λ _. None };

    /// Standard input, of which nothing was read.
    fn input(&self) -> Self::Given
        ensures { (all : List ℕ) → given self.now ≡ Some all → Self.Given.remaining result ≡ Some all };
}

// No contract says what a system's input gives.
impl<R: Files + Input> HostInput for R {
    type Given = R::Reader;

    fn input(&self) -> R::Reader {
        self.reader()
    }
}
