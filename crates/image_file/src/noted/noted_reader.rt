//! A standard input that keeps why reading it failed.
ghost use Rattle.std.specs.Prelude.{◌≡◌};

use crate::noted::failures::Failures;
use crate::noted::subjects::Subject;
use std::io::{self, BufRead, Read};

/// A reader of standard input, which keeps why `read` failed. All that it gives is the reader's.
#[derive(Drop)]
pub struct NotedReader<'n, 'a, I> {
    reader: I,
    failures: &'n Failures<'a>,
}

impl<'n, 'a, I> NotedReader<'n, 'a, I> {
    /// This reader of standard input.
    pub(crate) fn new(reader: I, failures: &'n Failures<'a>) -> NotedReader<'n, 'a, I>
        ensures { result.reader ≡ reader }
    {
        NotedReader { reader, failures }
    }
}

impl<I: Read> Read for NotedReader<'_, '_, I> {
    ghost remaining = { λ noted. I.remaining noted.reader };

    fn read(&mut self, buf: &mut [u8]) -> io::Result<usize> {
        let outcome = self.reader.read(buf);
        self.failures.noted(Some(Subject::Input), None, outcome)
    }
}

impl<I: BufRead> BufRead for NotedReader<'_, '_, I> {
    ghost consumable_len = { λ noted. I.consumable_len noted.reader };

    // A failure isn't kept here: scripts and lines are read by `read`.
    fn fill_buf(&mut self) -> io::Result<&[u8]> {
        self.reader.fill_buf()
    }

    fn consume(&mut self, amount: usize) {
        self.reader.consume(amount);
    }
}
