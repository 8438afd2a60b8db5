//! Inputs and outputs of a till that waits for its replies.
use std::cell::Cell;
use std::io::{self, BufRead, ErrorKind, Read, Write};

/// An input that gives pieces, each only while so many bytes of the replies are handed on, and fails otherwise.
#[derive(Drop)]
pub(crate) struct Talk<'a> {
    pieces: &'static [(&'static [u8], usize)],
    /// How many bytes of the first one were taken.
    taken: usize,
    handed: &'a Cell<usize>,
}

impl<'a> Talk<'a> {
    /// A talk of which nothing was asked yet.
    pub(crate) fn new(
        pieces: &'static [(&'static [u8], usize)],
        handed: &'a Cell<usize>,
    ) -> Talk<'a> {
        Talk {
            pieces,
            taken: 0,
            handed,
        }
    }
}

impl Read for Talk<'_> {
    fn read(&mut self, _buf: &mut [u8]) -> io::Result<usize> {
        Err(io::Error::from(ErrorKind::Unsupported))
    }
}

impl BufRead for Talk<'_> {
    fn fill_buf(&mut self) -> io::Result<&[u8]> {
        match self.pieces.first() {
            Some((piece, handed)) if self.taken > 0 || *handed == self.handed.get() => {
                Ok(piece.get(self.taken..).unwrap_or_default())
            }
            Some(_) => Err(io::Error::from(ErrorKind::TimedOut)),
            None => Ok(&[]),
        }
    }

    fn consume(&mut self, amount: usize) {
        self.taken = self.taken.saturating_add(amount);
        if let Some((piece, _)) = self.pieces.first() {
            if self.taken >= piece.len() {
                self.pieces = self.pieces.get(1..).unwrap_or_default();
                self.taken = 0;
            }
        }
    }
}

/// An output that notes how many bytes were handed on, and how often. It fails once so many bytes were written.
#[derive(Drop)]
pub(crate) struct Heard<'a> {
    pub(crate) bytes: Vec<u8>,
    pub(crate) times: usize,
    room: usize,
    handed: &'a Cell<usize>,
}

impl<'a> Heard<'a> {
    /// To which nothing was written yet, with room for so many bytes.
    pub(crate) fn new(bytes: Vec<u8>, room: usize, handed: &'a Cell<usize>) -> Heard<'a> {
        Heard {
            bytes,
            times: 0,
            room,
            handed,
        }
    }
}

impl Write for Heard<'_> {
    fn write(&mut self, buf: &[u8]) -> io::Result<usize> {
        if buf.len() > self.room {
            return Err(io::Error::from(ErrorKind::TimedOut));
        }
        self.room = self.room.saturating_sub(buf.len());
        self.bytes.write(buf)
    }

    fn flush(&mut self) -> io::Result<()> {
        self.handed.set(self.bytes.len());
        self.times = self.times.saturating_add(1);
        Ok(())
    }
}
