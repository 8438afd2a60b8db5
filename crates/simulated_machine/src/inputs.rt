//! The standard input of a machine.
use crate::machines::Machine;
use std::io::{self, BufRead, ErrorKind, Read};

/// A reader of a machine's standard input. A read gives whole lines. It has no buffer of its own, so it is read by `read` alone.
#[derive(Drop)]
pub struct GivenInput<'m> {
    machine: &'m Machine,
}

impl<'m> GivenInput<'m> {
    /// A reader of this machine's input.
    pub(crate) fn new(machine: &'m Machine) -> GivenInput<'m> {
        GivenInput { machine }
    }
}

impl Read for GivenInput<'_> {
    fn read(&mut self, buf: &mut [u8]) -> io::Result<usize> {
        self.machine.read_input(buf)
    }
}

impl BufRead for GivenInput<'_> {
    fn fill_buf(&mut self) -> io::Result<&[u8]> {
        Err(ErrorKind::Unsupported.into())
    }

    fn consume(&mut self, _amount: usize) {}
}
