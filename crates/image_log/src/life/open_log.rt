//! A log's file of the system, open to be read.
ghost use Rattle.std.specs.Prelude.{None, true};

use crate::blocks::BLOCK;
use crate::log::{BLOCKS, LOG_BYTES};
use crate::log_reader::LogReader;
use std::fs::OpenFile;
use std::io::{self, ErrorKind, Read, Seek, SeekFrom};

/// A log's file, open to be read. Nothing is known of what it holds: that it satisfies the contract of `LogReader` is
/// trusted.
#[derive(Drop)]
pub struct OpenLog<F> {
    /// The file.
    pub file: F,
}

/// Fills a buffer with a file's bytes from this place on. False if the file ends before.
fn is_filled<F: Read + Seek>(file: &mut F, at: usize, buffer: &mut [u8]) -> io::Result<bool> {
    file.seek(SeekFrom::Start(at as u64))?;
    match file.read_exact(buffer) {
        Ok(()) => Ok(true),
        Err(error) if error.kind() == ErrorKind::UnexpectedEof => Ok(false),
        Err(error) => Err(error),
    }
}

impl<F: Read + Seek + OpenFile + Drop> LogReader for OpenLog<F> {
    ghost bytes = { λ _. None };

    ghost has_failed = { λ _. true };

    fn is_sized(&mut self) -> io::Result<bool> {
        Ok(OpenFile::metadata(&self.file)?.len() == LOG_BYTES as u64)
    }

    fn is_marked(&mut self) -> io::Result<bool> {
        let mut byte = [0];
        let there = is_filled(&mut self.file, BLOCK * BLOCKS, &mut byte)?;
        Ok(there && byte[0] != 0)
    }

    fn read_block(&mut self, q: usize) -> io::Result<[u8; 4096]> {
        let mut block = [0; BLOCK];
        if is_filled(&mut self.file, BLOCK * q, &mut block)? {
            return Ok(block);
        }
        Ok([0; BLOCK])
    }
}
