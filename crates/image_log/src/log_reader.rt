//! A log that is read, block by block.
ghost use Rattle.std.specs.Prelude.{◌≡◌, ◌↔◌, ◌≤◌, ◌<◌, Bool, IfOk, IsTrue, List, Option, Some, length, ℕ};
ghost use Rattle.image_log.specs.Blocks.{block_at};
ghost use Rattle.image_log.specs.Readers.{Reads};
ghost use Rattle.image_log.specs.Recovered.{is_marked as marked};

use crate::blocks::BLOCK;
use crate::log::{BLOCKS, LOG_BYTES};
use std::io;

/// A log, open to be read. A writer may add commits meanwhile, so all blocks are first read from the last one on to the
/// first: this sees all commits before one of which it sees a part. Whole commits don't change after that, and may be
/// read again.
pub trait LogReader: Drop {
    /// What it reads, if that is known.
    ghost bytes: { Self → Option (List ℕ) };

    /// Whether one of its calls may have failed.
    ghost has_failed: { Self → Bool };

    /// Whether it has as many bytes as a log.
    fn is_sized(&mut self) -> io::Result<bool>
        ensures sized { IfOk result (λ sized. (f : List ℕ) → bytes self.old ≡ Some f → IsTrue sized ↔ (length f ≡ 4198400)) }
        ensures reads { Reads bytes has_failed self.old self.new result };

    /// Whether it has its mark. This is read before the blocks.
    fn is_marked(&mut self) -> io::Result<bool>
        ensures mark { IfOk result (λ mark. (f : List ℕ) → bytes self.old ≡ Some f → mark ≡ marked f) }
        ensures reads { Reads bytes has_failed self.old self.new result };

    /// Block q. What the file hasn't is zeros.
    fn read_block(&mut self, q: usize) -> io::Result<[u8; 4096]>
        requires within { q < 1024 }
        ensures block { IfOk result (λ block. (f : List ℕ) → bytes self.old ≡ Some f → 4194304 ≤ length f
            → block ≡ block_at f q) }
        ensures reads { Reads bytes has_failed self.old self.new result };
}

impl LogReader for Vec<u8> {
    ghost use Rattle.std.specs.Prelude.{false};

    ghost bytes = { λ log. Some log.items };

    ghost has_failed = { λ _. false };

    fn is_sized(&mut self) -> io::Result<bool> {
        Ok(self.len() == LOG_BYTES)
    }

    fn is_marked(&mut self) -> io::Result<bool> {
        match self.get(BLOCK * BLOCKS) {
            Some(&byte) => Ok(byte != 0),
            None => Ok(false),
        }
    }

    fn read_block(&mut self, q: usize) -> io::Result<[u8; 4096]> {
        let mut block = [0; BLOCK];
        let bytes = self.as_slice();
        if bytes.len() >= BLOCK * q + BLOCK {
            block.copy_from_slice(&bytes[BLOCK * q..BLOCK * q + BLOCK]);
        }
        Ok(block)
    }
}
