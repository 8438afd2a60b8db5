//! The memory that a log takes.
ghost use Rattle.std.specs.Prelude.{◌≡◌, length};

use crate::blocks::BLOCK;
use crate::log::MOST;
use std::alloc::{AllocError, Global};

/// Memory for the blocks of one commit, 188,416 bytes. A log takes no other, and a log that is over gives it back.
#[derive(Drop)]
pub struct LogRoom {
    pub(crate) blocks: Vec<[u8; 4096]>,
    ghost fits: { length blocks.items ≡ 46 },
}

impl LogRoom {
    /// Takes the memory. Err if that is refused.
    pub fn new(alloc: Global) -> Result<LogRoom, AllocError> {
        let mut blocks = Vec::new(alloc);
        blocks.resize(MOST, [0; BLOCK])?;
        Ok(LogRoom { blocks })
    }
}
