//! The memory that a log takes.
ghost use Rattle.std.specs.Prelude.{◌≡◌, length};

use image_log::{BLOCK, MOST};
use std::alloc::{AllocError, Global};

/// Memory for the blocks of one commit, 188,416 bytes. A log takes no other.
#[derive(Drop)]
pub struct BlockRoom {
    pub(crate) blocks: Vec<[u8; 4096]>,
    ghost fits: { length blocks.items ≡ 46 },
}

impl BlockRoom {
    /// Takes the memory. Err if that is refused.
    pub fn new(alloc: Global) -> Result<BlockRoom, AllocError> {
        let mut blocks = Vec::new(alloc);
        blocks.resize(MOST, [0; BLOCK])?;
        Ok(BlockRoom { blocks })
    }
}
