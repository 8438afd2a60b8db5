//! The memory that serving takes, all of it before the first line.
ghost use Rattle.std.specs.Prelude.{◌≡◌, ◌≤◌, length, vec_capacity};

use crate::batches::MOST_LINES;
use arrayvec::ArrayVec;
use d64_image::SECTORS;
use request_cards::Reply;
use std::alloc::{AllocError, Global};

/// Memory for a batch of lines and its replies, and for the image that was committed last: about 230 kB.
#[derive(Drop)]
pub struct Room {
    pub(crate) lines: Vec<ArrayVec<u8, 40>>,
    pub(crate) replies: Vec<Reply>,
    pub(crate) kept: Vec<[u8; 256]>,
    ghost lines_fit: { 512 ≤ vec_capacity lines },
    ghost replies_fit: { 512 ≤ vec_capacity replies },
    ghost image_fits: { length kept.items ≡ 683 },
}

impl Room {
    /// Takes the memory. Err if that is refused.
    pub fn new(alloc: Global) -> Result<Room, AllocError> {
        let mut kept = Vec::new(alloc);
        kept.resize(SECTORS, [0; 256])?;
        Ok(Room {
            lines: Vec::with_capacity(alloc, MOST_LINES)?,
            replies: Vec::with_capacity(alloc, MOST_LINES)?,
            kept,
        })
    }
}
