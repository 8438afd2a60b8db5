//! The memory that a service takes, all of it before the first line.
ghost use Rattle.std.specs.Prelude.{◌≡◌, ◌≤◌, length, vec_capacity};

use crate::printing::TEXT_BYTES;
use crate::reading::LineInput;
use arrayvec::ArrayVec;
use d64_image::SECTORS;
use line_server::MOST_LINES;
use request_cards::Reply;
use std::alloc::{AllocError, Global};

/// Memory for what is read, for 512 lines and their replies, and for the image that was committed last: about 250 kB.
#[derive(Drop)]
pub struct ServiceRoom {
    pub(crate) input: LineInput,
    pub(crate) lines: Vec<ArrayVec<u8, 40>>,
    pub(crate) replies: Vec<Reply>,
    pub(crate) text: Vec<u8>,
    pub(crate) kept: Vec<[u8; 256]>,
    ghost lines_fit: { 512 ≤ vec_capacity lines },
    ghost replies_fit: { 512 ≤ vec_capacity replies },
    ghost text_fits: { length text.items ≡ 22528 },
    ghost image_fits: { length kept.items ≡ 683 },
}

impl ServiceRoom {
    /// Takes the memory. Err if that is refused.
    pub fn new(alloc: Global) -> Result<ServiceRoom, AllocError> {
        let mut text = Vec::new(alloc);
        text.resize(TEXT_BYTES, 0)?;
        let mut kept = Vec::new(alloc);
        kept.resize(SECTORS, [0; 256])?;
        Ok(ServiceRoom {
            input: LineInput::new(alloc)?,
            lines: Vec::with_capacity(alloc, MOST_LINES)?,
            replies: Vec::with_capacity(alloc, MOST_LINES)?,
            text,
            kept,
        })
    }
}
