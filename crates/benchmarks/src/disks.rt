//! Disks in memory.
ghost use Rattle.std.specs.Prelude.{◌≤◌};

use crate::found::{Found, or_say};
use d64_image::MemDisk;
use disk_layout::blank_image;
use std::alloc::Global;

/// A disk all of whose bytes are zero.
pub(crate) fn zeroed(alloc: Global) -> Found<MemDisk> {
    or_say(MemDisk::zeroed(alloc), "no memory for an image")
}

/// The blank disk for so many tills.
pub(crate) fn blank(alloc: Global, tills: u8) -> Found<MemDisk>
    requires some { 1 ≤ tills }
    requires few { tills ≤ 64 }
{
    let mut disk = zeroed(alloc)?;
    match blank_image(&mut disk, b"STOCK LEDGER", *b"01", tills) {
        Ok(_) => Ok(disk),
        Err(_) => Err("no blank image"),
    }
}
