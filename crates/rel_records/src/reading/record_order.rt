//! Records read in order: the block that was read last is kept, and its link names the next one.
ghost use Rattle.std.specs.Prelude.{◌≡◌, ◌↔◌, ◌+◌, ◌<◌, ◌≤◌, IfSome, IsSome, IsTrue, None, Some};
ghost use Rattle.d64_image.specs.History.{OnlyReads};
ghost use Rattle.d64_image.specs.Images.{Image, IsImage};
ghost use Rattle.rel_records.specs.Calls.{HasRead, ReadsAtMost, ReadsRecord};
ghost use Rattle.rel_records.specs.File.{IsOf, blocks_of, records_in};
ghost use Rattle.rel_records.specs.reading.Kept.{IsKept, LiesWhole, ReadsNear, number_kept};

use crate::faults::RelFault;
use crate::reading::counting::has_records;
use crate::reading::{fill_record, read_behind, read_block};
use crate::rel_file::RelFile;
use arrayvec::ArrayVec;
use d64_image::Sectors;
use disk_layout::DATA;

/// The data block of a file that was read last. If records are read in order, the next one begins there, or in the
/// block that it names.
#[derive(Drop)]
pub struct LastBlock {
    number: Option<usize>,
    bytes: [u8; 256],
}

impl LastBlock {
    /// No block was read yet.
    pub fn none() -> Self
        ensures { number_kept result ≡ None }
    {
        Self {
            number: None,
            bytes: [0; 256],
        }
    }

    /// Whether the data block of this number, from 0, is kept.
    #[inline(always)]
    fn keeps(&self, block: usize) -> bool
        ensures { IsTrue result ↔ (number_kept self.now ≡ Some block) }
    {
        match self.number {
            Some(here) => here == block,
            None => false,
        }
    }

    /// The bytes of a record, if the block that is kept has all of them. None if it doesn't, or if the file has no
    /// record of this number, counted from 1. Nothing is read or copied. `self` is of this file, as for `read_next`.
    #[inline(always)]
    pub fn record(&self, file: &RelFile, number: u32) -> Option<&[u8]>
        ensures whole { IsSome result ↔ LiesWhole self.now file.now number }
        ensures bytes { (img : Image) → IsImage img → IsOf img file.now → IsKept img file.now self.now
            → IfSome result (λ bytes. HasRead img file.now number bytes.now) }
    {
        if number == 0 || !has_records(file, number) {
            return None;
        }
        let size = file.size as usize;
        let start = (number as usize - 1) * size;
        let from = start % DATA;
        if !self.keeps(start / DATA) || from + size > DATA {
            return None;
        }
        Some(&self.bytes[2 + from..2 + from + size])
    }
}

/// Reads the block after the kept one, which has this number, from 0, and keeps it instead.
// Out of line: most records lie in the block that is kept.
#[inline(never)]
fn go_on<D: Sectors>(
    disk: &mut D,
    file: &RelFile,
    last: &mut LastBlock,
    here: usize,
) -> Result<(), RelFault>
    requires of { IsOf (D.history.image disk.old) file.now }
    requires there { here + 1 < blocks_of file.now }
    requires number { number_kept last.old ≡ Some here }
    requires kept { IsKept (D.history.image disk.old) file.now last.old }
    ensures next { ReadsAtMost D.history disk.old disk.new 1 result (λ done. number_kept last.new ≡ Some (here + 1)) }
    ensures kept { IsKept (D.history.image disk.old) file.now last.new }
{
    let mut bytes = [0; 256];
    read_behind(disk, &last.bytes, &mut bytes)?;
    *last = LastBlock {
        number: Some(here + 1),
        bytes,
    };
    Ok(())
}

/// Reads the data block of this number, from 0, and keeps it. If it is kept already, nothing is read.
#[inline(always)]
fn fetch_block<D: Sectors>(
    disk: &mut D,
    file: &RelFile,
    last: &mut LastBlock,
    block: usize,
) -> Result<(), RelFault>
    requires of { IsOf (D.history.image disk.old) file.now }
    requires there { block < blocks_of file.now }
    requires kept { IsKept (D.history.image disk.old) file.now last.old }
    ensures here { ReadsAtMost D.history disk.old disk.new 2 result (λ done. number_kept last.new ≡ Some block) }
    ensures quiet { number_kept last.old ≡ Some block → OnlyReads D.history disk.old disk.new 0 }
    ensures kept { IsKept (D.history.image disk.old) file.now last.new }
{
    if let Some(here) = last.number {
        if here == block {
            return Ok(());
        }
        if here < block && block - here == 1 {
            return go_on(disk, file, last, here);
        }
    }
    let mut bytes = [0; 256];
    read_block(disk, file, block, &mut bytes)?;
    *last = LastBlock {
        number: Some(block),
        bytes,
    };
    Ok(())
}

/// Reads a record that is there.
#[inline(always)]
fn next_there<D: Sectors>(
    disk: &mut D,
    file: &RelFile,
    last: &mut LastBlock,
    number: u32,
    text: &mut ArrayVec<u8, DATA>,
) -> Result<(), RelFault>
    requires of { IsOf (D.history.image disk.old) file.now }
    requires kept { IsKept (D.history.image disk.old) file.now last.old }
    requires low { 1 ≤ number }
    requires high { number ≤ records_in file.now }
    ensures text { ReadsAtMost D.history disk.old disk.new 3 result
        (λ done. HasRead (D.history.image disk.old) file.now number text.new.items) }
    ensures kept { IsKept (D.history.image disk.old) file.now last.new }
    ensures near { ReadsNear D.history disk.old disk.new last.old file.now number }
{
    let size = file.size as usize;
    let start = (number as usize - 1) * size;
    fetch_block(disk, file, last, start / DATA)?;
    if start % DATA + size <= DATA {
        fill_record(text, &last.bytes, &last.bytes, start % DATA, size);
        return Ok(());
    }
    let first = last.bytes;
    go_on(disk, file, last, start / DATA)?;
    fill_record(text, &first, &last.bytes, start % DATA, size);
    Ok(())
}

/// Reads a record as `read_record` does, and keeps its block for reading the next one. If the block that was read last
/// has the record, nothing is read; if the record goes on in the next block, one sector is read. `last` is of this
/// file: `LastBlock::none`, or what this call left in it, with nothing written since.
// In line, with all on the way of a record in the block that is kept.
#[inline(always)]
pub fn read_next<D: Sectors>(
    disk: &mut D,
    file: &RelFile,
    last: &mut LastBlock,
    number: u32,
    text: &mut ArrayVec<u8, DATA>,
) -> Result<(), RelFault>
    requires of { IsOf (D.history.image disk.old) file.now }
    requires kept { IsKept (D.history.image disk.old) file.now last.old }
    ensures text { ReadsRecord D.history disk.old disk.new file.now number text.new.items 3 result }
    // the block that is kept is one of the file, on the image before the call
    ensures kept { IsKept (D.history.image disk.old) file.now last.new }
    ensures near { ReadsNear D.history disk.old disk.new last.old file.now number }
{
    if number == 0 {
        return Err(RelFault::NotPresent);
    }
    if !has_records(file, number) {
        return Err(RelFault::NotPresent);
    }
    next_there(disk, file, last, number, text)
}
