//! Reading records: one side sector names the block in which a record begins.
ghost use Rattle.std.specs.Prelude.{◌+◌, ◌++◌, length, ◌≡◌, ◌<◌, ◌≤◌, IsSome, Some, drop, take};
ghost use Rattle.d64_image.specs.Images.{sector};
ghost use Rattle.d64_image.specs.declared.place.Place.{Place};
ghost use Rattle.disk_layout.specs.Chain.{named_at};
ghost use Rattle.rel_records.specs.Calls.{HasRead, ReadsAtMost, ReadsRecord};
ghost use Rattle.rel_records.specs.File.{IsOf, OfItsFile, blocks_of, records_in};
ghost use Rattle.rel_records.specs.reading.Block.{IsBlock};

pub(crate) mod counting;
pub(crate) mod finding;
pub(crate) mod lookup;
pub(crate) mod parts;
pub(crate) mod record_order;

use crate::access::read;
use crate::faults::RelFault;
use crate::reading::counting::has_records;
use crate::reading::lookup::block_at;
use crate::reading::parts::record_parts;
use crate::rel_file::RelFile;
use arrayvec::ArrayVec;
use d64_image::{Place, Sectors};
use disk_layout::DATA;

/// Puts two parts, one after the other, in place of these bytes.
#[inline(always)]
fn overwrite(bytes: &mut [u8], here: &[u8], there: &[u8])
    requires { length bytes.old ≡ length here.now + length there.now }
    ensures { bytes.new ≡ here.now ++ there.now }
{
    let (first, second) = bytes.split_at_mut(here.len());
    first.copy_from_slice(here);
    second.copy_from_slice(there);
}

/// Fills `text` with the record of this length that begins at data byte `start` of the first block, and goes on in the
/// second.
// In line: if a record is in one block, the compiler then knows that the second part is empty.
#[inline(always)]
pub(crate) fn fill_record(
    text: &mut ArrayVec<u8, DATA>,
    first: &[u8; 256],
    second: &[u8; 256],
    start: usize,
    size: usize,
)
    requires start { start < 254 }
    requires size { size ≤ 254 }
    ensures { text.new.items ≡ take size (drop start (drop 2 first.now ++ drop 2 second.now)) }
{
    let (here, there) = record_parts(first, second, start, size);
    // as long as the one before: there is nothing to clear
    if text.len() == size {
        overwrite(text.as_mut_slice(), here, there);
        return;
    }
    text.clear();
    text.try_extend_from_slice(here).unwrap();
    text.try_extend_from_slice(there).unwrap();
}

/// Reads the data block of this number, from 0, as its side sector names it.
pub(crate) fn read_block<D: Sectors>(
    disk: &mut D,
    file: &RelFile,
    block: usize,
    to: &mut [u8; 256],
) -> Result<(), RelFault>
    requires of { IsOf (D.history.image disk.old) file.now }
    requires there { block < blocks_of file.now }
    ensures { ReadsAtMost D.history disk.old disk.new 2 result (λ done.
        OfItsFile (D.history.image disk.old) file.now
        (λ l n f. IsBlock (D.history.image disk.old) f.blocks block to.new)) }
{
    let place = block_at(disk, file, block)?;
    read(disk, place, to)
}

/// Reads the next data block, which the block with these bytes names.
pub(crate) fn read_behind<D: Sectors>(
    disk: &mut D,
    bytes: &[u8; 256],
    to: &mut [u8; 256],
) -> Result<(), RelFault>
    requires { IsSome (named_at bytes.now 0) }
    ensures { ReadsAtMost D.history disk.old disk.new 1 result (λ done.
        (p : Place) → named_at bytes.now 0 ≡ Some p → to.new ≡ sector (D.history.image disk.old) p) }
{
    read(disk, Place::known(bytes[0], bytes[1]), to)
}

/// Fills `text` with the record of this length that begins at data byte `start` of a data block, which has these bytes,
/// and goes on in the block that they name.
// Out of line: few records lie in two blocks.
#[inline(never)]
fn read_across<D: Sectors>(
    disk: &mut D,
    first: &[u8; 256],
    start: usize,
    size: usize,
    text: &mut ArrayVec<u8, DATA>,
) -> Result<(), RelFault>
    requires named { IsSome (named_at first.now 0) }
    requires start { start < 254 }
    requires size { size ≤ 254 }
    ensures { ReadsAtMost D.history disk.old disk.new 1 result (λ done.
        (p : Place) → named_at first.now 0 ≡ Some p
        → text.new.items ≡ take size (drop start (drop 2 first.now ++ drop 2 (sector (D.history.image disk.old) p)))) }
{
    let mut second = [0; 256];
    read_behind(disk, first, &mut second)?;
    fill_record(text, first, &second, start, size);
    Ok(())
}

/// Reads a record that is there.
// In line, as `read_record` is. The file ends below byte 183,134, so 32 bits hold the position of a record.
#[inline(always)]
fn read_there<D: Sectors>(
    disk: &mut D,
    file: &RelFile,
    number: u32,
    text: &mut ArrayVec<u8, DATA>,
) -> Result<(), RelFault>
    requires of { IsOf (D.history.image disk.old) file.now }
    requires low { 1 ≤ number }
    requires high { number ≤ records_in file.now }
    ensures { ReadsAtMost D.history disk.old disk.new 3 result (λ done.
        HasRead (D.history.image disk.old) file.now number text.new.items) }
{
    let size = file.size as usize;
    let start = ((number - 1) * file.size as u32) as usize;
    let mut first = [0; 256];
    read_block(disk, file, start / DATA, &mut first)?;
    if start % DATA + size <= DATA {
        fill_record(text, &first, &first, start % DATA, size);
        return Ok(());
    }
    read_across(disk, &first, start % DATA, size, text)
}

/// Reads a record into `text`, all of its bytes. `NotPresent` is returned if the file has no record of this number,
/// counted from 1. The old contents of `text` are gone. After an error `text` may hold anything.
// In line, with all on the way of a record that lies in one block.
#[inline(always)]
pub fn read_record<D: Sectors>(
    disk: &mut D,
    file: &RelFile,
    number: u32,
    text: &mut ArrayVec<u8, DATA>,
) -> Result<(), RelFault>
    requires of { IsOf (D.history.image disk.old) file.now }
    // its side sector, and its one or two blocks
    ensures { ReadsRecord D.history disk.old disk.new file.now number text.new.items 3 result }
{
    if number == 0 {
        return Err(RelFault::NotPresent);
    }
    if !has_records(file, number) {
        return Err(RelFault::NotPresent);
    }
    read_there(disk, file, number, text)
}
