//! A file of GEOS put into an image, out of a CVT.
ghost use Rattle.std.specs.Prelude.{◌≡◌, ◌≤◌, ◌<◌, ◌+◌, ◌++◌, IfErr, IfOk, IsFalse, IsTrue, None, OnOk, drop, length};
ghost use Rattle.d64_image.specs.Images.{put as put_at};
ghost use Rattle.d64_image.specs.Memory.{disk_image};
ghost use Rattle.command_faults.specs.declared.faults.CommandFault.TheVariants.{NoFile, NoMemory};
ghost use Rattle.disk_changes.specs.GeosPuts.{HasContent, HasEntryOf, IsGeosMade, IsGeosPut, IsGeosPutRefusal, IsLaid};
ghost use Rattle.disk_changes.specs.Rewrites.{IsPlainNamed, IsUnlaid};
ghost use Rattle.disk_changes.specs.GeosPuts as specs;
ghost use Rattle.disk_layout.specs.Layout.{IsLayout, IsSound, Layout};
ghost use Rattle.file_changes.specs.PutWrites.{SameBeside};

use crate::changes::Changed;
use crate::copying::is_relative;
use crate::cvts::cvt_content;
use crate::judging::sound_disk;
use crate::outcomes::changed;
use crate::putting::put;
use crate::rewriting::{are_same, is_broken, plain_named, put_sector};
use crate::sorting::put_entry;
use arrayvec::ArrayVec;
use command_faults::CommandFault;
use d64_image::{MemDisk, Place, Sectors};
use damaged_files::{Loss, Reach, reach_file, read_so_far};
use disk_layout::{DATA, MOST_BLOCKS, Slot, padded_name};
use file_changes::{FileType, choose_named};
use file_rescues::read_file;
use geos_files::{GeosEntry, geos_entry, reach_geos};
use std::alloc::Global;

/// How many records a file has.
const RECORDS: usize = 127;

/// The byte of a CVT that says whether the file has records.
const STRUCTURE: usize = 21;

/// Writes one of these blocks.
fn put_block(disk: &mut MemDisk, blocks: &[Place], number: usize, bytes: &[u8; 256])
    requires { number < length blocks.now }
    ensures { SameBeside (disk_image disk.old) blocks.now (disk_image disk.new) }
{
    put_sector(disk, blocks[number], bytes);
}

/// Ends a chain at one of these blocks, at this last index.
fn end_chain(disk: &mut MemDisk, blocks: &[Place], number: usize, last: u8)
    requires { number < length blocks.now }
    ensures { SameBeside (disk_image disk.old) blocks.now (disk_image disk.new) }
{
    let mut bytes = *disk.sector(blocks[number]);
    bytes[0] = 0;
    bytes[1] = last;
    put_block(disk, blocks, number, &bytes);
}

/// Makes a chain of `count` of these blocks, from block `from` on, with this last index. Returns the first one. None, and nothing is
/// done, if there aren't as many, or none.
fn lay_chain(
    disk: &mut MemDisk,
    blocks: &[Place],
    from: usize,
    count: usize,
    last: u8,
) -> Option<Place>
    requires { from + count ≤ 100000 }
    ensures { SameBeside (disk_image disk.old) blocks.now (disk_image disk.new) }
{
    if count == 0 {
        return None;
    }
    if from + count > blocks.len() {
        return None;
    }
    end_chain(disk, blocks, from + count - 1, last);
    Some(blocks[from])
}

/// Makes records of these blocks, whose first two are the info block and the record block. The record block has two bytes for each record:
/// how many blocks it has, and the index of its last byte. The first of these blocks comes in their place.
fn lay_records(disk: &mut MemDisk, blocks: &[Place])
    requires { 1 < length blocks.now }
    ensures { SameBeside (disk_image disk.old) blocks.now (disk_image disk.new) }
{
    let mut bytes = *disk.sector(blocks[1]);
    bytes[0] = 0;
    bytes[1] = 255;
    let mut next: usize = 2;
    for number in 0..RECORDS {
        let pair = 2 + 2 * number;
        let count = usize::from(bytes[pair]);
        if let Some(first) = lay_chain(disk, blocks, next, count, bytes[pair + 1]) {
            bytes[pair] = first.track();
            bytes[pair + 1] = first.sector();
        }
        next += count;
    }
    put_block(disk, blocks, 1, &bytes);
}

/// The slot with what a CVT says of its entry, and with the places of the info block and of the first block.
fn geos_slot(slot: &Slot, cvt: &[u8], info: Place, first: Place) -> Slot
    requires { 30 ≤ length cvt.now }
{
    let mut geos = *slot;
    geos.bytes[2] = cvt[0];
    geos.bytes[3] = first.track();
    geos.bytes[4] = first.sector();
    geos.bytes[21] = info.track();
    geos.bytes[22] = info.sector();
    geos.bytes[23..30].copy_from_slice(&cvt[STRUCTURE..28]);
    geos
}

/// Makes the blocks of a file of GEOS of these, which have its content in one chain.
fn lay_blocks(disk: &mut MemDisk, blocks: &[Place], has_records: bool)
    requires { 1 < length blocks.now }
    ensures { SameBeside (disk_image disk.old) blocks.now (disk_image disk.new) }
{
    end_chain(disk, blocks, 0, 255);
    if has_records {
        lay_records(disk, blocks);
    }
}

/// Makes a file of GEOS of the blocks and the entry of a sound disk's first file of that name, which has the content of a CVT in one chain.
/// Returns the entry as it was. `NoFile` if that isn't possible.
fn lay(disk: &mut MemDisk, name: &[u8], cvt: &[u8]) -> Result<Slot, CommandFault>
    requires sound { IsSound (disk_image disk.old) }
    requires name { length name.now ≤ 16 }
    requires size { 30 ≤ length cvt.now }
    ensures ok { IfOk result (λ s. (l : Layout) → IsLayout (disk_image disk.old) l
        → IsLaid (disk_image disk.old) l name.now s (disk_image disk.new)) }
    ensures low { IfOk result (λ s. s.number < 8) }
    ensures err { IfErr result (λ why. why ≡ NoFile) }
{
    let slot = plain_named(disk, name)?;
    let mut blocks: ArrayVec<Place, MOST_BLOCKS> = ArrayVec::new();
    let reach = reach_file(disk, &slot, &mut blocks);
    if is_broken(&reach) {
        return Err(CommandFault::NoFile);
    }
    if blocks.len() < 2 {
        return Err(CommandFault::NoFile);
    }
    lay_blocks(disk, blocks.as_slice(), cvt[STRUCTURE] == 1);
    let entry = geos_slot(&slot, cvt, blocks[0], blocks[1]);
    put_entry(disk, &slot, &entry);
    Ok(slot)
}

/// How many blocks come before those of the data.
fn leading(entry: &GeosEntry) -> usize
    ensures { result ≡ specs.leading entry.now }
{
    if entry.has_records { 2 } else { 1 }
}

/// The blocks of the data.
fn data_blocks<'a>(blocks: &'a [Place], entry: &GeosEntry) -> &'a [Place]
    ensures value { result.now ≡ drop (specs.leading entry.now) blocks.now }
    ensures few { length result.now ≤ length blocks.now }
{
    let leading = leading(entry);
    if leading > blocks.len() {
        return &blocks[blocks.len()..];
    }
    &blocks[leading..]
}

/// Appends these bytes. `NoMemory` if there was none for them.
fn append(out: &mut Vec<u8>, bytes: &[u8]) -> Result<(), CommandFault>
    ensures ok { OnOk result (out.new.items ≡ out.old.items ++ bytes.now) }
    ensures err { IfErr result (λ why. why ≡ NoMemory) }
{
    match out.extend_from_slice(bytes) {
        Ok(()) => Ok(()),
        Err(_) => Err(CommandFault::NoMemory),
    }
}

/// Three parts as one. `NoMemory` if there was none for it.
fn joined(alloc: Global, front: &[u8], middle: &[u8], back: &[u8]) -> Result<Vec<u8>, CommandFault>
    ensures ok { IfOk result (λ all. all.items ≡ (front.now ++ middle.now) ++ back.now) }
    ensures err { IfErr result (λ why. why ≡ NoMemory) }
{
    let Ok(mut all) = Vec::from_slice(alloc, front) else {
        return Err(CommandFault::NoMemory);
    };
    append(&mut all, middle)?;
    append(&mut all, back)?;
    Ok(all)
}

/// Whether the CVT of the entry's file has this content from its info block on, and no fault is in the way. `NoMemory` if there was none for it.
fn has_content(
    alloc: Global,
    disk: &MemDisk,
    slot: &Slot,
    content: &[u8],
) -> Result<bool, CommandFault>
    ensures ok { IfOk result (λ is. IsTrue is → HasContent (disk_image disk.now) slot.now content.now) }
    ensures err { IfErr result (λ why. why ≡ NoMemory) }
{
    let Some(entry) = geos_entry(slot) else {
        return Ok(false);
    };
    let mut blocks: ArrayVec<Place, MOST_BLOCKS> = ArrayVec::new();
    let mut pairs: ArrayVec<u8, DATA> = ArrayVec::new();
    let reach = reach_geos(disk, &entry, &mut blocks, &mut pairs);
    if is_broken(&reach) {
        return Ok(false);
    }
    let data = read_file(
        alloc,
        disk,
        data_blocks(blocks.as_slice(), &entry),
        reach.last,
    )?;
    let info = &disk.sector(entry.info)[2..256];
    let all = joined(alloc, info, pairs.as_slice(), data.as_slice())?;
    Ok(are_same(content, all.as_slice()))
}

/// Whether the entry has this name, and what a CVT says of it.
fn has_entry_of(slot: &Slot, name: &[u8], cvt: &[u8]) -> bool
    requires name { length name.now ≤ 16 }
    requires size { 30 ≤ length cvt.now }
    ensures { IsTrue result → HasEntryOf slot.now name.now cvt.now }
{
    if is_relative(slot) {
        return false;
    }
    if slot.bytes[2] != cvt[0] {
        return false;
    }
    are_same(&slot.bytes[5..21], &padded_name(name))
        && are_same(&slot.bytes[23..30], &cvt[STRUCTURE..28])
}

/// Whether the entry is that of the file that a CVT holds, whose content this is, under this name.
fn is_made(
    alloc: Global,
    disk: &MemDisk,
    slot: &Slot,
    name: &[u8],
    cvt: &[u8],
    content: &[u8],
) -> Result<bool, CommandFault>
    requires name { length name.now ≤ 16 }
    requires size { 30 ≤ length cvt.now }
    ensures ok { IfOk result (λ is. IsTrue is → HasEntryOf slot.now name.now cvt.now
        × HasContent (disk_image disk.now) slot.now content.now) }
    ensures err { IfErr result (λ why. why ≡ NoMemory) }
{
    if !has_entry_of(slot, name, cvt) {
        return Ok(false);
    }
    has_content(alloc, disk, slot, content)
}

/// The disk with a file of GEOS made of the first file of that name, which has the content of a CVT in one chain; and judged.
fn geos_made(
    alloc: Global,
    disk: MemDisk,
    name: &[u8],
    cvt: &[u8],
    content: &[u8],
) -> Result<MemDisk, CommandFault>
    requires sound { IsSound (disk_image disk) }
    requires name { length name.now ≤ 16 }
    requires size { 30 ≤ length cvt.now }
    ensures ok { IfOk result (λ judged. (l : Layout) → IsLayout (disk_image disk) l
        → IsGeosMade (disk_image disk) l name.now cvt.now content.now (disk_image judged)) }
    ensures err { IfErr result IsUnlaid }
{
    let mut disk = disk;
    let slot = lay(&mut disk, name, cvt)?;
    let judged = sound_disk(alloc, disk.bytes())?;
    let now = Slot::in_sector(judged.sector(slot.sector), slot.sector, slot.number);
    if is_made(alloc, &judged, &now, name, cvt, content)? {
        return Ok(judged);
    }
    Err(CommandFault::NoFile)
}

/// The image with the file of GEOS that a CVT holds, under this name, which was judged before. The new disk is judged, too.
pub(crate) fn geos_put(
    alloc: Global,
    image: &[u8],
    name: &[u8],
    cvt: &[u8],
    cut: Loss,
) -> Result<Changed, CommandFault>
    requires name { length name.now ≤ 16 }
    ensures ok { IfOk result (IsGeosPut image.now name.now cvt.now cut) }
    ensures err { IfErr result (IsGeosPutRefusal image.now name.now cvt.now cut) }
{
    let Some(content) = cvt_content(cvt) else {
        return Err(CommandFault::NoFile);
    };
    let first = put(alloc, image, name, FileType::Usr, content, cut)?;
    let judged = geos_made(alloc, first.disk, name, cvt, content)?;
    changed(alloc, judged, b"PUT\n")
}
