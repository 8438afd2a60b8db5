//! Relative files of clean disks, on copies of these: created, grown, written and read; and disks that are mended.
ghost use Rattle.std.specs.Prelude.{◌≤◌, length};

use crate::comparing::holds;
use crate::disks::{WHOLE, clean, found, fused, loaded, passed};
use arrayvec::ArrayVec;
use d64_image::{Fuse, MemDisk, Meter};
use layout_check::repair;
use rel_records::{RelFault, create, grow_to, read_record, records, write_record};
use std::process::Abort;

/// Creates a file, with power that goes after so many writes. Returns the disk then, the answer, and how many sectors
/// were written.
pub(crate) fn make(
    rt: &(impl Abort + AllocGlobal),
    disk: &MemDisk,
    name: &[u8],
    size: u8,
    power: u32,
) -> (MemDisk, (Result<(), RelFault>, u64))
    requires name { length name.now ≤ 16 }
    requires low { 1 ≤ size }
    requires high { size ≤ 254 }
{
    let mut disk = loaded(rt, disk.bytes());
    clean(rt, &mut disk);
    let fuse = Fuse::new(disk, power);
    let mut metered = Meter::new(fuse);
    let answer = match create(&mut metered, name, size) {
        Ok(_) => Ok(()),
        Err(fault) => Err(fault),
    };
    let (writes, disk) = passed(metered);
    (disk, (answer, writes))
}

/// Lets a file grow to a record, with power that goes after so many writes. Returns the disk then, the answer, how many
/// sectors were written, and how many records the file has.
pub(crate) fn grow(
    rt: &(impl Abort + AllocGlobal),
    disk: &MemDisk,
    name: &[u8],
    number: u32,
    power: u32,
) -> (MemDisk, (Result<(), RelFault>, u64, u32)) {
    let mut disk = loaded(rt, disk.bytes());
    let mut file = found(rt, &mut disk, name);
    let fuse = Fuse::new(disk, power);
    let mut metered = Meter::new(fuse);
    let answer = grow_to(&mut metered, &mut file, number);
    let (writes, disk) = passed(metered);
    (disk, (answer, writes, records(&file)))
}

/// Writes a text into a record from this position on: the disk then, the answer, and how many sectors were written.
pub(crate) fn write(
    rt: &(impl Abort + AllocGlobal),
    disk: &MemDisk,
    name: &[u8],
    (number, position): (u32, u8),
    text: &[u8],
) -> (MemDisk, (Result<(), RelFault>, u64)) {
    let mut fuse = fused(rt, disk, WHOLE);
    let mut file = found(rt, &mut fuse, name);
    assert!(rt;
        number > 0 && position > 0 && position <= file.length(),
        "there is no such position"
    );
    let answer = write_record(&mut fuse, &mut file, number, position, text);
    let (writes, disk) = passed(fuse);
    (disk, (answer, writes))
}

/// Reads a record: how many there are, and the answer.
pub(crate) fn read(
    rt: &impl Abort,
    disk: &mut MemDisk,
    name: &[u8],
    number: u32,
    text: &mut ArrayVec<u8, 254>,
) -> (u32, Result<(), RelFault>) {
    let file = found(rt, disk, name);
    (records(&file), read_record(disk, &file, number, text))
}

/// Mends the disk, with power that goes after so many writes. Returns whether that came to its end, how many sectors were
/// written, and the disk then.
pub(crate) fn repaired(
    rt: &(impl Abort + AllocGlobal),
    disk: &MemDisk,
    power: u32,
) -> (bool, u64, MemDisk) {
    let mut fuse = fused(rt, disk, power);
    let done = repair(&mut fuse).is_ok();
    let (writes, disk) = passed(fuse);
    (done, writes, disk)
}

/// The disk, mended.
pub(crate) fn mend(rt: &(impl Abort + AllocGlobal), disk: &MemDisk) -> MemDisk {
    let (done, _, mended) = repaired(rt, disk, WHOLE);
    holds(rt, done, "it is mended");
    mended
}
