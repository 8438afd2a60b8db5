//! Records written past the end, and read on a full disk.
use crate::comparing::{same, same_at};
use crate::disks::{found, fresh, put, stands};
use crate::growth_rows::grown;
use crate::records::{read, write};
use arrayvec::ArrayVec;
use d64_image::{MemDisk, Meter};
use rel_records::{RelFault, read_record};
use std::process::Abort;

/// What a write of a record did: its answer, how many sectors it wrote, and how many records the file has then.
type Written = (Result<(), RelFault>, u64, u32);

/// Writes a text into a record of STOCK from this position on, and checks what is returned, and the record as it is read
/// back.
fn is_written(
    rt: &(impl Abort + AllocGlobal),
    disk: &MemDisk,
    place: (u32, u8),
    text: &[u8],
    told: Written,
    bytes: &[u8],
) -> MemDisk {
    let mut record = ArrayVec::new();
    let (mut disk, (answer, writes)) = write(rt, disk, b"STOCK", place, text);
    let (count, there) = read(rt, &mut disk, b"STOCK", place.0, &mut record);
    same_at(rt, (answer, writes, count), told, place);
    same_at(rt, (there, record.as_slice()), (Ok(()), bytes), place);
    disk
}

/// A card that is written into record 15.
const CARD: &[u8] = b"K,00015,000000007\r";

// On the blank disk, one after another. Record 15 needs a block, and lies in two: five writes and two. Then its second
// part alone is written. A text that is too long is cut.
#[test]
fn a_record_is_written(rt: HostRuntime) {
    let disk = is_written(&rt, &fresh(&rt), (15, 1), CARD, (Ok(()), 7, 28), CARD);
    let bytes = b"K,X\0\0\0\0\0\0\0\0\0\0\0\0\0\0\0";
    let disk = is_written(&rt, &disk, (15, 3), b"X", (Ok(()), 1, 28), bytes);
    let bytes = b"\xFF\0\0\0\0\0\0\0\0\0\0\0\0\0\0\0AB";
    let told = (Err(RelFault::Overflow), 1, 28);
    is_written(&rt, &disk, (1, 17), b"ABC", told, bytes);
}

/// The blank disk on which the block of STOCK has its last index at 19: one record.
fn short(rt: &(impl Abort + AllocGlobal)) -> MemDisk {
    let mut disk = fresh(rt);
    put(&mut disk, (17, 0, 1), &[19]);
    disk
}

// If STOCK has one record, record 2 is made with all others that fit.
#[test]
fn a_short_file_is_filled(rt: HostRuntime) {
    let mut disk = short(&rt);
    let told = read(&rt, &mut disk, b"STOCK", 2, &mut ArrayVec::new());
    same(&rt, told, (1, Err(RelFault::NotPresent)));
    let bytes = b"A\0\0\0\0\0\0\0\0\0\0\0\0\0\0\0\0\0";
    let disk = is_written(&rt, &disk, (2, 1), b"A", (Ok(()), 2, 14), bytes);
    stands(&rt, &disk, (17, 0, 1), b"\xFD");
}

/// How many sectors are read for a record of STOCK.
fn reads(rt: &impl Abort, disk: &mut Meter<MemDisk>, number: u32) -> u64 {
    let file = found(rt, disk, b"STOCK");
    let before = disk.reads();
    read_record(disk, &file, number, &mut ArrayVec::new()).expect(rt, "the record");
    disk.reads().wrapping_sub(before)
}

// On a full disk the last record is read with two sectors, and one that lies in two blocks with three.
#[test]
fn three_sectors_are_read(rt: HostRuntime) {
    let mut disk = Meter::new(grown(&rt, 9256));
    same_at(&rt, reads(&rt, &mut disk, 9256), 2, ("record", 9256));
    same_at(&rt, reads(&rt, &mut disk, 15), 3, ("record", 15));
}
