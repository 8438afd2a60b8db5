//! Disks that another program may have made. They have last indices that fit no record, a file on track 18, or records of
//! one byte or of 254. Or they have locked files, names that stand twice, or a side sector that names a block too many.
ghost use Rattle.std.specs.Prelude.{◌≤◌};

use crate::comparing::same_at;
use crate::disks::{WHOLE, found, fresh, put, sector, sound_stock, stands};
use crate::records::{grow, make, mend, read, write};
use arrayvec::ArrayVec;
use d64_image::MemDisk;
use rel_records::{RelFault, RelFile, read_record, records};
use std::process::Abort;

/// How many records STOCK has.
fn count(rt: &impl Abort, disk: &mut MemDisk) -> u32 {
    records(&found(rt, disk, b"STOCK"))
}

/// Writes `A` into a record of STOCK. Returns how many records there were, how many sectors were written, how many
/// records there are, and the last index of the file's one block.
fn written(rt: &(impl Abort + AllocGlobal), mut disk: MemDisk, number: u32) -> (u32, u64, u32, u8) {
    let before = count(rt, &mut disk);
    let (mut disk, (answer, writes)) = write(rt, &disk, b"STOCK", (number, 1), b"A");
    same_at(rt, answer, Ok(()), number);
    (
        before,
        writes,
        count(rt, &mut disk),
        sector(&mut disk, 17, 0)[1],
    )
}

/// A byte of the blank disk that is another one, a record that is written then, and what `written` returns.
type Changed = ((u8, u8, u8), u8, u32, (u32, u64, u32, u8));

/// Below 2 the last index says that its block has no used byte. If it says more than whole records have, the rest counts
/// for nothing; the block is filled only if a whole record more fits into it. A locked file is written as any other.
static CHANGED: [Changed; 6] = [
    ((17, 0, 1), 0, 1, (0, 2, 14, 0xFD)),
    ((17, 0, 1), 1, 1, (0, 2, 14, 0xFD)),
    ((17, 0, 1), 30, 1, (1, 1, 1, 30)),
    ((17, 0, 1), 30, 2, (1, 2, 14, 0xFD)),
    ((17, 0, 1), 255, 14, (14, 1, 14, 0xFF)),
    ((18, 1, 2), 0xC4, 14, (14, 1, 14, 0xFD)),
];

#[test]
fn last_indices_and_a_locked_file(rt: HostRuntime) {
    for &(place, byte, record, wanted) in &CHANGED {
        let mut disk = fresh(&rt);
        put(&mut disk, place, &[byte]);
        same_at(&rt, written(&rt, disk, record), wanted, (byte, record));
    }
}

/// The blank disk with the block of STOCK in 18/5.
fn with_block_on_track_18(rt: &(impl Abort + AllocGlobal)) -> MemDisk {
    let mut disk = fresh(rt);
    let block = sector(&mut disk, 17, 0);
    put(&mut disk, (18, 5, 0), &block);
    put(&mut disk, (18, 1, 3), &[18, 5]);
    put(&mut disk, (17, 1, 16), &[18, 5]);
    mend(rt, &disk)
}

/// The text of record 15.
const CARD: &[u8] = b"K,00015,000000007\r";

// The next block is taken outside track 18, and record 15 lies in both.
#[test]
fn a_block_on_track_18(rt: HostRuntime) {
    let (mut disk, told) = write(&rt, &with_block_on_track_18(&rt), b"STOCK", (15, 1), CARD);
    same_at(&rt, told, (Ok(()), 7), "writes");
    let mut text = ArrayVec::new();
    let told = read(&rt, &mut disk, b"STOCK", 15, &mut text);
    same_at(&rt, told, (28, Ok(())), "records");
    same_at(&rt, text.as_slice(), CARD, "record 15");
    stands(&rt, &disk, (18, 5, 0), &[17, 0]);
}

/// The blank disk with a file `NEW` of this record length.
fn with_new(rt: &(impl Abort + AllocGlobal), size: u8) -> MemDisk
    requires low { 1 ≤ size }
    requires high { size ≤ 254 }
{
    let (disk, (answer, _)) = make(rt, &fresh(rt), b"NEW", size, WHOLE);
    same_at(rt, answer, Ok(()), size);
    disk
}

/// Writes this text into a record of `NEW`. Returns the records before and after, how many sectors growth and writing
/// took, and whether the record is read so.
fn made(
    rt: &(impl Abort + AllocGlobal),
    disk: &mut MemDisk,
    number: u32,
    text: &[u8],
) -> (u32, u32, u64, bool) {
    let before = records(&found(rt, disk, b"NEW"));
    let (mut disk, (answer, writes)) = write(rt, disk, b"NEW", (number, 1), text);
    let mut read_back = ArrayVec::new();
    let (after, there) = read(rt, &mut disk, b"NEW", number, &mut read_back);
    same_at(rt, (answer, there), (Ok(()), Ok(())), number);
    (before, after, writes, read_back.as_slice() == text)
}

/// Checks what is returned for a file of this record length and for a record of it.
fn is_made(rt: &(impl Abort + AllocGlobal), size: u8, number: u32, wanted: (u32, u32, u64, bool))
    requires low { 1 ≤ size }
    requires high { size ≤ 254 }
{
    let text = &[0x5A; 254][..usize::from(size)];
    let told = made(rt, &mut with_new(rt, size), number, text);
    same_at(rt, told, wanted, (size, number));
}

// The shortest records and the longest: 254 to a block, and one. Growth takes five sectors a block, the record one.
#[test]
fn records_of_one_byte_and_of_254(rt: HostRuntime) {
    is_made(&rt, 1, 254, (254, 254, 1, true));
    is_made(&rt, 1, 255, (254, 508, 6, true));
    is_made(&rt, 254, 1, (1, 1, 1, true));
    is_made(&rt, 254, 2, (1, 2, 6, true));
    is_made(&rt, 254, 4, (1, 4, 16, true));
}

/// Finds STOCK on the blank disk, both entries of which are named so, the first one of this type.
fn found_of_two(rt: &(impl Abort + AllocGlobal), kind: u8) -> RelFile {
    let mut disk = fresh(rt);
    put(&mut disk, (18, 1, 37), b"STOCK\xA0\xA0\xA0");
    put(&mut disk, (18, 1, 2), &[kind]);
    found(rt, &mut mend(rt, &disk), b"STOCK")
}

/// The type of the first entry, the entry that is found, and its record length. A program is passed
/// over, and a free slot is no entry.
static TWICE: [(u8, usize, u8); 4] = [(0x84, 0, 18), (0xC4, 0, 18), (0x82, 1, 127), (0, 0, 127)];

// The first closed relative entry is found.
#[test]
fn names_that_stand_twice(rt: HostRuntime) {
    for &(kind, entry, length) in &TWICE {
        let file = found_of_two(&rt, kind);
        same_at(&rt, (file.entry(), file.length()), (entry, length), kind);
    }
}

/// How many records STOCK of a sound disk has, and what reading one of them returns.
fn read_of_sound(
    rt: &impl Abort,
    disk: &mut MemDisk,
    number: u32,
    text: &mut ArrayVec<u8, 254>,
) -> (u32, Result<(), RelFault>) {
    let file = sound_stock(rt, disk);
    (records(&file), read_record(disk, &file, number, text))
}

/// Record 14 of a blank disk.
const UNUSED: &[u8] = b"\xFF\0\0\0\0\0\0\0\0\0\0\0\0\0\0\0\0\0";

// Growth was cut before the link: the side sector names a block that the chain doesn't come to. The chain decides: the
// file has fourteen records still, and is found, read and grown so.
#[test]
fn a_side_sector_names_a_block_too_many(rt: HostRuntime) {
    let (mut disk, _) = grow(&rt, &fresh(&rt), b"STOCK", 15, 3);
    stands(&rt, &disk, (17, 1, 16), &[17, 0, 17, 4]);
    let mut text = ArrayVec::new();
    let missing = read_of_sound(&rt, &mut disk, 15, &mut text);
    same_at(&rt, missing, (14, Err(RelFault::NotPresent)), "record 15");
    let there = read_of_sound(&rt, &mut disk, 14, &mut text);
    same_at(&rt, there, (14, Ok(())), "record 14");
    same_at(&rt, text.as_slice(), UNUSED, "its bytes");
    let (_, grown) = grow(&rt, &mend(&rt, &disk), b"STOCK", 15, WHOLE);
    same_at(&rt, grown, (Ok(()), 5, 28), "growth");
}
