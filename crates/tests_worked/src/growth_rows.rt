//! Growth that is cut after each write, checked and mended; side sectors past 120 and 240 blocks.
use crate::comparing::{holds, same_at};
use crate::disks::{Change, WHOLE, bytes_from, changed, clean, fresh, sector, sound_stock, stands};
use crate::records::{grow, repaired};
use d64_image::{MemDisk, Place};
use disk_layout::SideView;
use rel_records::{RelFault, records};
use std::process::Abort;

/// Repairs a copy of the disk, in which power fails after so many writes, then repairs that. Returns how many writes the
/// second repair made, and how many records STOCK has. The disk between is sound, and the last one clean.
pub(crate) fn mended(rt: &(impl Abort + AllocGlobal), disk: &MemDisk, power: u32) -> (u64, u32) {
    let (_, _, mut half) = repaired(rt, disk, power);
    let count = records(&sound_stock(rt, &mut half));
    let (done, writes, mut whole) = repaired(rt, &half, WHOLE);
    holds(rt, done, "it is mended");
    clean(rt, &mut whole);
    (writes, count)
}

/// The blank disk with STOCK grown to this record.
pub(crate) fn grown(rt: &(impl Abort + AllocGlobal), number: u32) -> MemDisk {
    let (disk, (answer, _, _)) = grow(rt, &fresh(rt), b"STOCK", number, WHOLE);
    same_at(rt, answer, Ok(()), ("record", number));
    disk
}

/// The disk whose STOCK grows to this record, if power fails after so many writes. It comes to its end if these are all
/// that it takes.
fn cut(
    rt: &(impl Abort + AllocGlobal),
    disk: &MemDisk,
    number: u32,
    writes: u32,
    all: u32,
) -> MemDisk {
    let (left, (answer, _, _)) = grow(rt, disk, b"STOCK", number, writes);
    same_at(
        rt,
        answer.is_ok(),
        writes == all,
        ("writes of the growth", writes),
    );
    left
}

/// Where a growth is cut: after so many writes; the records then, and the writes of the repair.
type Cut = (u32, u32, u32);

/// STOCK with 120 blocks gets a block, 14/3, and a side sector, 14/4. After the fifth write the file is longer.
static CUTS: [Cut; 7] = [
    (0, 1693, 0),
    (1, 1693, 1),
    (2, 1693, 1),
    (3, 1693, 1),
    (4, 1693, 2),
    (5, 1707, 1),
    (6, 1707, 0),
];

/// STOCK with 240 blocks gets 11/4 and 11/5. After these the older side sectors are written, 17/1 and then 14/4, which a
/// repair writes again. After the sixth write the file is longer.
static CUTS_OF_TWO: [Cut; 8] = [
    (0, 3386, 0),
    (1, 3386, 1),
    (2, 3386, 1),
    (3, 3386, 1),
    (4, 3386, 2),
    (5, 3386, 3),
    (6, 3400, 1),
    (7, 3400, 0),
];

/// Repairs what a growth left that was cut after so many writes, and cuts the repair after each of its own.
fn is_mended(rt: &(impl Abort + AllocGlobal), left: &MemDisk, (writes, count, mends): Cut) {
    for passed in 0..=mends {
        let told = mended(rt, left, passed);
        let row = ("writes of the growth and of the repair", writes, passed);
        same_at(rt, told, (u64::from(mends - passed), count), row);
    }
}

/// Cuts the growth of a disk's STOCK by a record more, which takes so many writes, by each row.
fn are_mended(rt: &(impl Abort + AllocGlobal), before: u32, whole: u32, rows: &[Cut]) {
    let disk = grown(rt, before);
    for &(writes, count, mends) in rows {
        let left = cut(rt, &disk, before.saturating_add(1), writes, whole);
        is_mended(rt, &left, (writes, count, mends));
    }
}

#[test]
fn growth_is_cut_and_mended(rt: HostRuntime) {
    are_mended(&rt, 1693, 6, &CUTS);
}

#[test]
fn growth_with_two_older_side_sectors_is_cut_and_mended(rt: HostRuntime) {
    are_mended(&rt, 3386, 7, &CUTS_OF_TWO);
}

/// How the older side sectors begin if that growth was cut after so many writes: the lower one, then the other.
type Older = (u32, &'static [u8], &'static [u8]);

static OLDER: [Older; 3] = [
    (
        3,
        b"\x0E\x04\0\x12\x11\x01\x0E\x04\0\0",
        b"\0\xFF\x01\x12\x11\x01\x0E\x04\0\0",
    ),
    (
        4,
        b"\x0E\x04\0\x12\x11\x01\x0E\x04\x0B\x05",
        b"\0\xFF\x01\x12\x11\x01\x0E\x04\0\0",
    ),
    (
        5,
        b"\x0E\x04\0\x12\x11\x01\x0E\x04\x0B\x05",
        b"\x0B\x05\x01\x12\x11\x01\x0E\x04\x0B\x05",
    ),
];

#[test]
fn older_side_sectors_are_written_in_turn(rt: HostRuntime) {
    let disk = grown(&rt, 3386);
    for (writes, lower, other) in &OLDER {
        let left = cut(&rt, &disk, 3387, *writes, 7);
        stands(&rt, &left, (17, 1, 0), lower);
        stands(&rt, &left, (14, 4, 0), other);
    }
}

/// A deleted entry after those of STOCK and REQUESTS, and the bits of track 1 in the map after its last sector.
static UNJUDGED: [Change; 2] = [
    (18, 1, 66, 30, b"\0\x13\x05OLD\xA0"),
    (18, 0, 7, 1, b"\xFF"),
];

/// Checks that they stay if growth by a block is cut after so many writes, or isn't, and so do the bytes after the entry.
fn unjudged_stays(rt: &(impl Abort + AllocGlobal), disk: &MemDisk, writes: u32) {
    let left = cut(rt, disk, 15, writes, 5);
    stands(rt, &left, (18, 0, 7), b"\xFF");
    let behind = bytes_from(disk, 18, 1, 64).get(..192);
    same_at(rt, bytes_from(&left, 18, 1, 64).get(..192), behind, writes);
}

// The map and the sector of the entry are both written.
#[test]
fn what_no_growth_judges_stays(rt: HostRuntime) {
    let disk = changed(fresh(&rt), &UNJUDGED);
    for writes in 0..6u32 {
        unjudged_stays(&rt, &disk, writes);
    }
}

/// The record to which STOCK grows, a side sector, its first sixteen bytes, and its first and last pointers.
type Side = (u32, (u8, u8), &'static [u8], (u8, u8), (u8, u8));

/// Side sectors of STOCK with 121 and with 241 blocks.
static SIDES: [Side; 5] = [
    (
        1694,
        (17, 1),
        b"\x0E\x04\0\x12\x11\x01\x0E\x04\0\0\0\0\0\0\0\0",
        (17, 0),
        (14, 2),
    ),
    (
        1694,
        (14, 4),
        b"\0\x11\x01\x12\x11\x01\x0E\x04\0\0\0\0\0\0\0\0",
        (14, 3),
        (0, 0),
    ),
    (
        3387,
        (17, 1),
        b"\x0E\x04\0\x12\x11\x01\x0E\x04\x0B\x05\0\0\0\0\0\0",
        (17, 0),
        (14, 2),
    ),
    (
        3387,
        (14, 4),
        b"\x0B\x05\x01\x12\x11\x01\x0E\x04\x0B\x05\0\0\0\0\0\0",
        (14, 3),
        (11, 3),
    ),
    (
        3387,
        (11, 5),
        b"\0\x11\x02\x12\x11\x01\x0E\x04\x0B\x05\0\0\0\0\0\0",
        (11, 4),
        (0, 0),
    ),
];

#[test]
fn side_sectors_are_exact(rt: HostRuntime) {
    for &(number, (track, side), head, first, last) in &SIDES {
        let mut disk = grown(&rt, number);
        let bytes = sector(&mut disk, track, side);
        same_at(&rt, &bytes[..16], head, (track, side, number));
        let view = SideView::new(&bytes);
        let ends = (view.block(0), view.block(119));
        let want = (Place::new(first.0, first.1), Place::new(last.0, last.1));
        same_at(&rt, ends, want, (track, side, number));
        clean(&rt, &mut disk);
    }
}

/// Records that don't fit, and the fault: 9,256 records fill the disk, and 720 blocks hold 10,160.
static TOO_MUCH: [(u32, RelFault); 4] = [
    (9257, RelFault::Full),
    (10160, RelFault::Full),
    (10161, RelFault::TooLarge),
    (65536, RelFault::TooLarge),
];

#[test]
fn too_much_is_refused(rt: HostRuntime) {
    for &(number, fault) in &TOO_MUCH {
        let (_, told) = grow(&rt, &fresh(&rt), b"STOCK", number, WHOLE);
        same_at(&rt, told, (Err(fault), 0, 14), ("record", number));
    }
}
