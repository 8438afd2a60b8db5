//! Files created until the directory is full, names that are taken, and creation that is cut after each write.
ghost use Rattle.std.specs.Prelude.{◌≤◌, length};

use crate::comparing::{same, same_at};
use crate::disks::{WHOLE, fresh, put, sector, stands};
use crate::growth_rows::mended;
use crate::records::{make, mend};
use arrayvec::ArrayVec;
use d64_image::MemDisk;
use disk_layout::{BamView, read_directory};
use rel_records::RelFault;
use std::process::Abort;

/// Files whose entries fill 18/1.
static FILLING: [&[u8; 2]; 6] = [b"F3", b"F4", b"F5", b"F6", b"F7", b"F8"];

/// The disk with a file more of each of these names, whose entries 18/1 takes: four writes each.
fn with_files(rt: &(impl Abort + AllocGlobal), disk: MemDisk, names: &[&[u8; 2]]) -> MemDisk {
    let mut disk = disk;
    for name in names {
        let (after, made) = make(rt, &disk, *name, 254, WHOLE);
        same(rt, made, (Ok(()), 4));
        disk = after;
    }
    disk
}

/// The blank disk with six files more, which fill 18/1.
fn filled(rt: &(impl Abort + AllocGlobal)) -> MemDisk {
    with_files(rt, fresh(rt), &FILLING)
}

/// How many blocks are free, as the map counts them.
fn blocks_free(disk: &mut MemDisk) -> u16 {
    BamView::new(&sector(disk, 18, 0)).blocks_free()
}

// Six files fill 18/1 with four writes each; the seventh takes 18/2, and five.
#[test]
fn a_directory_sector_is_added(rt: HostRuntime) {
    let (mut disk, made) = make(&rt, &filled(&rt), b"F9", 254, WHOLE);
    same(&rt, made, (Ok(()), 5));
    same(&rt, blocks_free(&mut disk), 646);
    stands(&rt, &disk, (18, 0, 72), b"\x10\xF8\xFF\x07");
    stands(&rt, &disk, (18, 1, 0), b"\x12\x02");
    stands(&rt, &disk, (18, 2, 0), b"\0\xFF\x84\x11\x10");
    stands(&rt, &disk, (18, 2, 21), b"\x11\x11\xFE");
}

/// Makes a file named after this number.
fn make_numbered(
    rt: &(impl Abort + AllocGlobal),
    disk: &MemDisk,
    number: u8,
) -> (MemDisk, (Result<(), RelFault>, u64)) {
    let name = [
        b'F',
        b'0' + number / 100,
        b'0' + number / 10 % 10,
        b'0' + number % 10,
    ];
    make(rt, disk, &name, 254, WHOLE)
}

/// The disk with so many files more.
fn with_numbered(rt: &(impl Abort + AllocGlobal), disk: MemDisk, count: u8) -> MemDisk {
    let mut disk = disk;
    for number in 0..count {
        let (after, (answer, _)) = make_numbered(rt, &disk, number);
        same_at(rt, answer, Ok(()), ("file", number));
        disk = after;
    }
    disk
}

/// How many entries the directory lists.
fn entries(rt: &impl Abort, disk: &mut MemDisk) -> usize {
    let mut slots = ArrayVec::new();
    match read_directory(disk, &mut slots) {
        Ok(_) => slots.len(),
        Err(fault) => panic!(rt; "the directory isn't read: {fault:?}"),
    }
}

// 142 files fill the directory: track 18 is full, and the next one is refused with nothing written.
#[test]
fn the_directory_fills(rt: HostRuntime) {
    let disk = with_numbered(&rt, fresh(&rt), 142);
    let (mut disk, refused) = make_numbered(&rt, &disk, 142);
    same(&rt, refused, (Err(RelFault::Full), 0));
    same(&rt, blocks_free(&mut disk), 376);
    stands(&rt, &disk, (18, 0, 72), b"\0\0\0\0");
    same(&rt, entries(&rt, &mut disk), 144);
}

// A name is taken, whatever its entry's record length or type.
#[test]
fn a_name_is_taken(rt: HostRuntime) {
    let (mut disk, made) = make(&rt, &fresh(&rt), b"STOCK", 17, WHOLE);
    same(&rt, made, (Err(RelFault::Exists), 0));
    put(&mut disk, (18, 1, 2), b"\x82");
    let (_, made) = make(&rt, &mend(&rt, &disk), b"STOCK", 18, WHOLE);
    same(&rt, made, (Err(RelFault::Exists), 0));
}

/// After how many writes a creation is cut, and the writes of the repair then.
static CUTS: [(u32, u64); 5] = [(0, 0), (1, 1), (2, 1), (3, 1), (4, 0)];

/// The cuts of a creation that takes a directory sector.
static CUTS_WITH_SECTOR: [(u32, u64); 6] = [(0, 0), (1, 1), (2, 1), (3, 1), (4, 1), (5, 0)];

/// Cuts the creation of a file on a disk by each row; it makes so many writes if it isn't cut.
fn are_mended(
    rt: &(impl Abort + AllocGlobal),
    disk: &MemDisk,
    name: &[u8],
    size: u8,
    all: u32,
    rows: &[(u32, u64)],
)
    requires name { length name.now ≤ 16 }
    requires low { 1 ≤ size }
    requires high { size ≤ 254 }
{
    for &(writes, mends) in rows {
        let (left, (answer, _)) = make(rt, disk, name, size, writes);
        let told = (answer.is_ok(), mended(rt, &left, 0));
        same_at(rt, told, (writes == all, (mends, 14)), ("writes", writes));
    }
}

// Creation cut after each of its writes: what repair writes then.
#[test]
fn creation_is_cut_and_mended(rt: HostRuntime) {
    are_mended(&rt, &fresh(&rt), b"NEW", 80, 4, &CUTS);
    are_mended(&rt, &filled(&rt), b"F9", 254, 5, &CUTS_WITH_SECTOR);
}
