//! The blank image made a second way: its two files created on a disk without files, and the second one grown.
ghost use Rattle.std.specs.Prelude.{◌≤◌};

use crate::comparing::{holds, same_at};
use crate::disks::{WHOLE, blank, sector};
use crate::records::{grow, make};
use d64_image::{MemDisk, Place, Sectors};
use disk_layout::{Bam, directory_start, map_place};
use std::process::Abort;

/// The same bytes of 18/0, with a map of a disk without files: all is free but 18/0 and 18/1.
fn without_files(mut bytes: [u8; 256]) -> [u8; 256] {
    for byte in &mut bytes[4..144] {
        *byte = 0;
    }
    let mut map = Bam::new(bytes);
    for track in 1..=35u8 {
        for number in 0..21u8 {
            let Some(place) = Place::new(track, number) else {
                continue;
            };
            if place != map_place() && place != directory_start() {
                map.give(place);
            }
        }
    }
    map.bytes
}

/// A disk without files, with this 18/0 and an empty 18/1.
fn empty_disk(rt: &(impl Abort + AllocGlobal), map: &[u8; 256]) -> MemDisk {
    let mut disk = MemDisk::zeroed(rt.alloc()).expect(rt, "a disk of zeros");
    let _ = disk.write(map_place(), map);
    let mut directory = [0; 256];
    directory[1] = 0xFF;
    let _ = disk.write(directory_start(), &directory);
    disk
}

/// Creates the two files on a disk without files, and lets the second one grow by a record for each till.
fn with_files(rt: &(impl Abort + AllocGlobal), disk: &MemDisk, tills: u8) -> MemDisk {
    let (disk, (stock, _)) = make(rt, disk, b"STOCK", 18, WHOLE);
    let (disk, (requests, _)) = make(rt, &disk, b"REQUESTS", 127, WHOLE);
    let (disk, (grown, _, _)) = grow(rt, &disk, b"REQUESTS", u32::from(tills), WHOLE);
    same_at(rt, [stock, requests, grown], [Ok(()); 3], tills);
    disk
}

/// Checks that a disk made so, with the name and the number of the blank one for so many tills, has its bytes.
fn is_blank(rt: &(impl Abort + AllocGlobal), tills: u8)
    requires some { 1 ≤ tills }
    requires few { tills ≤ 64 }
{
    let mut wanted = blank(rt, tills);
    let map = without_files(sector(&mut wanted, 18, 0));
    let disk = with_files(rt, &empty_disk(rt, &map), tills);
    holds(rt, disk.bytes() == wanted.bytes(), (tills, "tills"));
}

#[test]
fn a_blank_disk_is_created(rt: HostRuntime) {
    is_blank(&rt, 1);
    is_blank(&rt, 2);
    is_blank(&rt, 3);
    is_blank(&rt, 64);
}
