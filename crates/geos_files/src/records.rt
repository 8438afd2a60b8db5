//! The records of a file of GEOS.
ghost use Rattle.std.specs.Prelude.{◌≡◌, ◌≤◌, ◌+◌, ◌++◌, ◌∷◌, [], if◌then◌else◌, nat_eq};
ghost use Rattle.arrayvec.specs.ArrayVec.{array_vec_len};
ghost use Rattle.d64_image.specs.Images.{sector};
ghost use Rattle.d64_image.specs.Memory.{disk_image};
ghost use Rattle.geos_files.specs.Marked.{IsMarked};
ghost use Rattle.geos_files.specs.Reached.{AreRecords, IsRecord};

use crate::chains::add_chain;
use arrayvec::ArrayVec;
use d64_image::{MemDisk, Place};
use damaged_files::Reach;
use disk_layout::{DATA, Fault, MOST_BLOCKS, Visited};

/// How many records a file has: two bytes of the record block for each.
const RECORDS: usize = 127;

/// The most blocks of a record, since CVT counts them in a byte.
const MOST_OF_RECORD: usize = 255;

/// What a record has.
#[derive(Clone, Copy, Debug)]
struct Record {
    /// How many blocks.
    blocks: u8,
    /// The index of the last byte of the last one; without a block the second byte of its pair.
    last: u8,
    /// What ended its chain, if it wasn't its end.
    fault: Option<Fault>,
}

/// Adds the blocks of the record whose pair in the record block `at` is this track and this sector.
fn add_record(
    disk: &MemDisk,
    at: Place,
    track: u8,
    sector: u8,
    blocks: &mut ArrayVec<Place, MOST_BLOCKS>,
    visited: &mut Visited,
) -> Record
    requires marked { IsMarked visited.old blocks.old.items }
    ensures record { IsRecord (disk_image disk.now) at track sector blocks.old.items blocks.new.items result.blocks
        result.last result.fault }
    ensures marked { IsMarked visited.new blocks.new.items }
{
    if track == 0 {
        return Record {
            blocks: 0,
            last: sector,
            fault: None,
        };
    }
    let Some(first) = Place::new(track, sector) else {
        return Record {
            blocks: 0,
            last: 255,
            fault: Some(Fault::BadLink(at)),
        };
    };
    let had = blocks.len();
    let reach = add_chain(disk, at, first, MOST_OF_RECORD, blocks, visited);
    Record {
        blocks: (blocks.len() - had) as u8,
        last: reach.last,
        fault: reach.fault,
    }
}

/// The index of the last byte of the last block so far: the record's, if it has a block, or the one before.
fn last_of(found: &Record, before: u8) -> u8
    ensures { result ≡ (if nat_eq found.now.blocks 0 then before else found.now.last) }
{
    if found.blocks == 0 {
        before
    } else {
        found.last
    }
}

/// Adds a record's pair.
fn push_pair(pairs: &mut ArrayVec<u8, DATA>, found: &Record)
    requires { array_vec_len pairs.old + 2 ≤ 254 }
    ensures items { pairs.new.items ≡ pairs.old.items ++ found.now.blocks ∷ found.now.last ∷ [] }
    ensures room { array_vec_len pairs.new ≡ array_vec_len pairs.old + 2 }
{
    pairs.push(found.blocks);
    pairs.push(found.last);
}

/// Adds the blocks of all records whose first blocks the record block `at` names, and fills `pairs` with two bytes for each
/// record: how many blocks it has, and the index of its last byte in the last one. Returns the first fault of a record, and the
/// last index of the last record that has a block.
pub(crate) fn add_records(
    disk: &MemDisk,
    at: Place,
    blocks: &mut ArrayVec<Place, MOST_BLOCKS>,
    visited: &mut Visited,
    pairs: &mut ArrayVec<u8, DATA>,
) -> Reach
    requires marked { IsMarked visited.old blocks.old.items }
    ensures records { AreRecords (disk_image disk.now) at (sector (disk_image disk.now) at) 127 blocks.old.items
        blocks.new.items pairs.new.items result.fault result.last }
    ensures marked { IsMarked visited.new blocks.new.items }
{
    pairs.clear();
    let bytes = disk.sector(at);
    let mut fault = None;
    let mut last = 255;
    for number in 0..RECORDS {
        let place = 2 + 2 * number;
        let record = add_record(disk, at, bytes[place], bytes[place + 1], blocks, visited);
        push_pair(pairs, &record);
        fault = fault.or(record.fault);
        last = last_of(&record, last);
    }
    Reach { last, fault }
}
