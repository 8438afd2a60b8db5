//! The blocks of a file of GEOS.
ghost use Rattle.std.specs.Prelude.{◌≢◌, ◌≤◌, length};
ghost use Rattle.d64_image.specs.Memory.{disk_image};
ghost use Rattle.geos_files.specs.Reached.{IsGeosReach};

use crate::chains::{add, add_chain};
use crate::entries::GeosEntry;
use crate::records::add_records;
use arrayvec::ArrayVec;
use d64_image::{MemDisk, Place, SECTORS};
use damaged_files::Reach;
use disk_layout::{DATA, MOST_BLOCKS, Visited};

/// Fills `blocks` with those of a file of GEOS that can be reached, each once: the info block, and then those of its chain;
/// or, if it has records, the record block and then those of each record. Fills `pairs` with two bytes for each of the 127
/// records, as CVT has them: how many blocks it has, and the index of its last byte in the last one. A file of one chain has no
/// pairs. Returns the index of the last byte of the last block that is the file's, and the first fault.
///
/// A chain ends early with `BadLink` at a block that links to no place of the disk, or to a block that the file has already;
/// at the record block, if that names such a block; and at a record's 255th block if that isn't its last. It ends with `Loop` at
/// the block to which its last one links back. The record then has what comes before, with all bytes of its last block, and the
/// other records have theirs.
pub fn reach_geos(
    disk: &MemDisk,
    entry: &GeosEntry,
    blocks: &mut ArrayVec<Place, MOST_BLOCKS>,
    pairs: &mut ArrayVec<u8, DATA>,
) -> Reach
    requires apart { entry.now.info ≢ entry.now.first }
    ensures reach { IsGeosReach (disk_image disk.now) entry.now blocks.new.items pairs.new.items result.fault result.last }
    ensures few { length blocks.new.items ≤ 683 }
{
    blocks.clear();
    pairs.clear();
    let mut visited = Visited::new();
    add(blocks, &mut visited, entry.info);
    if entry.has_records {
        add(blocks, &mut visited, entry.first);
        return add_records(disk, entry.first, blocks, &mut visited, pairs);
    }
    add_chain(disk, entry.info, entry.first, SECTORS, blocks, &mut visited)
}
