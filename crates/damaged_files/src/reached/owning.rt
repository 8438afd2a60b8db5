//! The owners of the sectors of a disk.
ghost use Rattle.std.specs.Prelude.{List};
ghost use Rattle.d64_image.specs.Memory.{disk_image};
ghost use Rattle.d64_image.specs.declared.place.Place.{Place};
ghost use Rattle.damaged_files.specs.reached.Owned.{CountsAll};
ghost use Rattle.damaged_files.specs.reached.Sharing.{IsOwned};

use crate::reached::reaching::reach_file;
use crate::reached::sharing::Owners;
use arrayvec::ArrayVec;
use d64_image::{MemDisk, Place};
use disk_layout::Slot;

/// How many have each sector: the map, a directory with these sectors, and the files of these entries, each with the
/// blocks that can be reached of it.
pub fn owners_of(disk: &MemDisk, directory: &[Place], slots: &[Slot]) -> Owners
    ensures { (all : List Place) × IsOwned (disk_image disk.now) directory.now slots.now all × CountsAll result all }
{
    let mut owners = Owners::of_directory(directory);
    let mut blocks = ArrayVec::new();
    for slot in slots {
        reach_file(disk, slot, &mut blocks);
        owners.add(blocks.as_slice());
    }
    owners
}
