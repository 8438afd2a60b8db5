//! The entries of directory sectors.
ghost use Rattle.std.specs.Prelude.{◌≡◌, ◌≤◌, length};
ghost use Rattle.d64_image.specs.Memory.{disk_image};
ghost use Rattle.disk_layout.specs.Directory.{used_slots};

use arrayvec::ArrayVec;
use d64_image::{MemDisk, Place};
use damaged_files::Entries;
use disk_layout::add_used;

/// The entries of these directory sectors, in order.
pub(crate) fn used_of(disk: &MemDisk, directory: &[Place]) -> Entries
    requires { length directory.now ≤ 18 }
    ensures { result.items ≡ used_slots (disk_image disk.now) directory.now }
{
    let mut entries = ArrayVec::new();
    for &place in directory {
        add_used(disk.sector(place), place, &mut entries);
    }
    entries
}
