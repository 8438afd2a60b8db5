//! Sectors of disks in memory.
ghost use Rattle.std.specs.Prelude.{◌≡◌, IsTrue};
ghost use Rattle.d64_image.specs.Images.{sector};
ghost use Rattle.d64_image.specs.Memory.{disk_image};
ghost use Rattle.damaged_files.specs.sides.Compared.{SameAt};

use d64_image::{MemDisk, Place};

/// Whether the two disks have the same bytes at the place.
pub(crate) fn is_same(before: &MemDisk, after: &MemDisk, place: Place) -> bool
    ensures { IsTrue result → sector (disk_image before.now) place ≡ sector (disk_image after.now) place }
{
    before.sector(place) == after.sector(place)
}

/// Whether the two disks have the same bytes at each of these places.
pub(crate) fn are_same(before: &MemDisk, after: &MemDisk, places: &[Place]) -> bool
    ensures { IsTrue result → SameAt (disk_image before.now) (disk_image after.now) places.now }
{
    for &place in places {
        if !is_same(before, after, place) {
            return false;
        }
    }
    true
}
