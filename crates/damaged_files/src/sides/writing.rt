//! Sectors of a disk in memory, written to a device.
ghost use Rattle.std.specs.Prelude.{◌≡◌, Some, ⊤};
ghost use Rattle.d64_image.specs.Memory.{disk_image};
ghost use Rattle.d64_image.specs.Places.{place_at};
ghost use Rattle.damaged_files.specs.sides.Taken.{Takes};

use d64_image::{MemDisk, Place, SECTORS, Sectors};
use disk_layout::{Fault, write_sector};

/// Writes the sector that `after` has at the place, if `before` has another.
fn write_place<D: Sectors>(
    before: &MemDisk,
    after: &MemDisk,
    place: Place,
    disk: &mut D,
) -> Result<(), Fault>
    ensures { Takes D.history (disk_image before.now) (disk_image after.now) (λ p. p ≡ place) disk.old disk.new result }
{
    let wanted = after.sector(place);
    if before.sector(place) == wanted {
        return Ok(());
    }
    write_sector(disk, place, wanted)
}

/// Writes the sectors that `after` has otherwise than `before`, each once, by track and sector.
pub(crate) fn write_changes<D: Sectors>(
    before: &MemDisk,
    after: &MemDisk,
    disk: &mut D,
) -> Result<(), Fault>
    ensures { Takes D.history (disk_image before.now) (disk_image after.now) (λ p. ⊤) disk.old disk.new result }
{
    for index in 0..SECTORS {
        write_place(before, after, Place::nth(index), disk)?;
    }
    Ok(())
}
