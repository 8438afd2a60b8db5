//! The side sectors of a disk, built anew from the chains of its relative files.
ghost use Rattle.std.specs.Prelude.{◌≡◌};
ghost use Rattle.d64_image.specs.Memory.{disk_image};
ghost use Rattle.damaged_files.specs.sides.Rebuilt.{RebuildsSides};

use crate::sides::judging::is_rebuilt;
use crate::sides::planning::{Loss, plan_sides};
use crate::sides::writing::write_changes;
use d64_image::{MemDisk, Sectors};
use disk_layout::Fault;
use layout_check::survey;

/// Builds the side sectors of relative files anew from their chains, if they disagree with their files. `before` and
/// `after` are copies of what the disk holds. The rebuilt disk is tried in `after`, and written to the disk only once it
/// is found sound.
///
/// A side sector keeps its place if it can be read, or if the file names its place, and nobody else owns it. Another one
/// goes to the first sector outside track 18 that is free in the map and that nobody owns. Only side sectors are written,
/// each once: the map, the directory, and all chains with their bytes stay. So does each of them in every image that the
/// disk holds on the way. Block counts and the map aren't made right.
///
/// The error is a fault that holds of the disk if something else is wrong than its side sectors. It is also such a fault
/// if an entry doesn't say where its first side sector is, or if no sector is left. So it is if a file is shorter than its
/// side sectors or its block count say, unless `shortened` is `Accepted`. Then nothing was written.
/// `Device` if the device failed: what was written until then stays. A sound disk isn't written.
pub fn rebuild_sides<D: Sectors>(
    before: &mut MemDisk,
    after: &mut MemDisk,
    shortened: Loss,
    disk: &mut D,
) -> Result<(), Fault>
    requires holds { disk_image before.old ≡ D.history.image disk.old }
    ensures rebuilds { RebuildsSides D.history disk.old disk.new result }
    ensures same { disk_image before.new ≡ disk_image before.old }
{
    let Err(fault) = survey(before) else {
        return Ok(());
    };
    plan_sides(before, after, shortened);
    if !is_rebuilt(before, after) {
        return Err(fault);
    }
    write_changes(before, after, disk)
}
