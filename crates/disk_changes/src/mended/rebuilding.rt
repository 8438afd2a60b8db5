//! The side sectors of a disk, built anew, and what is printed of that.
ghost use Rattle.std.specs.Prelude.{◌≡◌, IfErr, OnErr, OnOk};
ghost use Rattle.d64_image.specs.Memory.{sectors_in};
ghost use Rattle.disk_changes.specs.mended.Rebuilds.{IsRebuildDone, IsRebuildFault, IsRebuildPart};

use crate::mended::kinds::judge_kind;
use crate::mended::mending::{print_changed, refusal};
use command_faults::{CommandFault, load};
use d64_image::Sectors;
use damaged_files::{Loss, rebuild_sides};
use std::alloc::Global;
use std::io::Write;

/// Builds the side sectors of relative files anew as `rebuild_sides` does, if they disagree with their files, and prints
/// `MENDED t/s` for each that it changed, by track and sector. `image` is what the disk holds: its 174,848 bytes. Then
/// the disk is sound: `repair_image` makes the rest right.
///
/// Every image that the disk holds on the way has the directory and the chains of the first one, with all bytes; only
/// side sectors differ. A sound disk isn't written.
///
/// `ImageSize`, `NoMemory`, `Geos` and `Format` as `repair_image` has them, and `Layout` if the side sectors can't be
/// rebuilt, for a fault that holds: then nothing was written or printed. `Device` if the device failed; what was written
/// until then stays. `File` if the output failed: the side sectors are rebuilt. Then nothing was printed, or a first part
/// of the lines of the disk as it is rebuilt.
pub fn rebuild_image<D: Sectors, W: Write>(
    alloc: Global,
    image: &[u8],
    shortened: Loss,
    disk: &mut D,
    out: &mut W,
) -> Result<(), CommandFault>
    requires holds { D.history.image disk.old ≡ sectors_in image.now }
    ensures ok { OnOk result (IsRebuildDone D.history W.contents image.now disk.old disk.new out.old out.new) }
    ensures err { IfErr result (IsRebuildFault D.history image.now disk.old disk.new out.old out.new) }
    ensures part { OnErr result (IsRebuildPart D.history W.contents image.now disk.old disk.new out.old out.new) }
{
    let mut before = load(alloc, image)?;
    judge_kind(&before)?;
    let mut after = load(alloc, image)?;
    match rebuild_sides(&mut before, &mut after, shortened, disk) {
        Err(fault) => Err(refusal(fault)),
        Ok(()) => print_changed(out, &before, disk),
    }
}
