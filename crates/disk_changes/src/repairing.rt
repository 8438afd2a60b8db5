//! The disk of an image repaired.
ghost use Rattle.std.specs.Prelude.{◌≡◌, ◌↔◌, IfErr, IfOk, IsTrue, None, OnOk, true};
ghost use Rattle.damaged_files.specs.cut.Geos.{HasGeosEntry};
ghost use Rattle.d64_image.specs.Memory.{disk_image, sectors_in};
ghost use Rattle.damaged_files.specs.cut.Settled.{IsSettled};
ghost use Rattle.damaged_files.specs.cut.Told.{IsShortfallOf};
ghost use Rattle.damaged_files.specs.declared.sides.planning.Loss.TheVariants.{Accepted, Refused};
ghost use Rattle.disk_changes.specs.Repairs.{
  IsMended,
  IsMendRefusal,
  IsRepaired,
  IsRepairRefusal,
  IsSettledAndMended,
  Lacks,
};

use crate::changes::Changed;
use crate::judging::taken_disk;
use crate::mended::kinds::judge_kind;
use crate::mended::mending::{print_mended, repair_image};
use crate::outcomes::in_memory;
use command_faults::{CommandFault, load};
use d64_image::MemDisk;
use damaged_files::{Loss, Shortfall, find_shortfall, has_geos_entry, settle};
use std::alloc::Global;

/// The image with its disk mended, whether or not a file is cut short, and a line for each sector that was mended or freed.
pub(crate) fn mended_image(alloc: Global, image: &[u8], free: bool) -> Result<Changed, CommandFault>
    ensures ok { IfOk result (IsMended image.now free) }
    ensures err { IfErr result (IsMendRefusal image.now) }
{
    let mut disk = load(alloc, image)?;
    let mut text = Vec::new(alloc);
    match repair_image(alloc, image, free, &mut disk, &mut text) {
        Ok(left) => Ok(Changed { disk, text, left }),
        Err(fault) => Err(in_memory(fault)),
    }
}

/// The disk of an image once what its files lost is settled.
fn settled_disk(alloc: Global, image: &[u8]) -> Result<MemDisk, CommandFault>
    ensures ok { IfOk result (λ disk. IsSettled (sectors_in image.now) (disk_image disk)) }
    ensures err { IfErr result (IsMendRefusal image.now) }
{
    let mut before = load(alloc, image)?;
    let mut after = load(alloc, image)?;
    settle(&mut before, &mut after)?;
    Ok(after)
}

/// Judges that no file of a disk lacks anything.
fn judge_whole(disk: &mut MemDisk) -> Result<(), CommandFault>
    ensures ok { OnOk result (IsShortfallOf (disk_image disk.old) None) }
    ensures err { IfErr result (Lacks (disk_image disk.old)) }
    ensures same { disk_image disk.new ≡ disk_image disk.old }
{
    match find_shortfall(disk) {
        None => Ok(()),
        Some(Shortfall::Short(place)) => Err(CommandFault::Short(place)),
        Some(Shortfall::Fewer(place)) => Err(CommandFault::Short(place)),
    }
}

/// The image once what its files lost is settled, with its disk mended, and a line for each sector that was settled, mended or
/// freed.
fn settled_and_mended(alloc: Global, image: &[u8], free: bool) -> Result<Changed, CommandFault>
    ensures ok { IfOk result (IsSettledAndMended image.now free) }
    ensures err { IfErr result (IsRepairRefusal image.now free Accepted) }
{
    let before = load(alloc, image)?;
    judge_kind(&before)?;
    let settled = settled_disk(alloc, image)?;
    let second = mended_image(alloc, settled.bytes(), free)?;
    let Changed { mut disk, left, .. } = second;
    judge_whole(&mut disk)?;
    let mut text = Vec::new(alloc);
    match print_mended(&mut text, &before, &mut disk, left) {
        Ok(()) => Ok(Changed { disk, text, left }),
        Err(fault) => Err(in_memory(fault)),
    }
}

/// Whether sectors that no file owns are to become free on a disk with a file of GEOS.
fn frees_geos(disk: &mut MemDisk, free: bool) -> bool
    ensures { IsTrue result ↔ ((free ≡ true) × HasGeosEntry (disk_image disk.old)) }
{
    free && has_geos_entry(disk)
}

/// The image with its disk mended, if no file of it is cut short. If sectors that no file owns are to become free, no file is one
/// of GEOS: they may hold its records.
fn whole_and_mended(alloc: Global, image: &[u8], free: bool) -> Result<Changed, CommandFault>
    ensures ok { IfOk result (IsRepaired image.now free Refused) }
    ensures err { IfErr result (IsRepairRefusal image.now free Refused) }
{
    let mut disk = taken_disk(alloc, image, Loss::Refused)?;
    if frees_geos(&mut disk, free) {
        return Err(CommandFault::Geos);
    }
    mended_image(alloc, image, free)
}

/// The image with its disk repaired, and a line for each sector that changed or was freed. If a loss is accepted, what the files
/// of the disk lost is settled first: no change refuses the disk for it afterwards.
pub(crate) fn repaired(
    alloc: Global,
    image: &[u8],
    free: bool,
    cut: Loss,
) -> Result<Changed, CommandFault>
    ensures ok { IfOk result (IsRepaired image.now free cut) }
    ensures err { IfErr result (IsRepairRefusal image.now free cut) }
{
    match cut {
        Loss::Refused => whole_and_mended(alloc, image, free),
        Loss::Accepted => settled_and_mended(alloc, image, free),
    }
}
