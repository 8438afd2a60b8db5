//! An image taken into memory and judged.
ghost use Rattle.std.specs.Prelude.{◌≡◌, ◌↔◌, IfErr, IfOk, IsTrue, OnOk, length};
ghost use Rattle.d64_image.specs.Memory.{disk_image, sectors_in};
ghost use Rattle.command_faults.specs.Faults.{IsLoadFault, IsSoundFault};
ghost use Rattle.disk_changes.specs.Judged.{
  HasStraysAlone,
  IsAcceptedFor,
  IsNamedCut,
  IsSoundDisk,
  IsTaken,
  IsUnsoundOrShort,
  IsUntaken,
  IsUnusable,
  IsUsableDisk,
  IsUsableFault,
};
ghost use Rattle.disk_changes.specs.mended.Kinds.{IsCutRefusal};

use crate::mended::kinds::is_geos_disk;
use command_faults::{CommandFault, load};
use d64_image::{MemDisk, Place};
use damaged_files::{Loss, cut_named, find_cut};
use layout_check::{check, repair_keeping, survey};
use std::alloc::Global;

/// Why a disk of which a file is cut short here isn't changed: `Geos` if it is one of GEOS, or has a file of GEOS, otherwise
/// `Short`.
fn cut_refusal(disk: &mut MemDisk, place: Place) -> CommandFault
    ensures { IsCutRefusal (disk_image disk.old) place result }
{
    if is_geos_disk(disk) {
        CommandFault::Geos
    } else {
        CommandFault::Short(place)
    }
}

/// The disk of an image in memory, if it is sound. Whether a file is cut short doesn't matter.
pub(crate) fn sound_disk(alloc: Global, image: &[u8]) -> Result<MemDisk, CommandFault>
    ensures ok { IfOk result (λ disk. IsSoundDisk image.now × (disk_image disk ≡ sectors_in image.now)) }
    ensures err { IfErr result (IsSoundFault image.now) }
{
    let mut disk = load(alloc, image)?;
    survey(&mut disk)?;
    Ok(disk)
}

/// The disk of an image in memory, unless a file of it is cut short and that isn't accepted. A disk that isn't sound has
/// no such file.
pub(crate) fn taken_disk(alloc: Global, image: &[u8], cut: Loss) -> Result<MemDisk, CommandFault>
    ensures ok { IfOk result (λ disk. IsTaken image.now cut × (disk_image disk ≡ sectors_in image.now)) }
    ensures err { IfErr result (IsUntaken image.now cut) }
{
    let mut disk = load(alloc, image)?;
    match cut {
        Loss::Accepted => Ok(disk),
        Loss::Refused => match find_cut(&mut disk, None) {
            Ok(Some(place)) => Err(cut_refusal(&mut disk, place)),
            Ok(None) => Ok(disk),
            Err(_) => Ok(disk),
        },
    }
}

/// Whether nothing is wrong with the disk of an image but that its map calls sectors taken that nobody owns: a repair that
/// leaves them so changes nothing.
fn has_strays_alone(alloc: Global, image: &[u8], disk: &MemDisk) -> Result<bool, CommandFault>
    requires { disk_image disk.now ≡ sectors_in image.now }
    ensures ok { IfOk result (λ alone. IsTrue alone ↔ HasStraysAlone (sectors_in image.now)) }
    ensures err { IfErr result (IsLoadFault image.now) }
{
    let mut kept = load(alloc, image)?;
    match repair_keeping(&mut kept) {
        Ok(_) => Ok(kept.bytes() == disk.bytes()),
        // the disk isn't sound
        Err(_) => Ok(false),
    }
}

/// Judges that nothing is wrong with the disk of an image but that its map calls sectors taken that nobody owns.
pub(crate) fn check_usable(alloc: Global, image: &[u8]) -> Result<(), CommandFault>
    ensures ok { OnOk result ((length image.now ≡ 174848) × HasStraysAlone (sectors_in image.now)) }
    ensures err { IfErr result (IsUsableFault image.now) }
{
    let mut disk = load(alloc, image)?;
    let Err(fault) = check(&mut disk) else {
        return Ok(());
    };
    if has_strays_alone(alloc, image, &disk)? {
        return Ok(());
    }
    Err(CommandFault::Layout(fault))
}

/// The disk of an image in memory, unless a file of it is cut short and that isn't accepted, or more is wrong with it than
/// that its map calls sectors taken that nobody owns.
pub(crate) fn usable_disk(alloc: Global, image: &[u8], cut: Loss) -> Result<MemDisk, CommandFault>
    ensures ok { IfOk result (λ disk. IsUsableDisk image.now cut × (disk_image disk ≡ sectors_in image.now)) }
    ensures err { IfErr result (IsUnusable image.now cut) }
{
    let disk = taken_disk(alloc, image, cut)?;
    check_usable(alloc, image)?;
    Ok(disk)
}

/// The disk of an image in memory, if it is sound, unless a file of it is cut short and that isn't accepted.
pub(crate) fn sound_taken_disk(
    alloc: Global,
    image: &[u8],
    cut: Loss,
) -> Result<MemDisk, CommandFault>
    ensures ok { IfOk result (λ disk. IsTaken image.now cut × IsSoundDisk image.now
        × (disk_image disk ≡ sectors_in image.now)) }
    ensures err { IfErr result (IsUnsoundOrShort image.now cut) }
{
    taken_disk(alloc, image, cut)?;
    sound_disk(alloc, image)
}

/// Whether the first file of this name on the image's disk is cut short. False also if the disk isn't sound.
fn is_named_cut(alloc: Global, image: &[u8], name: &[u8]) -> Result<bool, CommandFault>
    ensures ok { IfOk result (λ is. IsTrue is ↔ IsNamedCut image.now name.now) }
    ensures err { IfErr result (IsLoadFault image.now) }
{
    let mut disk = load(alloc, image)?;
    match cut_named(&mut disk, name) {
        Some(_) => Ok(true),
        None => Ok(false),
    }
}

/// Whether a change of the file of this name accepts that a file is cut short: if that is asked, or if it is this very file.
pub(crate) fn accepted_for(
    alloc: Global,
    image: &[u8],
    name: &[u8],
    asked: Loss,
) -> Result<Loss, CommandFault>
    ensures ok { IfOk result (IsAcceptedFor image.now name.now asked) }
    ensures err { IfErr result (IsLoadFault image.now) }
{
    if is_named_cut(alloc, image, name)? {
        Ok(Loss::Accepted)
    } else {
        Ok(asked)
    }
}
