//! A deleted file of an image, made a file again.
ghost use Rattle.std.specs.Prelude.{◌≡◌, ◌≤◌, ◌<◌, ℕ, IfErr, IfOk, length};
ghost use Rattle.d64_image.specs.Memory.{disk_image};
ghost use Rattle.disk_layout.specs.Layout.{IsLayout, IsSound, Layout};
ghost use Rattle.disk_changes.specs.Undeletes.{IsKeptRight, IsNotRight, IsUndeletable, IsUndeleted, IsUndeleteRefusal, IsUnfound, with_type};

use crate::changes::Changed;
use crate::entry_types::EntryType;
use crate::judging::sound_taken_disk;
use crate::outcomes::changed;
use crate::repairing::{mended_image, repaired};
use arrayvec::ArrayVec;
use command_faults::CommandFault;
use d64_image::{MemDisk, Sectors};
use damaged_files::{Loss, read_so_far};
use disk_layout::{Slot, padded_name};
use file_changes::{choose_named, overwrite};
use file_rescues::deleted_of;
use std::alloc::Global;

/// The byte of a slot that has its type.
const TYPE_AT: usize = 2;

/// The first deleted entry of a sound disk that has this name. `FileExists` if an entry that isn't deleted has it, and
/// otherwise `NoFile` if none has it.
fn find_deleted(disk: &MemDisk, name: &[u8]) -> Result<Slot, CommandFault>
    requires sound { IsSound (disk_image disk.now) }
    requires name { length name.now ≤ 16 }
    ensures ok { IfOk result (λ s. (l : Layout) → IsLayout (disk_image disk.now) l
        → IsUndeletable (disk_image disk.now) l name.now s) }
    ensures low { IfOk result (λ s. s.number < 8) }
    ensures err { IfErr result (λ e. (l : Layout) → IsLayout (disk_image disk.now) l
        → IsUnfound (disk_image disk.now) l name.now e) }
{
    let mut sectors = ArrayVec::new();
    let mut entries = ArrayVec::new();
    let _ = read_so_far(disk, &mut sectors, &mut entries);
    let padded = padded_name(name);
    let deleted = deleted_of(disk, sectors.as_slice());
    match choose_named(entries.as_slice(), &padded) {
        Ok(_) => Err(CommandFault::FileExists),
        Err(_) => choose_named(deleted.as_slice(), &padded),
    }
}

/// Writes the type of a closed file that isn't locked over that of an entry.
fn put_type(disk: &mut MemDisk, entry: &Slot, kind: EntryType)
    requires { entry.now.number < 8 }
    ensures { disk_image disk.new ≡ with_type (disk_image disk.old) entry.now kind }
{
    let mut bytes = *disk.sector(entry.sector);
    overwrite(
        &mut bytes,
        32 * entry.number as usize + TYPE_AT,
        &[kind.type_byte()],
    );
    let _ = disk.write(entry.sector, &bytes);
}

/// The image repaired so that no sector becomes free. If a loss is accepted, a file that is cut short stays so.
fn kept_right(alloc: Global, image: &[u8], cut: Loss) -> Result<Changed, CommandFault>
    ensures ok { IfOk result (IsKeptRight image.now cut) }
    ensures err { IfErr result (IsNotRight image.now cut) }
{
    match cut {
        Loss::Refused => repaired(alloc, image, false, Loss::Refused),
        Loss::Accepted => mended_image(alloc, image, false),
    }
}

/// The image in which the first deleted entry of this name has this type. Its disk is then repaired, so that the map calls
/// its blocks taken, and no sector becomes free.
pub(crate) fn undeleted(
    alloc: Global,
    image: &[u8],
    name: &[u8],
    kind: EntryType,
    cut: Loss,
) -> Result<Changed, CommandFault>
    ensures ok { IfOk result (IsUndeleted image.now name.now kind cut) }
    ensures err { IfErr result (IsUndeleteRefusal image.now name.now kind cut) }
{
    let mut disk = sound_taken_disk(alloc, image, cut)?;
    if name.len() > 16 {
        return Err(CommandFault::NoFile);
    }
    let entry = find_deleted(&disk, name)?;
    put_type(&mut disk, &entry, kind);
    let mended = kept_right(alloc, disk.bytes(), cut)?;
    changed(alloc, mended.disk, b"UNDELETED\n")
}
