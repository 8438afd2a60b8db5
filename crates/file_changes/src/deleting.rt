//! A file deleted.
ghost use Rattle.std.specs.Prelude.{◌≡◌, ◌≤◌, ◌⊎◌, ℕ, IfErr, IfOk, length};
ghost use Rattle.disk_layout.specs.Layout.{IsSound};
ghost use Rattle.disk_layout.specs.declared.slot.Slot.{Slot};
ghost use Rattle.file_changes.specs.Deletes.{Deletes, FindsDeletable, IsLocked};
ghost use Rattle.file_changes.specs.Entries.{IsFirstNamed, IsFreeName};
ghost use Rattle.rel_records.specs.Usable.{IsUsable};
ghost use Rattle.command_faults.specs.declared.faults.CommandFault.TheVariants.{Locked, NoFile};

use crate::entries::{first_named, list_entries};
use crate::freeing::free_left;
use crate::patching::patch_sector;
use arrayvec::ArrayVec;
use command_faults::CommandFault;
use d64_image::Sectors;
use disk_layout::{Slot, padded_name};
use layout_check::survey;

/// The byte of a slot that has its type.
const TYPE_AT: usize = 2;

/// The least type byte of a closed entry that is locked.
const LOCKED: u8 = 0xC0;

/// The first of these entries that has the name, unless it is locked.
fn choose_deletable(entries: &[Slot], padded: &[u8; 16]) -> Result<Slot, CommandFault>
    ensures ok { IfOk result (λ s. (n : ℕ) × IsFirstNamed entries.now padded.now n s × ¬ (IsLocked s)) }
    ensures not_found { IfErr result (λ e. e ≡ NoFile → IsFreeName entries.now padded.now) }
    ensures locked { IfErr result (λ e. e ≡ Locked
        → (n : ℕ) × (s : Slot) × IsFirstNamed entries.now padded.now n s × IsLocked s) }
    ensures told { IfErr result (λ e. (e ≡ NoFile) ⊎ (e ≡ Locked)) }
{
    let Some(number) = first_named(entries, padded) else {
        return Err(CommandFault::NoFile);
    };
    let entry = entries[number];
    if entry.bytes[TYPE_AT] >= LOCKED {
        return Err(CommandFault::Locked);
    }
    Ok(entry)
}

/// Finds the entry that is to be deleted; nothing is written.
fn find_deletable<D: Sectors>(disk: &mut D, name: &[u8]) -> Result<Slot, CommandFault>
    requires sound { IsSound (D.history.image disk.old) }
    requires name { length name.now ≤ 16 }
    ensures { FindsDeletable D.history disk.old disk.new name.now result }
{
    let mut entries = ArrayVec::new();
    list_entries(disk, &mut entries)?;
    choose_deletable(entries.as_slice(), &padded_name(name))
}

/// Deletes the first file that has this name, of whatever type: the type in its entry becomes 0, and then the map calls
/// its sectors free. The disk is clean before and after, but sectors may be taken in its map that nobody owns: these, and
/// no others, are so afterwards too. The file's bytes stay on the disk until another file takes its sectors.
///
/// `NoFile` if no entry has the name, `Locked` if the first that has it is locked (bit 6 of its type). Both write
/// nothing. `Device` if the device failed: the file is there or not, every other one is as it was, and perhaps the map
/// still calls the file's sectors taken, which `layout_check::repair` mends.
///
/// Two sectors at most are written. In each image that the disk holds on the way all other files are as they were.
pub fn delete<D: Sectors>(disk: &mut D, name: &[u8]) -> Result<(), CommandFault>
    requires usable { IsUsable (D.history.image disk.old) }
    requires name { length name.now ≤ 16 }
    ensures { Deletes D.history disk.old disk.new name.now result }
{
    let entry = find_deletable(disk, name)?;
    let Ok(before) = survey(disk) else {
        return Err(CommandFault::Device);
    };
    let at = 32 * entry.number as usize + TYPE_AT;
    let Ok(()) = patch_sector(disk, entry.sector, at, &[0]) else {
        return Err(CommandFault::Device);
    };
    match free_left(disk, &before) {
        Ok(()) => Ok(()),
        // the disk is sound
        Err(_) => Err(CommandFault::Device),
    }
}
