//! An entry of the directory gets another name.
ghost use Rattle.std.specs.Prelude.{◌≡◌, ◌≤◌, ◌⊎◌, ℕ, IfErr, IfOk, length};
ghost use Rattle.disk_layout.specs.Layout.{IsSound};
ghost use Rattle.disk_layout.specs.Rest.{slot_name};
ghost use Rattle.file_changes.specs.Entries.{IsFirstNamed, IsFreeName};
ghost use Rattle.file_changes.specs.Renames.{FindsRenamable, Renames};
ghost use Rattle.command_faults.specs.declared.faults.CommandFault.TheVariants.{FileExists, NoFile};

use crate::entries::{first_named, list_entries};
use crate::patching::patch_sector;
use arrayvec::ArrayVec;
use command_faults::CommandFault;
use d64_image::Sectors;
use disk_layout::{Slot, padded_name};

/// The byte of a slot with which its name begins.
const NAME_AT: usize = 5;

/// The first of these entries that has the one name, if none has the other.
fn choose(entries: &[Slot], from: &[u8; 16], to: &[u8; 16]) -> Result<Slot, CommandFault>
    ensures ok { IfOk result (λ s. (n : ℕ) × IsFirstNamed entries.now from.now n s × IsFreeName entries.now to.now) }
    ensures not_found { IfErr result (λ e. e ≡ NoFile → IsFreeName entries.now from.now) }
    ensures exists { IfErr result (λ e. e ≡ FileExists
        → ¬ (IsFreeName entries.now from.now) × ¬ (IsFreeName entries.now to.now)) }
    ensures told { IfErr result (λ e. (e ≡ NoFile) ⊎ (e ≡ FileExists)) }
{
    let Some(number) = first_named(entries, from) else {
        return Err(CommandFault::NoFile);
    };
    if first_named(entries, to).is_some() {
        return Err(CommandFault::FileExists);
    }
    Ok(entries[number])
}

/// Finds the entry that is to be renamed; nothing is written.
fn find_renamable<D: Sectors>(disk: &mut D, from: &[u8], to: &[u8]) -> Result<Slot, CommandFault>
    requires sound { IsSound (D.history.image disk.old) }
    requires from { length from.now ≤ 16 }
    requires to { length to.now ≤ 16 }
    ensures { FindsRenamable D.history disk.old disk.new from.now to.now result }
{
    let mut entries = ArrayVec::new();
    list_entries(disk, &mut entries)?;
    choose(entries.as_slice(), &padded_name(from), &padded_name(to))
}

/// Renames the first entry of the directory that has the name `from`, whatever its type is, locked or not: it gets the
/// name `to`, of at most sixteen bytes. One sector is written, in which only the sixteen bytes of the name change. The
/// disk is sound; a clean one stays clean.
///
/// `NoFile` if no entry has the first name; otherwise `FileExists` if an entry has the second one. Both write nothing. The
/// new name isn't judged: whoever asks sees to it that it doesn't end in a shifted space. `Device` if the device failed:
/// the entry has the one name or the other.
pub fn rename<D: Sectors>(disk: &mut D, from: &[u8], to: &[u8]) -> Result<(), CommandFault>
    requires sound { IsSound (D.history.image disk.old) }
    requires from { length from.now ≤ 16 }
    requires to { length to.now ≤ 16 }
    ensures { Renames D.history disk.old disk.new from.now to.now result }
{
    let entry = find_renamable(disk, from, to)?;
    let at = 32 * entry.number as usize + NAME_AT;
    match patch_sector(disk, entry.sector, at, &padded_name(to)) {
        Ok(()) => Ok(()),
        Err(_) => Err(CommandFault::Device),
    }
}
