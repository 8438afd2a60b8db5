//! Entries of the directory, found by their names.
ghost use Rattle.std.specs.Prelude.{◌≡◌, ◌≤◌, ℕ, IfErr, IfOk, MatchOption, OnOk, length};
ghost use Rattle.d64_image.specs.History.{OnlyReads};
ghost use Rattle.disk_layout.specs.Layout.{IsLayout, IsSound, Layout};
ghost use Rattle.file_changes.specs.Entries.{FindsEntry, IsFirstNamed, IsFreeName, entries_of};
ghost use Rattle.file_changes.specs.Faults.{TellsChange};
ghost use Rattle.command_faults.specs.declared.faults.CommandFault.TheVariants.{Device, NoFile};
ghost use Rattle.disk_layout.specs.declared.slot.Slot.{Slot};

use arrayvec::ArrayVec;
use command_faults::CommandFault;
use d64_image::Sectors;
use disk_layout::{Slot, padded_name, read_directory};
use rel_records::has_padded_name;

/// The number, from 0, of the first of these entries whose name has these bytes.
pub(crate) fn first_named(entries: &[Slot], padded: &[u8; 16]) -> Option<usize>
    ensures { MatchOption result (IsFreeName entries.now padded.now)
        (λ n. (s : Slot) × IsFirstNamed entries.now padded.now n s) }
{
    for (number, entry) in entries.iter().enumerate() {
        if has_padded_name(entry, padded) {
            return Some(number);
        }
    }
    None
}

/// Lists the entries of the directory of a sound disk.
pub(crate) fn list_entries<D: Sectors>(
    disk: &mut D,
    entries: &mut ArrayVec<Slot, 144>,
) -> Result<(), CommandFault>
    requires sound { IsSound (D.history.image disk.old) }
    ensures ok { OnOk result ((l : Layout) → IsLayout (D.history.image disk.old) l
        → entries.new.items ≡ entries_of l) }
    ensures err { IfErr result (λ e. e ≡ Device) }
    ensures reads { OnlyReads D.history disk.old disk.new 18 }
    ensures failures { TellsChange D.history disk.old disk.new result }
{
    match read_directory(disk, entries) {
        Ok(()) => Ok(()),
        // a sound disk has a directory
        Err(_) => Err(CommandFault::Device),
    }
}

/// The first of these entries that has the name. `NoFile` if none has it.
pub fn choose_named(entries: &[Slot], padded: &[u8; 16]) -> Result<Slot, CommandFault>
    ensures ok { IfOk result (λ s. (n : ℕ) × IsFirstNamed entries.now padded.now n s) }
    ensures err { IfErr result (λ e. (e ≡ NoFile) × IsFreeName entries.now padded.now) }
{
    match first_named(entries, padded) {
        Some(number) => Ok(entries[number]),
        None => Err(CommandFault::NoFile),
    }
}

/// Finds the first entry of a sound disk that has this name, of whatever type. `NoFile` if none has it, `Device` if the
/// device failed. Nothing is written.
pub fn find_entry<D: Sectors>(disk: &mut D, name: &[u8]) -> Result<Slot, CommandFault>
    requires sound { IsSound (D.history.image disk.old) }
    requires name { length name.now ≤ 16 }
    ensures { FindsEntry D.history disk.old disk.new name.now result }
{
    let mut entries = ArrayVec::new();
    list_entries(disk, &mut entries)?;
    choose_named(entries.as_slice(), &padded_name(name))
}
