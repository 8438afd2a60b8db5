//! Deleted entries, and what can be reached of their files.
ghost use Rattle.std.specs.Prelude.{◌≡◌, ◌≤◌, ◌+◌, ◌++◌, [], ◌∷◌, IfErr, IfOk, List, OnOk, filter, length};
ghost use Rattle.arrayvec.specs.ArrayVec.{array_vec_len};
ghost use Rattle.d64_image.specs.Memory.{disk_image};
ghost use Rattle.disk_layout.specs.Directory.{slots_in};
ghost use Rattle.damaged_files.specs.reached.Sharing as sharing;
ghost use Rattle.file_rescues.specs.rescue.Deleted as deleted;
ghost use Rattle.file_rescues.specs.rescue.Rescues.{AreChosen, AreUndeleted, with_untaken};
ghost use Rattle.file_rescues.specs.rescue.Sharing as specs;
ghost use Rattle.file_rescues.specs.rescue.Sharing.{owned, past_of};
ghost use Rattle.file_rescues.specs.declared.rescue.rescuing.Rescued.{Rescued};
ghost use Rattle.command_faults.specs.declared.faults.CommandFault.TheVariants as faults;

use crate::rescue::choices::Choice;
use crate::rescue::past_sharing::{first_among, past_of};
use crate::rescue::rescuing::{Rescued, rescue, rescue_all};
use crate::rescue::sharing::owners_of;
use crate::rescue::slots::used_of;
use arrayvec::ArrayVec;
use command_faults::CommandFault;
use d64_image::{MemDisk, Place};
use damaged_files::{Entries, entry_name};
use disk_layout::{EntryView, Slot};
use std::alloc::Global;

/// Whether the slot has an entry that was deleted: its type is 0, and it still has a name and a first block.
pub fn is_deleted(slot: &Slot) -> bool
    ensures { result ≡ deleted.is_deleted slot.now }
{
    let entry = EntryView::new(&slot.bytes);
    if entry.type_byte() != 0 || entry_name(slot).len() == 0 {
        return false;
    }
    entry.first_block().is_some()
}

/// Adds the deleted entries of the directory sector at `place`, which holds these bytes.
fn add_deleted(bytes: &[u8; 256], place: Place, entries: &mut Entries)
    requires { array_vec_len entries.old + 8 ≤ 144 }
    ensures items { entries.new.items ≡ entries.old.items ++ filter deleted.is_deleted (slots_in place bytes.now) }
    ensures room { array_vec_len entries.new ≤ array_vec_len entries.old + 8 }
{
    for number in 0..8u8 {
        let slot = Slot::in_sector(bytes, place, number);
        if is_deleted(&slot) {
            entries.push(slot);
        }
    }
}

/// The deleted entries of these directory sectors, in order.
pub fn deleted_of(disk: &MemDisk, directory: &[Place]) -> Entries
    requires { length directory.now ≤ 18 }
    ensures { result.items ≡ deleted.deleted_slots (disk_image disk.now) directory.now }
{
    let mut entries = ArrayVec::new();
    for &place in directory {
        add_deleted(disk.sector(place), place, &mut entries);
    }
    entries
}

/// The first block of this file that the map, the directory or one of these files has too.
fn shared_with(directory: &[Place], files: &[Rescued], file: &Rescued) -> Option<Place>
    ensures { result ≡ sharing.first_shared (owned directory.now (files.now ++ file.now ∷ [])) file.now.blocks.items }
{
    let blocks = file.blocks.as_slice();
    let mut owners = owners_of(directory, files);
    owners.add(blocks);
    owners.first_shared(blocks)
}

/// Whether a block of this file that can be reached is also the map's, the directory's or that of one of these files, of which these are
/// the sectors past track 35.
fn is_taken(directory: &[Place], files: &[Rescued], past: &[u16], file: &Rescued) -> bool
    requires { past.now ≡ past_of 1 files.now }
    ensures { result ≡ specs.is_taken directory.now files.now file.now }
{
    shared_with(directory, files, file).is_some()
        || first_among(past, file.sectors.as_slice()).is_some()
}

/// Adds this file, unless a block of it is taken. The only error is `NoMemory`.
fn add_untaken(files: &mut Vec<Rescued>, file: Rescued, taken: bool) -> Result<(), CommandFault>
    ensures ok { OnOk result (files.new.items ≡ files.old.items ++ with_untaken taken file []) }
    ensures err { IfErr result (λ fault. fault ≡ faults.NoMemory) }
{
    if taken {
        return Ok(());
    }
    if files.push(file).is_err() {
        return Err(CommandFault::NoMemory);
    }
    Ok(())
}

/// Adds what can be reached of the deleted entries of these directory sectors. Those are left out of which a block that
/// can be reached is also the map's, the directory's or one of the files'. The only error is `NoMemory`.
fn add_undeleted(
    alloc: Global,
    image: &[u8],
    disk: &MemDisk,
    directory: &[Place],
    files: &mut Vec<Rescued>,
) -> Result<(), CommandFault>
    requires { length directory.now ≤ 18 }
    ensures ok { OnOk result ((found : List Rescued) × (files.new.items ≡ files.old.items ++ found)
        × AreUndeleted image.now (disk_image disk.now) directory.now files.old.items
        (deleted.deleted_slots (disk_image disk.now) directory.now) found) }
    ensures err { IfErr result (λ fault. fault ≡ faults.NoMemory) }
{
    let used = files.as_slice().len();
    let past = past_of(files.as_slice(), 1);
    let mut room = ArrayVec::new();
    let entries = deleted_of(disk, directory);
    let slots = entries.as_slice();
    for slot in slots {
        let file = rescue(alloc, image, disk, slot, &mut room)?;
        let taken = is_taken(directory, &files.as_slice()[..used], past.as_slice(), &file);
        add_untaken(files, file, taken)?;
    }
    Ok(())
}

/// What can be reached of the files of the entries of these directory sectors of an image's disk, and of the deleted ones that are chosen.
/// The only error is `NoMemory`.
pub(crate) fn rescue_chosen(
    alloc: Global,
    image: &[u8],
    disk: &MemDisk,
    choice: Choice,
    directory: &[Place],
) -> Result<Vec<Rescued>, CommandFault>
    requires { length directory.now ≤ 18 }
    ensures ok { IfOk result (λ files. AreChosen choice image.now (disk_image disk.now) directory.now files.items) }
    ensures few { IfOk result (λ files. length files.items ≤ 144) }
    ensures err { IfErr result (λ fault. fault ≡ faults.NoMemory) }
{
    let entries = used_of(disk, directory);
    let mut files = rescue_all(alloc, image, disk, entries.as_slice())?;
    if choice.deleted {
        add_undeleted(alloc, image, disk, directory, &mut files)?;
    }
    Ok(files)
}
