//! The directory of an image with its entries in the order of their names.
ghost use Rattle.std.specs.Prelude.{◌≡◌, ◌≤◌, ◌+◌, ◌++◌, ◌<◌, Contains, IfErr, IfOk, OnOk, length};
ghost use Rattle.arrayvec.specs.ArrayVec.{array_vec_len};
ghost use Rattle.d64_image.specs.Memory.{disk_image};
ghost use Rattle.command_faults.specs.declared.faults.CommandFault.TheVariants.{NoMemory};
ghost use Rattle.disk_layout.specs.Directory.{slots_in};
ghost use Rattle.disk_layout.specs.Layout.{IsLayout, IsSound, Layout};
ghost use Rattle.disk_layout.specs.declared.slot.Slot.{Slot};
ghost use Rattle.disk_changes.specs.Sorts.{AreInOrder, IsReordered, IsSorted, IsSortRefusal, all_slots, filled_name as filled};
ghost use Rattle.disk_changes.specs.Sorts.{rank as rank_of, with_entries, with_entry};

use crate::changes::Changed;
use crate::judging::sound_disk;
use crate::outcomes::changed;
use arrayvec::ArrayVec;
use command_faults::CommandFault;
use d64_image::{MemDisk, Place, Sectors};
use damaged_files::{Entries, entry_name, read_so_far};
use disk_layout::{EntryView, Slot};
use file_changes::overwrite;
use file_rescues::is_deleted;
use std::alloc::Global;

/// The byte of a slot with which its entry begins. Those before it aren't the entry's.
const ENTRY_AT: usize = 2;

/// The name of an entry, filled up with zeros.
fn filled_name(slot: &Slot) -> [u8; 16]
    ensures { result ≡ filled slot.now }
{
    let name = entry_name(slot);
    let mut filled = [0; 16];
    filled[..name.len()].copy_from_slice(name);
    filled
}

/// What a slot is sorted by.
fn rank(slot: &Slot) -> (u8, [u8; 16])
    ensures { result ≡ rank_of slot.now }
{
    if EntryView::new(&slot.bytes).type_byte() != 0 {
        return (0, filled_name(slot));
    }
    if is_deleted(slot) {
        return (1, [0; 16]);
    }
    (2, [0; 16])
}

/// Adds the slots of the directory sector at `place`, which holds these bytes.
fn add_slots(bytes: &[u8; 256], place: Place, slots: &mut Entries)
    requires { array_vec_len slots.old + 8 ≤ 144 }
    ensures items { slots.new.items ≡ slots.old.items ++ slots_in place bytes.now }
    ensures room { array_vec_len slots.new ≤ array_vec_len slots.old + 8 }
{
    for number in 0..8u8 {
        slots.push(Slot::in_sector(bytes, place, number));
    }
}

/// The slots of these directory sectors, in order.
fn slots_of(disk: &MemDisk, directory: &[Place]) -> Entries
    requires { length directory.now ≤ 18 }
    ensures { result.items ≡ all_slots (disk_image disk.now) directory.now }
{
    let mut slots = ArrayVec::new();
    for &place in directory {
        add_slots(disk.sector(place), place, &mut slots);
    }
    slots
}

/// These slots in order. The only error is `NoMemory`.
fn in_order(alloc: Global, slots: &[Slot]) -> Result<Vec<Slot>, CommandFault>
    ensures ok { IfOk result (λ sorted. AreInOrder slots.now sorted.items) }
    ensures err { IfErr result (λ e. e ≡ NoMemory) }
{
    let Ok(mut sorted) = Vec::from_slice(alloc, slots) else {
        return Err(CommandFault::NoMemory);
    };
    match sorted.sort_by_key(|slot| rank(slot)) {
        Ok(()) => Ok(sorted),
        Err(_) => Err(CommandFault::NoMemory),
    }
}

/// Writes the entry of one slot over that of another, which is on the disk.
pub(crate) fn put_entry(disk: &mut MemDisk, at: &Slot, entry: &Slot)
    requires { at.now.number < 8 }
    ensures { disk_image disk.new ≡ with_entry (disk_image disk.old) at.now entry.now }
{
    let mut bytes = *disk.sector(at.sector);
    overwrite(
        &mut bytes,
        32 * at.number as usize + ENTRY_AT,
        &entry.bytes[ENTRY_AT..],
    );
    let _ = disk.write(at.sector, &bytes);
}

/// Writes the entries of as many slots over those of the others, in order.
fn put_entries(disk: &mut MemDisk, slots: &[Slot], entries: &[Slot])
    requires low { (s : Slot) → Contains slots.now s → s.number < 8 }
    requires many { length entries.now ≡ length slots.now }
    ensures { disk_image disk.new ≡ with_entries (disk_image disk.old) slots.now entries.now }
{
    for (number, at) in slots.iter().enumerate() {
        put_entry(disk, at, &entries[number]);
    }
}

/// Sorts the directory of a sound disk. The only error is `NoMemory`.
fn sort_directory(alloc: Global, disk: &mut MemDisk) -> Result<(), CommandFault>
    requires { IsSound (disk_image disk.old) }
    ensures ok { OnOk result ((l : Layout) → IsLayout (disk_image disk.old) l
        → IsReordered (disk_image disk.old) l.directory (disk_image disk.new)) }
    ensures err { IfErr result (λ e. e ≡ NoMemory) }
{
    let mut sectors = ArrayVec::new();
    let mut entries = ArrayVec::new();
    let _ = read_so_far(disk, &mut sectors, &mut entries);
    let slots = slots_of(disk, sectors.as_slice());
    let sorted = in_order(alloc, slots.as_slice())?;
    put_entries(disk, slots.as_slice(), sorted.as_slice());
    Ok(())
}

/// The image with the entries of its directory in the order of their names, then deleted ones, and then free slots. The
/// new disk is judged, too.
pub(crate) fn sorted(alloc: Global, image: &[u8]) -> Result<Changed, CommandFault>
    ensures ok { IfOk result (IsSorted image.now) }
    ensures err { IfErr result (IsSortRefusal image.now) }
{
    let mut disk = sound_disk(alloc, image)?;
    sort_directory(alloc, &mut disk)?;
    let judged = sound_disk(alloc, disk.bytes())?;
    changed(alloc, judged, b"SORTED\n")
}
