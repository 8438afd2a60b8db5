//! A file that gives up its only block.
ghost use Rattle.std.specs.Prelude.{◌≡◌, ◌≤◌, ◌<◌, ◌∷◌, ◌↔◌, ℕ, IfErr, IfOk, IsTrue, None, OnOk, [], length, slice_index};
ghost use Rattle.d64_image.specs.Memory.{disk_image};
ghost use Rattle.command_faults.specs.declared.faults.CommandFault.TheVariants.{NoFile};
ghost use Rattle.damaged_files.specs.reached.Reached.{IsReached};
ghost use Rattle.disk_changes.specs.Empties.{IsEmptied, IsGivenBack, IsWithoutBlock};
ghost use Rattle.disk_changes.specs.Rewrites.{IsUnlaid};
ghost use Rattle.disk_layout.specs.Layout.{IsLayout, IsSound, Layout};

use crate::copying::is_relative;
use crate::judging::sound_disk;
use crate::rewriting::{are_same, is_broken, plain_named, put_sector};
use crate::sorting::put_entry;
use arrayvec::ArrayVec;
use command_faults::CommandFault;
use d64_image::{MemDisk, Place, Sectors};
use damaged_files::reach_file;
use disk_layout::{Bam, MOST_BLOCKS, Slot, map_place};
use std::alloc::Global;

/// Whether the entry names no first block.
pub(crate) fn names_no_block(entry: &Slot) -> bool
    ensures { IsTrue result ↔ (slice_index entry.now.bytes 3 ≡ 0) }
{
    entry.bytes[3] == 0
}

/// The only block of the entry's file. `NoFile` if the file has none, or more, or if a fault is in the way.
fn only_block(disk: &MemDisk, slot: &Slot) -> Result<Place, CommandFault>
    ensures ok { IfOk result (λ p. (last : ℕ) × IsReached (disk_image disk.now) slot.now (p ∷ []) None last) }
    ensures err { IfErr result (λ why. why ≡ NoFile) }
{
    let mut blocks: ArrayVec<Place, MOST_BLOCKS> = ArrayVec::new();
    let reach = reach_file(disk, slot, &mut blocks);
    if is_broken(&reach) {
        return Err(CommandFault::NoFile);
    }
    if blocks.len() != 1 {
        return Err(CommandFault::NoFile);
    }
    Ok(blocks[0])
}

/// The slot with an entry that names no block, and counts none.
fn without_block(slot: &Slot) -> Slot {
    let mut entry = *slot;
    entry.bytes[3..5].copy_from_slice(&[0, 0]);
    entry.bytes[30..32].copy_from_slice(&[0, 0]);
    entry
}

/// Whether the entry names no block and counts none, and has the type and the name of another one. It isn't that of a relative file.
fn is_without_block(slot: &Slot, now: &Slot) -> bool
    ensures { IsTrue result → IsWithoutBlock slot.now now.now }
{
    if is_relative(now) {
        return false;
    }
    if now.bytes[2] != slot.bytes[2] {
        return false;
    }
    are_same(&now.bytes[5..21], &slot.bytes[5..21])
        && are_same(&now.bytes[3..5], &[0, 0])
        && are_same(&now.bytes[30..32], &[0, 0])
}

/// The map calls a sector free that it called taken. `NoFile`, and nothing is done, if the map calls that free already.
fn give_back(disk: &mut MemDisk, place: Place) -> Result<(), CommandFault>
    ensures ok { OnOk result (IsGivenBack (disk_image disk.old) place (disk_image disk.new)) }
    ensures err { IfErr result (λ why. why ≡ NoFile) }
{
    let mut map = Bam::new(*disk.sector(map_place()));
    if map.is_free(place) {
        return Err(CommandFault::NoFile);
    }
    map.give(place);
    put_sector(disk, map_place(), &map.bytes);
    Ok(())
}

/// The disk on which the first file of that name has given up its only block: its entry names none, and the map calls that block free.
/// The disk with that entry is judged. `NoFile` if the file has another number of blocks.
pub(crate) fn emptied(alloc: Global, disk: MemDisk, name: &[u8]) -> Result<MemDisk, CommandFault>
    requires sound { IsSound (disk_image disk) }
    requires name { length name.now ≤ 16 }
    ensures ok { IfOk result (λ after. (l : Layout) → IsLayout (disk_image disk) l
        → IsEmptied (disk_image disk) l name.now (disk_image after)) }
    ensures err { IfErr result IsUnlaid }
{
    let mut disk = disk;
    let slot = plain_named(&disk, name)?;
    let block = only_block(&disk, &slot)?;
    put_entry(&mut disk, &slot, &without_block(&slot));
    let mut judged = sound_disk(alloc, disk.bytes())?;
    let now = Slot::in_sector(judged.sector(slot.sector), slot.sector, slot.number);
    if !is_without_block(&slot, &now) {
        return Err(CommandFault::NoFile);
    }
    give_back(&mut judged, block)?;
    Ok(judged)
}
