//! Places for the first side sectors of relative entries that name none.
ghost use Rattle.std.specs.Prelude.{◌≡◌, ◌≤◌, ◌<◌, IsTrue, Some, false};
ghost use Rattle.d64_image.specs.Memory.{disk_image};
ghost use Rattle.d64_image.specs.Offsets.{overwritten};
ghost use Rattle.d64_image.specs.declared.place.Place as places;
ghost use Rattle.damaged_files.specs.sides.Named.{NamesNoSide, NamesSides, with_side};

use crate::sides::candidates::choose_first;
use crate::sides::planning::{Plan, begin_plan, find_blocks};
use crate::sides::taken::{add_all, unowned_places};
use arrayvec::ArrayVec;
use d64_image::{MemDisk, Place, Sectors};
use disk_layout::{EntryView, Slot};

/// The byte of a slot from which on the entry of a relative file names its first side sector.
const SIDE_AT: usize = 21;

/// Writes two bytes over those of a sector from byte `at` on.
pub(crate) fn overwrite(bytes: &mut [u8; 256], at: usize, new: &[u8; 2])
    requires { at ≤ 254 }
    ensures { bytes.new ≡ overwritten bytes.old at new.now }
{
    bytes[at..at + 2].copy_from_slice(new);
}

/// Writes a place into the entry, as that of its first side sector.
fn put_name(after: &mut MemDisk, slot: &Slot, side: Place)
    requires { slot.now.number < 8 }
    ensures { disk_image after.new ≡ with_side (disk_image after.old) slot.now side }
{
    let mut bytes = *after.sector(slot.sector);
    let at = 32 * slot.number as usize + SIDE_AT;
    overwrite(&mut bytes, at, &[side.track(), side.sector()]);
    // a disk in memory never fails
    let _ = after.write(slot.sector, &bytes);
}

/// A place for the first side sector of an entry, if it is of a relative file whose chain is whole and names none.
fn side_to_name(before: &mut MemDisk, slot: &Slot, plan: &mut Plan) -> Option<Place>
    ensures same { disk_image before.new ≡ disk_image before.old }
    ensures none { (q : places.Place) → result ≡ Some q → NamesNoSide slot.now }
{
    let entry = EntryView::new(&slot.bytes);
    if !entry.is_relative() || entry.first_side().is_some() || !find_blocks(before, slot, plan) {
        return None;
    }
    let unowned = unowned_places(plan.taken.as_slice());
    let side = choose_first(before, unowned.as_slice(), slot, plan.blocks.as_slice())?;
    add_all(&mut plan.taken, &[side]);
    Some(side)
}

/// Gives each relative entry that names no sector of the disk as its first side sector the place of one: where its first
/// side sector can be read, or a sector outside track 18 that is free in the map and that nobody owns. `after` is a copy
/// of `before`. False if there is no such entry; then `after` stays.
pub fn name_sides(before: &mut MemDisk, after: &mut MemDisk) -> bool
    requires copy { disk_image after.old ≡ disk_image before.old }
    ensures named { IsTrue result → NamesSides (disk_image before.old) (disk_image after.new) }
    ensures stays { result ≡ false → disk_image after.new ≡ disk_image after.old }
    ensures same { disk_image before.new ≡ disk_image before.old }
{
    let mut slots = ArrayVec::new();
    let Some(mut plan) = begin_plan(before, &mut slots) else {
        return false;
    };
    let mut any = false;
    for slot in slots.as_slice() {
        if let Some(side) = side_to_name(before, slot, &mut plan) {
            put_name(after, slot, side);
            any = true;
        }
    }
    any
}
