//! The side sectors of a relative entry, checked as far as a sound disk requires.
ghost use Rattle.std.specs.Prelude.{◌+◌, ◌*◌, ◌<◌, ◌≤◌, IfErr, IsFalse, IsTrue, OnOk, length};
ghost use Rattle.disk_layout.specs.Fault.{IsClosed};
ghost use Rattle.disk_layout.specs.Layout.{is_rel, sides_for};
ghost use Rattle.layout_check.specs.Calls.{Passes, TellsUnsound};
ghost use Rattle.layout_check.specs.Sides.{AreLinkedSides, HasNumber, HasOtherFields, HasOtherNumber, HasSideFields};
ghost use Rattle.layout_check.specs.Sides.{IsMisnamed, IsRelEntry, IsSoundSide, IsUnsoundSide, NamesEach};
ghost use Rattle.layout_check.specs.SurveyedSides.{FindsParts, SurveysSides};

use crate::blocks::survey_blocks;
use crate::parts::FileSectors;
use arrayvec::ArrayVec;
use d64_image::{Place, Sectors};
use disk_layout::{
    EntryView, Fault, LIST_AT, POINTERS, POINTERS_AT, SideView, Slot, read_sector, side_bytes,
};

/// Whether the bytes from `at` on name these places in order, track and sector of each.
fn names_each(sector: &[u8; 256], at: usize, places: &[Place]) -> bool
    requires { at + 2 * length places.now ≤ 256 }
    ensures right { IsTrue result → NamesEach sector.now at places.now }
    ensures wrong { IsFalse result → IsMisnamed sector.now at places.now }
{
    // without an exit at the first difference, so that several places are compared at once
    let mut same = true;
    for (number, place) in places.iter().enumerate() {
        let byte = at + 2 * number;
        same &= (sector[byte] == place.track()) & (sector[byte + 1] == place.sector());
    }
    same
}

/// Whether a sector has the number, from 0, and the record length of a side sector of this entry.
fn is_numbered(sector: &[u8; 256], number: usize, slot: &Slot) -> bool
    ensures right { IsTrue result → HasNumber sector.now slot.now number }
    ensures wrong { IsFalse result → HasOtherNumber sector.now slot.now number }
{
    let side = SideView::new(sector);
    let record_length = EntryView::new(&slot.bytes).record_length();
    side.number() as usize == number && side.record_length() == record_length
}

/// Whether the bytes of a sector are those of side sector `number`, from 0, of an entry with these blocks: its number,
/// its record length and its pointers. The list of side sectors and the link are checked elsewhere.
fn is_side(sector: &[u8; 256], number: usize, slot: &Slot, blocks: &[Place]) -> bool
    requires { number < sides_for (length blocks.now) }
    ensures right { IsTrue result → HasSideFields sector.now slot.now blocks.now number }
    ensures wrong { IsFalse result → HasOtherFields sector.now slot.now blocks.now number }
{
    if !is_numbered(sector, number, slot) {
        return false;
    }
    let start = POINTERS * number;
    let end = blocks.len().min(start + POINTERS);
    names_each(sector, POINTERS_AT, &blocks[start..end])
}

/// Whether the bytes of a sector are those of side sector `number`, as in `is_side`, and list all side sectors:
/// everything that a sound disk requires of it except its link.
// Out of line: called only if the bytes aren't exact
#[inline(never)]
fn is_sound_side(
    sector: &[u8; 256],
    number: usize,
    slot: &Slot,
    blocks: &[Place],
    sides: &[Place],
) -> bool
    requires number { number < sides_for (length blocks.now) }
    requires few { length sides.now ≤ 6 }
    ensures right { IsTrue result → IsSoundSide sector.now slot.now blocks.now sides.now number }
    ensures wrong { IsFalse result → IsUnsoundSide sector.now slot.now blocks.now sides.now number }
{
    is_side(sector, number, slot, blocks) && names_each(sector, LIST_AT, sides)
}

/// Follows the links of a closed relative entry's side sectors from the first on, as many as these blocks need, and
/// fills `sides` with their places in order. Each one's number and record length are checked.
///
/// Errors: `BadSide` at the entry's directory sector if the entry names no first side sector; `BadSide` at a side
/// sector that has another number or record length, or doesn't link to the one that it lists as the next; and `Device`.
fn walk_sides<D: Sectors>(
    disk: &mut D,
    slot: &Slot,
    blocks: &[Place],
    sides: &mut ArrayVec<Place, 6>,
) -> Result<(), Fault>
    requires entry { IsRelEntry (D.history.image disk.old) slot.now blocks.now }
    requires few { length blocks.now ≤ 720 }
    ensures sides { OnOk result (AreLinkedSides (D.history.image disk.old) slot.now blocks.now sides.new.items) }
    ensures ok { OnOk result (Passes D.history disk.old disk.new (length sides.new.items)) }
    ensures err { IfErr result (TellsUnsound D.history disk.old disk.new 6) }
{
    sides.clear();
    let Some(first) = EntryView::new(&slot.bytes).first_side() else {
        return Err(Fault::BadSide(slot.sector));
    };
    let needed = blocks.len().div_ceil(POINTERS);
    let mut at = first;
    let mut sector = [0u8; 256];
    for number in 0..needed {
        read_sector(disk, at, &mut sector)?;
        if !is_numbered(&sector, number, slot) {
            return Err(Fault::BadSide(at));
        }
        sides.push(at);
        if number + 1 == needed {
            return Ok(());
        }
        let Some(next) = SideView::new(&sector).next_listed(number) else {
            return Err(Fault::BadSide(at));
        };
        at = next;
    }
    Ok(())
}

/// Finds the side sectors of a closed relative entry with these blocks, as `walk_sides` does, and checks each one's
/// pointers and list of all side sectors. Each is read at most twice.
///
/// Returns the first of them whose bytes aren't exact, which a sound disk may have and a clean one may not. None if all
/// are exact.
pub(crate) fn survey_sides<D: Sectors>(
    disk: &mut D,
    slot: &Slot,
    blocks: &[Place],
    sides: &mut ArrayVec<Place, 6>,
) -> Result<Option<Place>, Fault>
    requires entry { IsRelEntry (D.history.image disk.old) slot.now blocks.now }
    requires few { length blocks.now ≤ 720 }
    ensures { SurveysSides D.history disk.old disk.new slot.now blocks.now sides.new.items result }
{
    walk_sides(disk, slot, blocks, sides)?;
    let sides = sides.as_slice();
    let record_length = EntryView::new(&slot.bytes).record_length();
    let mut inexact = None;
    let mut sector = [0u8; 256];
    for (number, &side) in sides.iter().enumerate() {
        read_sector(disk, side, &mut sector)?;
        // exact bytes satisfy everything that a sound disk requires
        if sector != side_bytes(number as u8, blocks, sides, record_length) {
            if !is_sound_side(&sector, number, slot, blocks, sides) {
                return Err(Fault::BadSide(side));
            }
            inexact = inexact.or(Some(side));
        }
    }
    Ok(inexact)
}

/// Finds the data blocks and the side sectors of a closed relative entry, and fills `parts` with them in order. Returns
/// the first side sector whose bytes aren't exact. None if all are.
pub(crate) fn find_parts<D: Sectors>(
    disk: &mut D,
    slot: &Slot,
    parts: &mut FileSectors,
) -> Result<Option<Place>, Fault>
    requires closed { IsClosed (D.history.image disk.old) slot.now.sector slot.now }
    requires rel { IsTrue (is_rel slot.now) }
    ensures { FindsParts D.history disk.old disk.new slot.now parts.new.blocks.items parts.new.sides.items result }
{
    survey_blocks(disk, slot, &mut parts.blocks)?;
    survey_sides(disk, slot, parts.blocks.as_slice(), &mut parts.sides)
}
