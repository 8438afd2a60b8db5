//! A relative file found by its name.
ghost use Rattle.std.specs.Prelude.{◌≡◌, ◌↔◌, ◌≤◌, List, IsTrue, MatchOption, length, map};
ghost use Rattle.d64_image.specs.Images.{sector};
ghost use Rattle.d64_image.specs.declared.place.Place.{Place};
ghost use Rattle.disk_layout.specs.Layout.{File, IsLayout, IsSound, Layout};
ghost use Rattle.rel_records.specs.Calls.{FindsFile, ReadsAtMost};
ghost use Rattle.rel_records.specs.File.{Shows, entry_of};
ghost use Rattle.rel_records.specs.reading.Named.{HasNoneNamed, HasRel, IsFirstNamed, IsNamedSlot, IsRelOf};
ghost use Rattle.rel_records.specs.reading.Sides.{NamesEach};

use crate::access::read;
use crate::creation::directory_room::has_padded_name;
use crate::faults::RelFault;
use crate::rel_file::RelFile;
use crate::sizes::side_count;
use arrayvec::ArrayVec;
use d64_image::{Place, Sectors};
use disk_layout::{EntryView, SideView, Slot, padded_name, read_directory, walk_chain};

/// Whether the slot is that of a closed relative file of this name, locked or not.
fn is_named(slot: &Slot, name: &[u8]) -> bool
    ensures { IsTrue result ↔ IsNamedSlot name.now slot.now }
{
    if name.len() > 16 || !EntryView::new(&slot.bytes).is_relative() {
        return false;
    }
    has_padded_name(slot, &padded_name(name))
}

/// The number, from 0, of the first of these slots that is so named.
fn first_named(slots: &[Slot], name: &[u8]) -> Option<usize>
    ensures { MatchOption result (HasNoneNamed slots.now name.now) (IsFirstNamed slots.now name.now) }
{
    for (number, slot) in slots.iter().enumerate() {
        if is_named(slot, name) {
            return Some(number);
        }
    }
    None
}

/// Lists the used slots of the directory of a sound disk.
pub(crate) fn list_slots<D: Sectors>(
    disk: &mut D,
    slots: &mut ArrayVec<Slot, 144>,
) -> Result<(), RelFault>
    requires sound { IsSound (D.history.image disk.old) }
    ensures { ReadsAtMost D.history disk.old disk.new 18 result (λ done.
        (l : Layout) → IsLayout (D.history.image disk.old) l → slots.new.items ≡ map (λ f. f.slot) l.files) }
{
    match read_directory(disk, slots) {
        Ok(()) => Ok(()),
        // a sound disk has a directory
        Err(_) => Err(RelFault::Device),
    }
}

/// How many data blocks the file of a relative slot has, and the index of the last used byte of the last one.
fn measure<D: Sectors>(disk: &mut D, slot: &Slot) -> Result<(u16, u8), RelFault>
    requires of { HasRel (D.history.image disk.old) slot.now }
    ensures { ReadsAtMost D.history disk.old disk.new 683 result (λ found.
        ((f : File) → IsRelOf (D.history.image disk.old) slot.now f → (found.0 ≡ length f.blocks) × (found.1 ≡ f.last))
        × (found.0 ≤ 683)) }
{
    let first = EntryView::new(&slot.bytes).first_block().unwrap();
    let mut blocks = ArrayVec::new();
    match walk_chain(disk, first, &mut blocks) {
        Ok(last) => Ok((blocks.len() as u16, last)),
        // the file has a chain
        Err(_) => Err(RelFault::Device),
    }
}

/// Lists the first `count` side sectors that the bytes of a side sector name.
fn list_sides(bytes: &[u8; 256], count: usize, sides: &mut ArrayVec<Place, 6>)
    requires of { (qs : List Place) × (length qs ≡ count) × (count ≤ 6) × NamesEach bytes.now 4 qs }
    ensures { (qs : List Place) → length qs ≡ count → NamesEach bytes.now 4 qs → sides.new.items ≡ qs }
{
    let view = SideView::new(bytes);
    sides.clear();
    for number in 0..count {
        sides.push(view.side(number).unwrap());
    }
}

/// Reads the side sector at `place` and lists the first `count` side sectors that it names.
fn read_sides<D: Sectors>(
    disk: &mut D,
    place: Place,
    count: usize,
    sides: &mut ArrayVec<Place, 6>,
) -> Result<(), RelFault>
    requires of { (qs : List Place) × (length qs ≡ count) × (count ≤ 6)
        × NamesEach (sector (D.history.image disk.old) place) 4 qs }
    ensures { ReadsAtMost D.history disk.old disk.new 1 result (λ done.
        (qs : List Place) → length qs ≡ count → NamesEach (sector (D.history.image disk.old) place) 4 qs
        → sides.new.items ≡ qs) }
{
    let mut bytes = [0; 256];
    read(disk, place, &mut bytes)?;
    list_sides(&bytes, count, sides);
    Ok(())
}

/// The relative file of this slot, which has the number `entry` among the used slots.
fn open_entry<D: Sectors>(disk: &mut D, entry: usize, slot: &Slot) -> Result<RelFile, RelFault>
    requires of { HasRel (D.history.image disk.old) slot.now }
    ensures { ReadsAtMost D.history disk.old disk.new 684 result (λ v.
        ((f : File) → IsRelOf (D.history.image disk.old) slot.now f → Shows f v) × (entry_of v ≡ entry)) }
{
    let view = EntryView::new(&slot.bytes);
    let first = view.first_side().unwrap();
    let (blocks, last) = measure(disk, slot)?;
    let mut sides = ArrayVec::new();
    read_sides(disk, first, side_count(blocks) as usize, &mut sides)?;
    Ok(RelFile {
        entry,
        sector: slot.sector,
        number: slot.number,
        size: view.record_length(),
        sides,
        blocks,
        last,
    })
}

/// Finds the first closed relative file of this name. `NotFound` is returned if the directory has none.
///
/// A slot's name has sixteen bytes, filled up with shifted spaces, so a longer name is never found. An interrupted
/// growth may have left a side sector that points past the chain's end. So the file's number of data blocks is taken
/// from its chain, and its side sectors from the list in the first of them.
pub fn find<D: Sectors>(disk: &mut D, name: &[u8]) -> Result<RelFile, RelFault>
    requires sound { IsSound (D.history.image disk.old) }
    ensures { FindsFile D.history disk.old disk.new name.now result }
{
    let mut used = ArrayVec::new();
    list_slots(disk, &mut used)?;
    let slots = used.as_slice();
    let Some(entry) = first_named(slots, name) else {
        return Err(RelFault::NotFound);
    };
    open_entry(disk, entry, &slots[entry])
}
