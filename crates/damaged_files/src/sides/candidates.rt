//! Places for the side sectors of one file, and whether the file is shorter than it was.
ghost use Rattle.std.specs.Prelude.{◌≡◌, ◌≤◌, length};

use crate::sides::readable::{find_readable, lists_more, sides_needed};
use crate::sides::taken::contains;
use arrayvec::ArrayVec;
use d64_image::{MemDisk, Place};
use disk_layout::{BamView, DIRECTORY_TRACK, EntryView, MOST_SIDES, SideView, Slot, map_place};

/// The first of these sectors that is free in the map and not among `chosen`. Track 18 is left to the directory.
fn first_free(map: &[u8; 256], unowned: &[Place], chosen: &[Place]) -> Option<Place> {
    for &place in unowned {
        if place.track() != DIRECTORY_TRACK
            && BamView::new(map).is_free(place)
            && !contains(chosen, place)
        {
            return Some(place);
        }
    }
    None
}

/// The bytes of the first side sector of a file that can be read.
fn first_readable<'d>(
    disk: &'d MemDisk,
    unowned: &[Place],
    slot: &Slot,
    blocks: &[Place],
) -> Option<&'d [u8; 256]>
    requires { length blocks.now ≤ 720 }
{
    for number in 0..sides_needed(blocks.len()) {
        if let Some(place) = find_readable(disk, unowned, slot, blocks, number) {
            return Some(disk.sector(place));
        }
    }
    None
}

/// The place if it is one of `unowned` and not among `chosen`.
fn if_unowned(unowned: &[Place], chosen: &[Place], place: Option<Place>) -> Option<Place> {
    let place = place?;
    if contains(unowned, place) && !contains(chosen, place) {
        Some(place)
    } else {
        None
    }
}

/// A place for the next side sector of a file. The entry names the place of the first one. Otherwise it is where the side
/// sector can be read; where `list`, the bytes of another side sector, lists it; or where the map calls a sector free.
fn choose_place(
    disk: &MemDisk,
    unowned: &[Place],
    slot: &Slot,
    blocks: &[Place],
    list: Option<&[u8; 256]>,
    chosen: &[Place],
) -> Option<Place>
    requires { length chosen.now ≤ 5 }
{
    let number = chosen.len();
    if number == 0 {
        return if_unowned(unowned, chosen, EntryView::new(&slot.bytes).first_side());
    }
    let readable = find_readable(disk, unowned, slot, blocks, number);
    if let Some(place) = if_unowned(unowned, chosen, readable) {
        return Some(place);
    }
    if let Some(bytes) = list {
        let listed = SideView::new(bytes).side(number);
        if let Some(place) = if_unowned(unowned, chosen, listed) {
            return Some(place);
        }
    }
    first_free(disk.sector(map_place()), unowned, chosen)
}

/// A place for the first side sector of a file that names none: where it can be read, or where the map calls a sector free.
pub(crate) fn choose_first(
    disk: &MemDisk,
    unowned: &[Place],
    slot: &Slot,
    blocks: &[Place],
) -> Option<Place>
    requires { length blocks.now ≤ 720 }
{
    let readable = find_readable(disk, unowned, slot, blocks, 0);
    readable.or_else(|| first_free(disk.sector(map_place()), unowned, &[]))
}

/// Fills `sides` with places for the side sectors of a file with these blocks. False if there aren't enough.
pub(crate) fn choose_places(
    disk: &MemDisk,
    unowned: &[Place],
    slot: &Slot,
    blocks: &[Place],
    sides: &mut ArrayVec<Place, MOST_SIDES>,
) -> bool
    requires { length blocks.now ≤ 720 }
{
    sides.clear();
    let list = first_readable(disk, unowned, slot, blocks);
    for _number in 0..sides_needed(blocks.len()) {
        match choose_place(disk, unowned, slot, blocks, list, sides.as_slice()) {
            Some(place) => sides.push(place),
            None => return false,
        }
    }
    true
}

/// Whether a file with these blocks had more: a side sector of it that can be read lists two more, or its last block holds
/// nothing but zeros. Another sign is a block count greater than one block more needs.
pub(crate) fn is_shortened(disk: &MemDisk, unowned: &[Place], slot: &Slot, blocks: &[Place]) -> bool
    requires { length blocks.now ≤ 720 }
{
    let count = blocks.len();
    let counted = EntryView::new(&slot.bytes).block_count() as usize;
    if counted > count + 1 + sides_needed(count + 1) {
        return true;
    }
    for number in 0..sides_needed(count) {
        if let Some(place) = find_readable(disk, unowned, slot, blocks, number) {
            if lists_more(disk, disk.sector(place), number, count) {
                return true;
            }
        }
    }
    match blocks.last() {
        Some(&last) => *disk.sector(last) == [0; 256],
        None => false,
    }
}
