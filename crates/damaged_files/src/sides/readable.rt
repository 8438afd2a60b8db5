//! Side sectors that can still be read, and what they say of a file.
ghost use Rattle.std.specs.Prelude.{◌≡◌, ◌≤◌, length};
ghost use Rattle.disk_layout.specs.Layout.{sides_for};

use arrayvec::ArrayVec;
use d64_image::{MemDisk, Place};
use disk_layout::{
    EntryView, LIST_AT, MOST_SIDES, POINTERS, POINTERS_AT, SideView, Slot, side_bytes,
};

/// How many side sectors a file of so many blocks needs.
pub(crate) fn sides_needed(blocks: usize) -> usize
    requires { blocks ≤ 1000 }
    ensures count { result ≡ sides_for blocks }
    ensures few { blocks ≤ 720 → result ≤ 6 }
{
    blocks.div_ceil(POINTERS)
}

/// How many blocks side sector `number` of a file of so many blocks points to.
fn used_in(number: usize, blocks: usize) -> usize
    requires { number ≤ 6 }
    ensures { result ≤ 120 }
{
    blocks.saturating_sub(POINTERS * number).min(POINTERS)
}

/// Whether a sector has the number, the record length and the pointers of a side sector with these exact bytes, which
/// points to so many blocks.
fn has_fields(bytes: &[u8; 256], exact: &[u8; 256], used: usize) -> bool
    requires { used ≤ 120 }
{
    let end = POINTERS_AT + 2 * used;
    bytes[2..4] == exact[2..4] && bytes[POINTERS_AT..end] == exact[POINTERS_AT..end]
}

/// Whether the sector is side sector `number` of the file with these blocks, as far as a sound disk requires.
fn is_side(
    disk: &MemDisk,
    slot: &Slot,
    blocks: &[Place],
    sides: &[Place],
    number: usize,
    place: Place,
) -> bool
    requires { number ≤ 5 }
{
    let bytes = disk.sector(place);
    let length = EntryView::new(&slot.bytes).record_length();
    let exact = side_bytes(number as u8, blocks, sides, length);
    let list_end = LIST_AT + 2 * sides.len().min(MOST_SIDES);
    has_fields(bytes, &exact, used_in(number, blocks.len()))
        && bytes[LIST_AT..list_end] == exact[LIST_AT..list_end]
        && (number + 1 >= sides.len() || bytes[..2] == exact[..2])
}

/// Whether the side sectors of a relative entry agree with these blocks of its file, as far as a sound disk requires.
/// Fills `sides` with those that its first side sector lists.
pub(crate) fn are_in_order(
    disk: &MemDisk,
    slot: &Slot,
    blocks: &[Place],
    sides: &mut ArrayVec<Place, MOST_SIDES>,
) -> bool
    requires { length blocks.now ≤ 720 }
{
    sides.clear();
    let Some(first) = EntryView::new(&slot.bytes).first_side() else {
        return false;
    };
    let head = disk.sector(first);
    for number in 0..sides_needed(blocks.len()) {
        match SideView::new(head).side(number) {
            Some(place) => sides.push(place),
            None => return false,
        }
    }
    let sides = sides.as_slice();
    if sides.first() != Some(&first) {
        return false;
    }
    for (number, &place) in sides.iter().enumerate() {
        if !is_side(disk, slot, blocks, sides, number, place) {
            return false;
        }
    }
    true
}

/// The first of these sectors that can be read as side sector `number` of the file with these blocks: it has that
/// number, the file's record length and all pointers to its blocks.
pub(crate) fn find_readable(
    disk: &MemDisk,
    unowned: &[Place],
    slot: &Slot,
    blocks: &[Place],
    number: usize,
) -> Option<Place>
    requires { number ≤ 5 }
{
    let length = EntryView::new(&slot.bytes).record_length();
    let exact = side_bytes(number as u8, blocks, &[], length);
    for &place in unowned {
        if has_fields(disk.sector(place), &exact, used_in(number, blocks.len())) {
            return Some(place);
        }
    }
    None
}

/// How many pointers of a side sector from this number on name a sector of the disk.
fn pointers_from(bytes: &[u8; 256], first: usize) -> usize {
    let side = SideView::new(bytes);
    let mut count = 0;
    for number in first..POINTERS {
        count += usize::from(side.block(number).is_some());
    }
    count
}

/// How many side sectors a side sector lists.
fn sides_listed(bytes: &[u8; 256]) -> usize {
    let side = SideView::new(bytes);
    let mut count = 0;
    for number in 0..MOST_SIDES {
        count += usize::from(side.side(number).is_some());
    }
    count
}

/// Whether side sector `number` with these bytes, of a file of so many blocks, lists two blocks more than these, or more
/// side sectors than one block more needs.
pub(crate) fn lists_more(disk: &MemDisk, bytes: &[u8; 256], number: usize, blocks: usize) -> bool
    requires number { number ≤ 5 }
    requires blocks { blocks ≤ 720 }
{
    let count = sides_needed(blocks);
    if number + 1 == count && pointers_from(bytes, used_in(number, blocks)) >= 2 {
        return true;
    }
    if sides_listed(bytes) > sides_needed(blocks + 1) {
        return true;
    }
    if count >= MOST_SIDES {
        return false;
    }
    match SideView::new(bytes).side(count) {
        Some(behind) => pointers_from(disk.sector(behind), 0) >= 2,
        None => false,
    }
}
