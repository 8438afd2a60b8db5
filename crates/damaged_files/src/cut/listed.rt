//! What the side sectors of a relative file list past its chain.
ghost use Rattle.std.specs.Prelude.{◌≡◌, ◌↔◌, ◌≤◌, ◌<◌, ◌+◌, ◌*◌, ℕ, IsTrue, None, Some, length, slice_get};
ghost use Rattle.d64_image.specs.Images.{sector};
ghost use Rattle.d64_image.specs.Memory.{disk_image};
ghost use Rattle.d64_image.specs.declared.place.Place.{Place};
ghost use Rattle.disk_layout.specs.Chain.{named_at};
ghost use Rattle.disk_layout.specs.Layout.{File, IsRelFile};
ghost use Rattle.damaged_files.specs.cut.Cut.{IsListedPast};
ghost use Rattle.disk_layout.specs.Listed.{EndsBy, ListsOne, ListsWell};

use d64_image::MemDisk;
use disk_layout::{EntryView, POINTERS, SideView, Slot};

/// Whether a side sector points to no data block from this number on.
fn points_below(bytes: &[u8; 256], count: usize) -> bool
    ensures { IsTrue result ↔ ((k : ℕ) → count ≤ k → k < 120 → named_at bytes.now (16 + 2 * k) ≡ None) }
{
    let side = SideView::new(bytes);
    for number in count..POINTERS {
        if side.block(number).is_some() {
            return false;
        }
    }
    true
}

/// Whether a side sector is the last, and points to no data block past the first `count`.
fn ends_by(bytes: &[u8; 256], count: usize) -> bool
    ensures { IsTrue result ↔ EndsBy bytes.now count }
{
    SideView::new(bytes).next().is_none() && points_below(bytes, count)
}

/// Whether a side sector points to one data block, and is the last.
fn lists_one(bytes: &[u8; 256]) -> bool
    ensures { IsTrue result ↔ ListsOne bytes.now }
{
    SideView::new(bytes).block(0).is_some() && ends_by(bytes, 1)
}

/// Whether the side sector after one with these bytes points to one data block, and is the last.
fn lists_one_behind(disk: &MemDisk, bytes: &[u8; 256]) -> bool
    ensures { IsTrue result ↔ ((q : Place) × (named_at bytes.now 0 ≡ Some q)
        × ListsOne (sector (disk_image disk.now) q)) }
{
    match SideView::new(bytes).next() {
        Some(next) => lists_one(disk.sector(next)),
        None => false,
    }
}

/// Whether at most one data block is listed past a chain, and none if its file never grows. The bytes are those of the
/// side sector that points to the last blocks of the chain, `used` of them.
fn lists_well(disk: &MemDisk, bytes: &[u8; 256], used: usize, never_grows: bool) -> bool
    requires { used ≤ 120 }
    ensures { IsTrue result ↔ ListsWell (disk_image disk.now) (IsTrue never_grows) bytes.now used }
{
    if ends_by(bytes, used) {
        return true;
    }
    if never_grows {
        return false;
    }
    if used < POINTERS {
        return ends_by(bytes, used + 1);
    }
    lists_one_behind(disk, bytes)
}

/// The bytes of side sector `number` of a relative file of a sound disk, as the first one lists it.
fn side_at(disk: &MemDisk, slot: &Slot, number: usize) -> Option<[u8; 256]>
    requires { number < 6 }
    ensures { (f : File) (q : Place) → IsRelFile (disk_image disk.now) f → f.slot ≡ slot.now
        → slice_get f.sides number ≡ Some q → result ≡ Some (sector (disk_image disk.now) q) }
{
    let first = EntryView::new(&slot.bytes).first_side()?;
    let place = SideView::new(disk.sector(first)).side(number)?;
    Some(*disk.sector(place))
}

/// Whether the side sectors of a relative file of a sound disk list more than they may. `blocks` is the length of its
/// chain.
pub(crate) fn is_listed_past(disk: &MemDisk, slot: &Slot, blocks: usize, never_grows: bool) -> bool
    requires some { 1 ≤ blocks }
    requires few { blocks ≤ 720 }
    ensures { (f : File) → IsRelFile (disk_image disk.now) f → f.slot ≡ slot.now → length f.blocks ≡ blocks
        → (IsTrue result ↔ IsListedPast (disk_image disk.now) (IsTrue never_grows) f) }
{
    match side_at(disk, slot, (blocks - 1) / POINTERS) {
        Some(bytes) => !lists_well(disk, &bytes, (blocks - 1) % POINTERS + 1, never_grows),
        // a sound disk has it
        None => false,
    }
}
