//! The side sectors of an entry whose blocks are known.
ghost use Rattle.std.specs.Prelude.{◌≡◌, ◌↔◌, ◌+◌, ◌<◌, ◌≤◌, ◌++◌, IsTrue, List, MatchOption, length};
ghost use Rattle.d64_image.specs.Images.{sector as sector_at};
ghost use Rattle.d64_image.specs.Memory.{disk_image};
ghost use Rattle.disk_layout.specs.Side.{NamesNext};
ghost use Rattle.disk_layout.specs.Layout.{sides_for};
ghost use Rattle.disk_reports.specs.Trails.{AreLinked, AreSides, AreWrong, IsIntact, IsReachedBy};
ghost use Rattle.layout_check.specs.Sides.{NamesEach};

use crate::slots::{first_side, is_relative};
use arrayvec::ArrayVec;
use d64_image::{MemDisk, Place};
use disk_layout::{EntryView, Fault, MOST_SIDES, POINTERS, SideView, Slot, side_bytes};

/// The sector to which side sector `number`, from 0, links, if it lists that one as the next; otherwise None.
fn next_of(disk: &MemDisk, number: usize, place: Place) -> Option<Place>
    requires few { number < 5 }
    ensures { MatchOption result ((q : Place) → ¬ (NamesNext (sector_at (disk_image disk.now) place) number q))
        (NamesNext (sector_at (disk_image disk.now) place) number) }
{
    SideView::new(disk.sector(place)).next_listed(number)
}

/// Fills `places` with the sectors to which side sectors lead from `first` on: so many, or fewer if one of them doesn't
/// link to the one that it lists as the next. A sector may come several times.
fn follow_links(
    disk: &MemDisk,
    first: Place,
    count: usize,
    places: &mut ArrayVec<Place, MOST_SIDES>,
)
    requires some { 0 < count }
    requires few { count ≤ 6 }
    ensures { AreLinked (disk_image disk.now) first count places.new.items }
{
    places.clear();
    let mut at = first;
    for number in 0..count {
        places.push(at);
        if number + 1 == count {
            return;
        }
        let Some(next) = next_of(disk, number, at) else {
            return;
        };
        at = next;
    }
}

/// Fills `sides` with the side sectors of an entry whose chain has these blocks and ends so.
pub(crate) fn follow_sides(
    disk: &MemDisk,
    slot: &Slot,
    blocks: &[Place],
    end: Option<Fault>,
    sides: &mut ArrayVec<Place, MOST_SIDES>,
)
    requires reached { IsReachedBy (disk_image disk.now) slot.now blocks.now end }
    requires few { length blocks.now ≤ 720 }
    ensures { AreSides (disk_image disk.now) slot.now blocks.now end sides.new.items }
{
    sides.clear();
    if !is_relative(slot) {
        return;
    }
    if end.is_some() {
        return;
    }
    let Some(first) = first_side(slot) else {
        return;
    };
    follow_links(disk, first, blocks.len().div_ceil(POINTERS), sides);
}

/// Appends side sectors as these bytes list them, up to so many in all. Whether each is a place of the disk.
fn add_listed(bytes: &[u8; 256], count: usize, all: &mut ArrayVec<Place, MOST_SIDES>) -> bool
    requires few { count ≤ 6 }
    requires known { length all.old.items ≤ count }
    ensures right { IsTrue result → (more : List Place) × (length all.new.items ≡ count) × (all.new.items ≡ all.old.items ++ more) }
    ensures only { (more : List Place) → length (all.old.items ++ more) ≡ count
        → NamesEach bytes.now 4 (all.old.items ++ more) → IsTrue result × (all.new.items ≡ all.old.items ++ more) }
{
    let known = all.len();
    for number in known..count {
        let Some(side) = SideView::new(bytes).side(number) else {
            return false;
        };
        all.push(side);
    }
    true
}

/// Whether this side sector, the one with this number from 0, is wrong by itself.
fn is_wrong(
    disk: &MemDisk,
    slot: &Slot,
    blocks: &[Place],
    sides: &[Place],
    number: usize,
    side: Place,
) -> bool
    requires there { number < length sides.now }
    requires few { length blocks.now ≤ 720 }
    requires fits { length sides.now ≤ sides_for (length blocks.now) }
    ensures { IsTrue result ↔ ¬ (IsIntact (disk_image disk.now) slot.now blocks.now sides.now number side) }
{
    let bytes = disk.sector(side);
    let mut all = ArrayVec::new();
    let _ = all.try_extend_from_slice(sides);
    if !add_listed(bytes, blocks.len().div_ceil(POINTERS), &mut all) {
        return true;
    }
    let length = EntryView::new(&slot.bytes).record_length();
    *bytes != side_bytes(number as u8, blocks, all.as_slice(), length)
}

/// Fills `wrong` with those of the side sectors that are wrong by themselves.
pub(crate) fn find_wrong(
    disk: &MemDisk,
    slot: &Slot,
    blocks: &[Place],
    sides: &[Place],
    wrong: &mut ArrayVec<Place, MOST_SIDES>,
)
    requires few { length blocks.now ≤ 720 }
    requires fits { length sides.now ≤ sides_for (length blocks.now) }
    ensures { AreWrong (disk_image disk.now) slot.now blocks.now sides.now wrong.new.items }
{
    wrong.clear();
    for (number, &side) in sides.iter().enumerate() {
        if is_wrong(disk, slot, blocks, sides, number, side) {
            wrong.push(side);
        }
    }
}
