//! A disk with its side sectors built anew, in memory.
ghost use Rattle.std.specs.Prelude.{◌≡◌, ◌≤◌, IfSome, List, length};
ghost use Rattle.d64_image.specs.Memory.{disk_image};
ghost use Rattle.d64_image.specs.declared.place.Place as places;
ghost use Rattle.disk_layout.specs.Directory.{IsDirectory};

use crate::sides::candidates::{choose_places, is_shortened};
use crate::sides::readable::are_in_order;
use crate::sides::taken::{add_all, unowned_places};
use arrayvec::ArrayVec;
use d64_image::{MemDisk, Place, Sectors};
use disk_layout::{
    EntryView, MOST_BLOCKS, MOST_SIDES, Slot, directory_start, map_place, read_directory,
    side_bytes, walk_chain,
};

/// What is done with a disk that has lost a part of a file, or of its log.
#[derive(Clone, Copy, Debug, PartialEq, Eq)]
pub enum Loss {
    /// It is left as it is.
    Refused,
    /// The work goes on with what is there, and what is lost stays lost.
    Accepted,
}

/// What is known of a disk: the sectors that are somebody's. And room for the blocks and side sectors of an entry.
#[derive(Drop)]
pub(crate) struct Plan {
    pub(crate) taken: ArrayVec<Place, MOST_BLOCKS>,
    pub(crate) blocks: ArrayVec<Place, MOST_BLOCKS>,
    sides: ArrayVec<Place, MOST_SIDES>,
}

/// Fills the plan's blocks with the chain of an entry. Whether it has one and is whole.
pub(crate) fn find_blocks(disk: &mut MemDisk, slot: &Slot, plan: &mut Plan) -> bool
    ensures same { disk_image disk.new ≡ disk_image disk.old }
{
    match EntryView::new(&slot.bytes).first_block() {
        Some(first) => walk_chain(disk, first, &mut plan.blocks).is_ok(),
        None => false,
    }
}

/// Adds to what is somebody's the chain of each entry, and the side sectors of relative ones that are in order.
fn add_files(disk: &mut MemDisk, slots: &[Slot], plan: &mut Plan)
    ensures same { disk_image disk.new ≡ disk_image disk.old }
{
    for slot in slots {
        if find_blocks(disk, slot, plan) {
            add_all(&mut plan.taken, plan.blocks.as_slice());
            if EntryView::new(&slot.bytes).is_relative()
                && are_in_order(disk, slot, plan.blocks.as_slice(), &mut plan.sides)
            {
                add_all(&mut plan.taken, plan.sides.as_slice());
            }
        }
    }
}

/// Writes the side sectors of a file with these blocks.
fn write_sides(disk: &mut MemDisk, slot: &Slot, blocks: &[Place], sides: &[Place])
    requires { length sides.now ≤ 6 }
{
    let record_length = EntryView::new(&slot.bytes).record_length();
    for (number, &side) in sides.iter().enumerate() {
        // a disk in memory never fails
        let _ = disk.write(
            side,
            &side_bytes(number as u8, blocks, sides, record_length),
        );
    }
}

/// Builds the side sectors of a relative entry anew in `after`, if they aren't in order and there are places for them.
fn build_sides(
    before: &mut MemDisk,
    after: &mut MemDisk,
    slot: &Slot,
    shortened: Loss,
    plan: &mut Plan,
)
    ensures same { disk_image before.new ≡ disk_image before.old }
{
    if !find_blocks(before, slot, plan)
        || are_in_order(before, slot, plan.blocks.as_slice(), &mut plan.sides)
    {
        return;
    }
    let unowned = unowned_places(plan.taken.as_slice());
    if shortened == Loss::Refused
        && is_shortened(before, unowned.as_slice(), slot, plan.blocks.as_slice())
    {
        return;
    }
    if choose_places(
        before,
        unowned.as_slice(),
        slot,
        plan.blocks.as_slice(),
        &mut plan.sides,
    ) {
        write_sides(after, slot, plan.blocks.as_slice(), plan.sides.as_slice());
        add_all(&mut plan.taken, plan.sides.as_slice());
    }
}

/// What is known of a disk, and its entries. None if its directory can't be read.
pub(crate) fn begin_plan(disk: &mut MemDisk, slots: &mut ArrayVec<Slot, 144>) -> Option<Plan>
    ensures same { disk_image disk.new ≡ disk_image disk.old }
    ensures slots { IfSome result (λ plan. (ps : List places.Place) × IsDirectory (disk_image disk.old) ps slots.new.items) }
{
    let mut plan = Plan {
        taken: ArrayVec::new(),
        blocks: ArrayVec::new(),
        sides: ArrayVec::new(),
    };
    if read_directory(disk, slots).is_err()
        || walk_chain(disk, directory_start(), &mut plan.taken).is_err()
    {
        return None;
    }
    add_all(&mut plan.taken, &[map_place()]);
    add_files(disk, slots.as_slice(), &mut plan);
    Some(plan)
}

/// Builds the side sectors that aren't in order anew in `after`, a copy of `before`. Whether the disk is sound then, the
/// caller sees.
pub(crate) fn plan_sides(before: &mut MemDisk, after: &mut MemDisk, shortened: Loss)
    ensures same { disk_image before.new ≡ disk_image before.old }
{
    let mut slots = ArrayVec::new();
    let Some(mut plan) = begin_plan(before, &mut slots) else {
        return;
    };
    for slot in slots.as_slice() {
        if EntryView::new(&slot.bytes).is_relative() {
            build_sides(before, after, slot, shortened, &mut plan);
        }
    }
}
