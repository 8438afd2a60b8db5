//! The links of an entry, followed.
ghost use Rattle.std.specs.Prelude.{◌≡◌};
ghost use Rattle.d64_image.specs.Memory.{disk_image};
ghost use Rattle.disk_reports.specs.Trails.{IsTrail};

use crate::sides::{find_wrong, follow_sides};
use crate::trail::Trail;
use arrayvec::ArrayVec;
use d64_image::MemDisk;
use damaged_files::reach_file;
use disk_layout::Slot;

/// What the links of a used entry come to; nothing of one that isn't closed.
pub(crate) fn follow(disk: &MemDisk, slot: &Slot) -> Trail
    ensures trail { IsTrail (disk_image disk.now) result }
    ensures slot { result.slot ≡ slot.now }
{
    let mut blocks = ArrayVec::new();
    let mut sides = ArrayVec::new();
    let mut wrong = ArrayVec::new();
    if slot.bytes[2] < 128 {
        return Trail {
            slot: *slot,
            blocks,
            end: None,
            sides,
            wrong,
        };
    }
    let end = reach_file(disk, slot, &mut blocks).fault;
    follow_sides(disk, slot, blocks.as_slice(), end, &mut sides);
    find_wrong(disk, slot, blocks.as_slice(), sides.as_slice(), &mut wrong);
    Trail {
        slot: *slot,
        blocks,
        end,
        sides,
        wrong,
    }
}
