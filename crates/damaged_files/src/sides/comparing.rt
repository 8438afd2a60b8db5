//! Whether two disks have the same directory and the same chains.
ghost use Rattle.std.specs.Prelude.{◌≡◌, Contains, IsTrue};
ghost use Rattle.d64_image.specs.Memory.{disk_image};
ghost use Rattle.disk_layout.specs.Layout.{File, IsLayout, Layout};
ghost use Rattle.disk_layout.specs.declared.slot.Slot as entries;
ghost use Rattle.damaged_files.specs.sides.Compared.{SameChain, SameDirectory};

use crate::sides::sectors::{are_same, is_same};
use arrayvec::ArrayVec;
use d64_image::{MemDisk, Place};
use disk_layout::{
    EntryView, MOST_BLOCKS, Slot, directory_start, map_place, read_directory, walk_chain,
};

/// Whether the chain that an entry has on the second disk is the same on both, with all bytes. `blocks` is room for it.
fn keeps_chain(
    before: &MemDisk,
    after: &mut MemDisk,
    slot: &Slot,
    blocks: &mut ArrayVec<Place, MOST_BLOCKS>,
) -> bool
    ensures told { IsTrue result → SameChain (disk_image before.now) (disk_image after.old) slot.now }
    ensures after { disk_image after.new ≡ disk_image after.old }
{
    let Some(first) = EntryView::new(&slot.bytes).first_block() else {
        return true;
    };
    walk_chain(after, first, blocks).is_ok() && are_same(before, after, blocks.as_slice())
}

/// Whether the chain of each of these entries is the same on both disks.
fn keeps_each(before: &MemDisk, after: &mut MemDisk, slots: &[Slot]) -> bool
    ensures told { IsTrue result → (s : entries.Slot) → Contains slots.now s
        → SameChain (disk_image before.now) (disk_image after.old) s }
    ensures after { disk_image after.new ≡ disk_image after.old }
{
    let mut blocks = ArrayVec::new();
    for slot in slots {
        if !keeps_chain(before, after, slot, &mut blocks) {
            return false;
        }
    }
    true
}

/// Whether the chains of all entries of the second disk are the same on both, with all bytes.
pub(crate) fn keeps_chains(before: &MemDisk, after: &mut MemDisk) -> bool
    ensures told { IsTrue result → (l : Layout) → IsLayout (disk_image after.old) l → (f : File) → Contains l.files f
        → SameChain (disk_image before.now) (disk_image after.old) f.slot }
    ensures after { disk_image after.new ≡ disk_image after.old }
{
    let mut slots = ArrayVec::new();
    read_directory(after, &mut slots).is_ok() && keeps_each(before, after, slots.as_slice())
}

/// Whether the map and the directory of the second disk are the same on both, with all bytes.
pub(crate) fn keeps_directory(before: &MemDisk, after: &mut MemDisk) -> bool
    ensures told { IsTrue result → SameDirectory (disk_image before.now) (disk_image after.old) }
    ensures after { disk_image after.new ≡ disk_image after.old }
{
    let mut sectors = ArrayVec::new();
    let Ok(_) = walk_chain(after, directory_start(), &mut sectors) else {
        return false;
    };
    is_same(before, after, map_place()) && are_same(before, after, sectors.as_slice())
}
