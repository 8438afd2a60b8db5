//! The blocks of a file as far as its chain goes, and the fault that ends it.
ghost use Rattle.std.specs.Prelude.{◌≡◌, ◌↔◌, IsTrue, Some};
ghost use Rattle.d64_image.specs.Memory.{disk_image};
ghost use Rattle.damaged_files.specs.reached.Reached.{IsReach, IsReached, NamesNoBlock};

use arrayvec::ArrayVec;
use d64_image::{MemDisk, Place};
use disk_layout::{EntryView, Fault, MOST_BLOCKS, Slot, Visited};

/// The end of the blocks of a file that can be reached.
#[derive(Clone, Copy, Debug, PartialEq, Eq)]
pub struct Reach {
    /// The index of the last byte of the last block that is the file's: 0 or 1 if it has none there.
    pub last: u8,
    /// The fault that ended the chain early: `BadLink` or `Loop`. None if the chain came to its end.
    pub fault: Option<Fault>,
}

/// The end of a chain that this fault ends early, after a block that is the file's with all of its bytes.
fn broken(fault: Fault) -> Reach
    ensures fault { result.fault ≡ Some fault }
    ensures last { result.last ≡ 255 }
{
    Reach {
        last: 255,
        fault: Some(fault),
    }
}

/// Fills `blocks` with the sectors that the links from `first` reach, in order and each once, as far as they go, and
/// returns what ends them.
///
/// The fault is `BadLink` at a block that links to no place of the disk, or `Loop` at the one to which the last one links
/// back. After a fault the last block counts with all of its bytes, up to index 255. The disk has 683 sectors, so 720 places are enough.
pub fn reach_blocks(
    disk: &MemDisk,
    first: Place,
    blocks: &mut ArrayVec<Place, MOST_BLOCKS>,
) -> Reach
    ensures { IsReach (disk_image disk.now) first blocks.new.items result.fault result.last }
{
    blocks.clear();
    let mut visited = Visited::new();
    let mut at = first;
    'walk: loop {
        visited.insert(at);
        blocks.push(at);
        let sector = disk.sector(at);
        if sector[0] == 0 {
            return Reach {
                last: sector[1],
                fault: None,
            };
        }
        let Some(next) = Place::new(sector[0], sector[1]) else {
            return broken(Fault::BadLink(at));
        };
        if visited.contains(next) {
            return broken(Fault::Loop(next));
        }
        at = next;
    }
}

/// Whether the entry names no block and needs none: its file then has no bytes.
fn names_no_block(slot: &Slot) -> bool
    ensures { IsTrue result ↔ NamesNoBlock slot.now }
{
    let entry = EntryView::new(&slot.bytes);
    !entry.is_relative() && !entry.has_first_block()
}

/// Fills `blocks` with those of the entry's file that can be reached, in order and each once, and returns what ends them.
/// Only the file's own chain is checked. The entry may be unclosed, and its type unknown.
///
/// The fault is `BadLink` at a block that links to no place of the disk, or at the entry's directory sector if the entry
/// should name a first block and names none. It is `Loop` at the block to which the last one links back. After a fault
/// the file has all bytes of the last block, up to index 255.
pub fn reach_file(disk: &MemDisk, slot: &Slot, blocks: &mut ArrayVec<Place, MOST_BLOCKS>) -> Reach
    ensures { IsReached (disk_image disk.now) slot.now blocks.new.items result.fault result.last }
{
    blocks.clear();
    if names_no_block(slot) {
        return Reach {
            last: 0,
            fault: None,
        };
    }
    match EntryView::new(&slot.bytes).first_block() {
        Some(first) => reach_blocks(disk, first, blocks),
        None => Reach {
            last: 0,
            fault: Some(Fault::BadLink(slot.sector)),
        },
    }
}
