//! What is drawn of an entry: the sectors that its links come to.
ghost use Rattle.std.specs.Prelude.{◌≡◌, ◌≤◌, IfErr, IfOk, IsFalse, IsTrue, MatchOption, [], length};
ghost use Rattle.d64_image.specs.Memory.{disk_image};
ghost use Rattle.disk_layout.specs.Layout.{is_rel};
ghost use Rattle.disk_pictures.specs.Drawings.{AreDrawnSides, IsDrawnFile, file_in};
ghost use Rattle.disk_pictures.specs.Faults.{IsMemoryFault};
ghost use Rattle.disk_pictures.specs.Walks.{IsWalk};

use crate::drawn_file::DrawnFile;
use arrayvec::ArrayVec;
use command_faults::CommandFault;
use d64_image::{MemDisk, Place};
use damaged_files::reach_blocks;
use disk_layout::{EntryView, MOST_BLOCKS, POINTERS, Slot};
use std::alloc::Global;

/// Room for the sectors of a walk.
pub(crate) type Places = ArrayVec<Place, MOST_BLOCKS>;

/// A list of these places.
pub(crate) fn list_of(alloc: Global, places: &[Place]) -> Result<Vec<Place>, CommandFault>
    ensures ok { IfOk result (λ list. list.items ≡ places.now) }
    ensures err { IfErr result IsMemoryFault }
{
    match Vec::from_slice(alloc, places) {
        Ok(list) => Ok(list),
        Err(_) => Err(CommandFault::NoMemory),
    }
}

/// Fills `places` with the sectors that the links come to from `first`, and returns the index of the last used byte in the
/// last one; 0 if no sector ends the chain. If there is no first one, there are none.
pub(crate) fn walk(disk: &MemDisk, first: Option<Place>, places: &mut Places) -> u8
    ensures ok { MatchOption first ((places.new.items ≡ []) × (result ≡ 0))
        (λ place. IsWalk (disk_image disk.now) place places.new.items result) }
    ensures few { length places.new.items ≤ 720 }
{
    places.clear();
    let Some(first) = first else {
        return 0;
    };
    let reach = reach_blocks(disk, first, places);
    match reach.fault {
        None => reach.last,
        Some(_) => 0,
    }
}

/// What is drawn of the side sectors of an entry with so many blocks.
fn draw_sides(
    alloc: Global,
    disk: &MemDisk,
    slot: &Slot,
    blocks: usize,
    places: &mut Places,
) -> Result<Vec<Place>, CommandFault>
    requires { blocks ≤ 720 }
    ensures plain { IfOk result (λ sides. IsFalse (is_rel slot.now) → sides.items ≡ []) }
    ensures relative { IfOk result (λ sides. IsTrue (is_rel slot.now)
        → AreDrawnSides (disk_image disk.now) slot.now.bytes blocks sides.items) }
    ensures err { IfErr result IsMemoryFault }
{
    let entry = EntryView::new(&slot.bytes);
    if !entry.is_relative() {
        return Ok(Vec::new(alloc));
    }
    walk(disk, entry.first_side(), places);
    let found = places.as_slice();
    let needed = (blocks + POINTERS - 1) / POINTERS;
    list_of(alloc, &found[..needed.min(found.len())])
}

/// What is drawn of an entry, with room for the sectors of a walk. The only fault is `NoMemory`.
pub(crate) fn draw_file(
    alloc: Global,
    disk: &MemDisk,
    slot: &Slot,
    places: &mut Places,
) -> Result<DrawnFile, CommandFault>
    ensures slot { IfOk result (λ file. file.slot ≡ slot.now) }
    ensures ok { IfOk result (λ file. IsDrawnFile (disk_image disk.now) (file_in file)) }
    ensures err { IfErr result IsMemoryFault }
{
    let entry = EntryView::new(&slot.bytes);
    if entry.type_byte() < 128 {
        return Ok(DrawnFile {
            slot: *slot,
            blocks: Vec::new(alloc),
            last: 0,
            sides: Vec::new(alloc),
        });
    }
    let last = walk(disk, entry.first_block(), places);
    let blocks = list_of(alloc, places.as_slice())?;
    let sides = draw_sides(alloc, disk, slot, blocks.as_slice().len(), places)?;
    Ok(DrawnFile {
        slot: *slot,
        blocks,
        last,
        sides,
    })
}
