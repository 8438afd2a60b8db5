//! The blocks of a chain that come to a file.
ghost use Rattle.std.specs.Prelude.{◌≡◌, ◌↔◌, ◌⊎◌, ◌∷◌, ◌++◌, [], IsTrue, Some, false};
ghost use Rattle.d64_image.specs.Memory.{disk_image};
ghost use Rattle.disk_layout.specs.Visited.{is_in};
ghost use Rattle.geos_files.specs.Reached.{IsPart};
ghost use Rattle.geos_files.specs.Marked.{IsMarked};
ghost use Rattle.disk_layout.specs.declared.faults.Fault.TheVariants as faults;

use arrayvec::ArrayVec;
use d64_image::{MemDisk, Place};
use damaged_files::{Reach, reach_blocks};
use disk_layout::{Fault, MOST_BLOCKS, Visited};

/// Adds a block that the file doesn't have.
pub(crate) fn add(blocks: &mut ArrayVec<Place, MOST_BLOCKS>, visited: &mut Visited, place: Place)
    requires marked { IsMarked visited.old blocks.old.items }
    requires free { is_in visited.old place ≡ false }
    ensures items { blocks.new.items ≡ blocks.old.items ++ place ∷ [] }
    ensures marked { IsMarked visited.new blocks.new.items }
{
    visited.insert(place);
    blocks.push(place);
}

/// Whether a part ends before this block: it has as many blocks as it may have, or the file has this one already.
fn ends_before(count: usize, most: usize, visited: &Visited, place: Place) -> bool
    ensures { IsTrue result ↔ (count ≡ most) ⊎ IsTrue (is_in visited.now place) }
{
    count == most || visited.contains(place)
}

/// The end of a part whose last block is this one, or which has none and is named here, and whose link leads nowhere.
fn cut(before: Place) -> Reach
    ensures fault { result.fault ≡ Some (faults.BadLink before) }
    ensures last { result.last ≡ 255 }
{
    Reach {
        last: 255,
        fault: Some(Fault::BadLink(before)),
    }
}

/// Adds the blocks of the chain from `first` to those of a file, at most `most` of them, and up to one that the file has
/// already. Returns what ends them: at such a block, and after `most` of them, `BadLink` at the block that links on, or at
/// `from` if none was added. Then the last block counts with all of its bytes.
pub(crate) fn add_chain(
    disk: &MemDisk,
    from: Place,
    first: Place,
    most: usize,
    blocks: &mut ArrayVec<Place, MOST_BLOCKS>,
    visited: &mut Visited,
) -> Reach
    requires marked { IsMarked visited.old blocks.old.items }
    ensures part { IsPart (disk_image disk.now) most from first blocks.old.items blocks.new.items result.fault result.last }
    ensures marked { IsMarked visited.new blocks.new.items }
{
    let mut chain: ArrayVec<Place, MOST_BLOCKS> = ArrayVec::new();
    let reach = reach_blocks(disk, first, &mut chain);
    let mut before = from;
    let mut count = 0;
    for &place in chain.as_slice() {
        if ends_before(count, most, visited, place) {
            return cut(before);
        }
        add(blocks, visited, place);
        before = place;
        count += 1;
    }
    reach
}
