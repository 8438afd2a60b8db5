//! Chains of sectors: each sector's first two bytes name the next.
ghost use Rattle.std.specs.Prelude.{◌≤◌, IfOk, IfErr, length};
ghost use Rattle.d64_image.specs.History.{OnlyReads};
ghost use Rattle.disk_layout.specs.Chain.{IsChain};
ghost use Rattle.disk_layout.specs.Fault.{HoldsOfChain, TellsFault};

use crate::access::read_sector;
use crate::faults::Fault;
use crate::side::MOST_BLOCKS;
use crate::visited::Visited;
use arrayvec::ArrayVec;
use d64_image::{Place, Sectors};

/// Follows the chain of sectors that begins at `first` to its end, and fills `places` with its sectors in order.
/// Returns byte 1 of the last sector: the index of its last used byte, below 2 if none is used.
///
/// A sector whose byte 0 isn't 0 links to the place in bytes 0-1. A sector whose byte 0 is 0 ends the chain.
///
/// Errors, after which `places` has the sectors visited:
/// - `BadLink` at a sector whose link is no place of the disk;
/// - `Loop` at a sector that the links reach a second time;
/// - `Device` at a sector that the device failed to read.
///
/// Each sector is read at most once. The disk has 683 sectors and none is visited twice, so 720 places are enough for
/// every chain.
pub fn walk_chain<D: Sectors>(
    disk: &mut D,
    first: Place,
    places: &mut ArrayVec<Place, MOST_BLOCKS>,
) -> Result<u8, Fault>
    ensures chain { IfOk result (λ u. IsChain (D.history.image disk.old) first places.new.items u) }
    ensures fault { IfErr result (HoldsOfChain (D.history.failed_at disk.new) (D.history.image disk.old) first) }
    ensures failures { TellsFault D.history disk.old disk.new result }
    // no sector is read twice, and a disk has 683
    ensures reads { OnlyReads D.history disk.old disk.new (length places.new.items) }
    ensures few { length places.new.items ≤ 683 }
{
    places.clear();
    let mut visited = Visited::new();
    let mut at = first;
    let mut sector = [0u8; 256];
    'walk: loop {
        visited.insert(at);
        places.push(at);
        read_sector(disk, at, &mut sector)?;
        if sector[0] == 0 {
            return Ok(sector[1]);
        }
        let Some(next) = Place::new(sector[0], sector[1]) else {
            return Err(Fault::BadLink(at));
        };
        if visited.contains(next) {
            return Err(Fault::Loop(next));
        }
        at = next;
    }
}
