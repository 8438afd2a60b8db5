//! The data blocks of an entry: the chain from the place that its slot names.
ghost use Rattle.std.specs.Prelude.{◌≡◌, ◌≢◌, ◌<◌, ◌⊎◌, ◌↔◌, Contains, IfErr, IfOk, IsTrue, OnOk, length, slice_index};
ghost use Rattle.disk_layout.specs.Fault.{IsClosed};
ghost use Rattle.disk_layout.specs.Layout.{is_rel};
ghost use Rattle.layout_check.specs.Calls.{Passes, TellsUnsound};
ghost use Rattle.layout_check.specs.Entry.{HasBlocks};
ghost use Rattle.layout_check.specs.SurveyedEntry.{ClaimsBlocks};

use crate::owners::{NOBODY, Owners};
use arrayvec::ArrayVec;
use d64_image::{Place, Sectors};
use disk_layout::{EntryView, Fault, MOST_BLOCKS, Slot, read_sector, walk_chain};

/// Follows the chain of a closed entry that names a first block, and fills `blocks` with its sectors in order. Returns
/// the index of the last used byte of the last one.
pub(crate) fn survey_blocks<D: Sectors>(
    disk: &mut D,
    slot: &Slot,
    blocks: &mut ArrayVec<Place, MOST_BLOCKS>,
) -> Result<u8, Fault>
    requires closed { IsClosed (D.history.image disk.old) slot.now.sector slot.now }
    requires names { IsTrue (is_rel slot.now) ⊎ (slice_index slot.now.bytes 3 ≢ 0) }
    ensures blocks { IfOk result (HasBlocks (D.history.image disk.old) slot.now blocks.new.items) }
    ensures ok { OnOk result (Passes D.history disk.old disk.new (length blocks.new.items)) }
    ensures err { IfErr result (TellsUnsound D.history disk.old disk.new 720) }
{
    let Some(first) = EntryView::new(&slot.bytes).first_block() else {
        return Err(Fault::BadLink(slot.sector));
    };
    walk_chain(disk, first, blocks)
}

/// Whether the place is among these.
fn contains(places: &[Place], place: Place) -> bool
    ensures { IsTrue result ↔ Contains places.now place }
{
    places.contains(&place)
}

/// The fault for a sector that has an owner already, if a chain leads to it through these blocks of its own.
// Out of line: a sound disk has none
#[inline(never)]
fn owned_block(place: Place, blocks: &[Place]) -> Fault
    ensures own { Contains blocks.now place → result ≡ Fault.Loop place }
    ensures other { ¬ (Contains blocks.now place) → result ≡ Fault.OwnedTwice place }
{
    if contains(blocks, place) {
        Fault::Loop(place)
    } else {
        Fault::OwnedTwice(place)
    }
}

/// Fills `places` with the blocks as `survey_blocks` does, and gives each to the owner with this number when the walk
/// reaches it. So the table of owners also marks the sectors visited, and updating it takes no time while a read waits
/// for its link.
///
/// `OwnedTwice` is returned at a sector that another owned. After an error the table may hold anything.
pub(crate) fn claim_blocks<D: Sectors>(
    disk: &mut D,
    slot: &Slot,
    number: u8,
    owners: &mut Owners,
    places: &mut ArrayVec<Place, MOST_BLOCKS>,
) -> Result<u8, Fault>
    requires closed { IsClosed (D.history.image disk.old) slot.now.sector slot.now }
    requires names { IsTrue (is_rel slot.now) ⊎ (slice_index slot.now.bytes 3 ≢ 0) }
    requires some { number < 255 }
    ensures { ClaimsBlocks D.history disk.old disk.new slot.now number owners.old owners.new places.new.items result }
{
    let Some(first) = EntryView::new(&slot.bytes).first_block() else {
        return Err(Fault::BadLink(slot.sector));
    };
    places.clear();
    let mut at = first;
    let mut sector = [0u8; 256];
    'chain: loop {
        if owners.owner(at) != NOBODY {
            return Err(owned_block(at, places.as_slice()));
        }
        owners.set(at, number);
        places.push(at);
        read_sector(disk, at, &mut sector)?;
        if sector[0] == 0 {
            return Ok(sector[1]);
        }
        match Place::new(sector[0], sector[1]) {
            None => return Err(Fault::BadLink(at)),
            Some(next) => at = next,
        }
    }
}
