//! Finds the file of one entry, and claims for it what it owns.
ghost use Rattle.std.specs.Prelude.{◌≢◌, ◌<◌, IfErr, IfOk, IsFalse, IsTrue, None, OnOk, slice_index};
ghost use Rattle.disk_layout.specs.Fault.{IsClosed};
ghost use Rattle.disk_layout.specs.Layout.{is_rel};
ghost use Rattle.layout_check.specs.Entry.{IsEntry, IsProper};
ghost use Rattle.layout_check.specs.Exact.{ToldOfEntry};
ghost use Rattle.layout_check.specs.SurveyedEntry.{SurveysEntry, TellsOrClashes};

use crate::blocks::claim_blocks;
use crate::entry::judge_entry;
use crate::owners::Owners;
use crate::parts::FileSectors;
use crate::sides::survey_sides;
use arrayvec::ArrayVec;
use d64_image::{Place, Sectors};
use disk_layout::{EntryView, Fault, MOST_BLOCKS, Slot};

/// Finds the file of an entry that isn't relative and names a first block: its chain.
fn survey_plain<D: Sectors>(
    disk: &mut D,
    slot: &Slot,
    number: u8,
    owners: &mut Owners,
    blocks: &mut ArrayVec<Place, MOST_BLOCKS>,
) -> Result<(), Fault>
    requires closed { IsClosed (D.history.image disk.old) slot.now.sector slot.now }
    requires proper { IsProper slot.now }
    requires plain { IsFalse (is_rel slot.now) }
    requires names { slice_index slot.now.bytes 3 ≢ 0 }
    requires some { number < 255 }
    ensures ok { OnOk result (SurveysEntry D.history disk.old disk.new slot.now number owners.old owners.new None) }
    ensures err { IfErr result (TellsOrClashes D.history disk.old disk.new slot.now owners.old) }
{
    claim_blocks(disk, slot, number, owners, blocks)?;
    Ok(())
}

/// What a clean disk must not have of a relative entry that owns this number of sectors: a side sector whose bytes
/// aren't exact, or another block count. None if both are right.
fn unclean_of(slot: &Slot, inexact: Option<Place>, owned: usize) -> Option<Fault>
    ensures { ToldOfEntry slot.now inexact owned result }
{
    if let Some(side) = inexact {
        return Some(Fault::BadSide(side));
    }
    if EntryView::new(&slot.bytes).block_count() as usize != owned {
        return Some(Fault::CountWrong(slot.sector));
    }
    None
}

/// Finds the file of a relative entry: its chain, and its side sectors. Returns what a clean disk must not have.
fn survey_relative<D: Sectors>(
    disk: &mut D,
    slot: &Slot,
    number: u8,
    owners: &mut Owners,
    parts: &mut FileSectors,
) -> Result<Option<Fault>, Fault>
    requires closed { IsClosed (D.history.image disk.old) slot.now.sector slot.now }
    requires proper { IsProper slot.now }
    requires rel { IsTrue (is_rel slot.now) }
    requires some { number < 255 }
    ensures ok { IfOk result (SurveysEntry D.history disk.old disk.new slot.now number owners.old owners.new) }
    ensures err { IfErr result (TellsOrClashes D.history disk.old disk.new slot.now owners.old) }
{
    claim_blocks(disk, slot, number, owners, &mut parts.blocks)?;
    let inexact = survey_sides(disk, slot, parts.blocks.as_slice(), &mut parts.sides)?;
    owners.claim(number, parts.sides.as_slice())?;
    Ok(unclean_of(slot, inexact, parts.blocks.len() + parts.sides.len()))
}

/// Finds the file of a used slot, and claims what it owns for the owner with this number. `parts` is room for what it
/// owns. An entry that isn't relative and names no first block (track 0) owns nothing.
///
/// Returns what a sound disk may have and a clean one may not: a side sector whose bytes aren't exact, or a wrong block
/// count. This is a fault only if the whole disk is sound, so the caller keeps it back until then.
///
/// The error is a fault of the slot, its chain or its side sectors, or `OwnedTwice` at a sector that has an owner
/// already.
pub(crate) fn survey_entry<D: Sectors>(
    disk: &mut D,
    slot: &Slot,
    number: u8,
    owners: &mut Owners,
    parts: &mut FileSectors,
) -> Result<Option<Fault>, Fault>
    requires entry { IsEntry (D.history.image disk.old) slot.now }
    requires some { number < 255 }
    ensures ok { IfOk result (SurveysEntry D.history disk.old disk.new slot.now number owners.old owners.new) }
    ensures err { IfErr result (TellsOrClashes D.history disk.old disk.new slot.now owners.old) }
{
    judge_entry(slot)?;
    let entry = EntryView::new(&slot.bytes);
    if entry.is_relative() {
        return survey_relative(disk, slot, number, owners, parts);
    }
    if !entry.has_first_block() {
        return Ok(None);
    }
    survey_plain(disk, slot, number, owners, &mut parts.blocks)?;
    Ok(None)
}
