//! The end of a file's chain, and whether it comes too early.
ghost use Rattle.std.specs.Prelude.{◌≡◌, ◌↔◌, ◌≤◌, ◌+◌, ◌-◌, ◌<◌, ⊤, ℕ, IsTrue, MatchOption, Some, [], length, replicate, slice_get};
ghost use Rattle.d64_image.specs.Images.{sector};
ghost use Rattle.d64_image.specs.Memory.{disk_image};
ghost use Rattle.d64_image.specs.declared.place.Place.{Place};
ghost use Rattle.d64_image.specs.declared.place.Place as places;
ghost use Rattle.disk_layout.specs.Layout.{File, IsFile};
ghost use Rattle.disk_layout.specs.Chain.{named_at};
ghost use Rattle.damaged_files.specs.cut.Cut.{CountsMore, HasFewer, IsCutIn, IsShort, IsVlir, info_blocks as info_of};
ghost use Rattle.damaged_files.specs.cut.Settled.{IsLostEnd};

use crate::cut::listed::is_listed_past;
use crate::cut::names::{is_plain, never_grows};
use arrayvec::ArrayVec;
use d64_image::{MemDisk, Place};
use disk_layout::{EntryView, Slot, walk_chain};

/// The facts of the whole disk on which it depends whether a file is cut short.
#[derive(Clone, Copy)]
pub(crate) struct Facts {
    /// A sector is taken in the map but owned by nobody.
    pub(crate) strays: bool,
    /// It has a shop's `STOCK`.
    pub(crate) shop: bool,
}

/// The end of a chain: its last block, and how many blocks it has.
#[derive(Clone, Copy)]
struct Tail {
    place: Place,
    blocks: usize,
}

/// The end of the chain of an entry of a sound disk; None if it owns no block.
fn tail_of(disk: &mut MemDisk, slot: &Slot) -> Option<Tail>
    ensures told { (f : File) → IsFile (disk_image disk.old) f → f.slot ≡ slot.now
        → MatchOption result (f.blocks ≡ []) (λ tail. (length f.blocks ≡ tail.blocks)
        × (slice_get f.blocks (tail.blocks - 1) ≡ Some tail.place)) }
    ensures some { MatchOption result ⊤ (λ tail. (1 ≤ tail.blocks) × (tail.blocks ≤ 720)) }
    ensures same { disk_image disk.new ≡ disk_image disk.old }
{
    let first = EntryView::new(&slot.bytes).first_block()?;
    let mut blocks = ArrayVec::new();
    if walk_chain(disk, first, &mut blocks).is_err() {
        return None;
    }
    let blocks = blocks.as_slice();
    let place = *blocks.last()?;
    Some(Tail {
        place,
        blocks: blocks.len(),
    })
}

/// Whether the entry is that of a GEOS document with several records, whose chain is an index alone.
fn is_vlir(slot: &Slot) -> bool
    ensures { IsTrue result ↔ IsVlir slot.now }
{
    let entry = EntryView::new(&slot.bytes);
    entry.first_side().is_some() && entry.record_length() == 1
}

/// How many blocks the entry counts beside its chain: the info block of a file of GEOS.
fn info_blocks(slot: &Slot) -> usize
    ensures { result ≡ info_of (named_at slot.now.bytes 21) }
{
    match EntryView::new(&slot.bytes).first_side() {
        None => 0,
        Some(_) => 1,
    }
}

/// Whether the entry of a SEQ, PRG or USR counts more blocks of a chain than this number.
fn counts_more(slot: &Slot, blocks: usize) -> bool
    ensures { IsTrue result ↔ CountsMore slot.now blocks }
{
    let entry = EntryView::new(&slot.bytes);
    let counted = (entry.block_count() as usize).saturating_sub(info_blocks(slot));
    is_plain(slot) && !is_vlir(slot) && blocks < counted
}

/// Whether the sector holds nothing but zeros.
fn is_blank(disk: &MemDisk, place: Place) -> bool
    ensures { IsTrue result ↔ (sector (disk_image disk.now) place ≡ replicate 256 0) }
{
    *disk.sector(place) == [0; 256]
}

/// Whether the chain of an entry of a sound disk, with this end, is too short.
fn is_short(disk: &MemDisk, slot: &Slot, tail: Tail, facts: Facts) -> bool
    requires some { 1 ≤ tail.blocks }
    requires few { tail.blocks ≤ 720 }
    ensures { (f : File) → IsFile (disk_image disk.now) f → f.slot ≡ slot.now → length f.blocks ≡ tail.blocks
        → (IsTrue result ↔ IsShort (disk_image disk.now) (IsTrue facts.strays) (IsTrue facts.shop) f tail.place) }
{
    if EntryView::new(&slot.bytes).is_relative() {
        return is_listed_past(disk, slot, tail.blocks, never_grows(slot, facts.shop))
            || is_blank(disk, tail.place);
    }
    if !is_plain(slot) {
        return false;
    }
    (facts.strays && counts_more(slot, tail.blocks)) || is_blank(disk, tail.place)
}

/// The place where the file of an entry of a sound disk is cut short; None if it isn't.
pub(crate) fn cut_of(disk: &mut MemDisk, slot: &Slot, facts: Facts) -> Option<Place>
    ensures told { (f : File) → IsFile (disk_image disk.old) f → f.slot ≡ slot.now
        → MatchOption result ((q : Place) → ¬ (IsCutIn (disk_image disk.old) (IsTrue facts.strays) (IsTrue facts.shop) f q))
        (IsCutIn (disk_image disk.old) (IsTrue facts.strays) (IsTrue facts.shop) f) }
    ensures same { disk_image disk.new ≡ disk_image disk.old }
{
    let (place, cut) = match tail_of(disk, slot) {
        Some(tail) => (tail.place, is_short(disk, slot, tail, facts)),
        None => (slot.sector, facts.strays && counts_more(slot, 0)),
    };
    if cut { Some(place) } else { None }
}

/// The place where the chain of an entry of a sound disk ends if the entry counts more blocks; None if it doesn't.
pub(crate) fn fewer_of(disk: &mut MemDisk, slot: &Slot) -> Option<Place>
    ensures told { (f : File) → IsFile (disk_image disk.old) f → f.slot ≡ slot.now
        → MatchOption result ((q : Place) → ¬ (HasFewer f q)) (HasFewer f) }
    ensures same { disk_image disk.new ≡ disk_image disk.old }
{
    let (place, blocks) = match tail_of(disk, slot) {
        Some(tail) => (tail.place, tail.blocks),
        None => (slot.sector, 0),
    };
    if counts_more(slot, blocks) {
        Some(place)
    } else {
        None
    }
}

/// The sector of zeros in which the chain of an entry of a sound disk ends; None if it doesn't end so.
pub(crate) fn lost_end(disk: &mut MemDisk, slot: &Slot) -> Option<Place>
    ensures some { (f : File) → IsFile (disk_image disk.old) f → f.slot ≡ slot.now → (q : places.Place) → result ≡ Some q
        → IsLostEnd (disk_image disk.old) f q }
    ensures same { disk_image disk.new ≡ disk_image disk.old }
{
    let tail = tail_of(disk, slot)?;
    let kind = EntryView::new(&slot.bytes).is_relative() || is_plain(slot);
    if kind && is_blank(disk, tail.place) {
        Some(tail.place)
    } else {
        None
    }
}

/// The block count of the chain of an entry of a sound disk, if the entry counts more.
pub(crate) fn count_to_set(disk: &mut MemDisk, slot: &Slot) -> Option<u16>
    ensures some { (f : File) → IsFile (disk_image disk.old) f → f.slot ≡ slot.now → (n : ℕ) → result ≡ Some n
        → CountsMore f.slot (length f.blocks) × (n ≡ length f.blocks + info_of (named_at f.slot.bytes 21)) }
    ensures same { disk_image disk.new ≡ disk_image disk.old }
{
    let blocks = match tail_of(disk, slot) {
        Some(tail) => tail.blocks,
        None => 0,
    };
    if counts_more(slot, blocks) {
        Some((blocks + info_blocks(slot)) as u16)
    } else {
        None
    }
}
