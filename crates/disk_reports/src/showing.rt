//! Whether an entry shows a fault.
ghost use Rattle.std.specs.Prelude.{◌≡◌, ◌⊎◌, ◌≤◌, ◌↔◌, Contains, IsTrue, Some};
ghost use Rattle.disk_layout.specs.Directory.{type_byte};
ghost use Rattle.disk_layout.specs.Layout.{IsClosedType, record_length};
ghost use Rattle.layout_check.specs.Entry.{IsShown};
ghost use Rattle.disk_reports.specs.Trails.{HasWrongSide, IsMiscounted, LacksSide, Shows};
ghost use Rattle.disk_layout.specs.declared.faults.Fault.TheVariants.{BadLength, BadLink, BadType, Loop, Unclosed};

use crate::slots::{first_side, is_relative};
use crate::trail::Trail;
use d64_image::Place;
use disk_layout::{EntryView, Fault, POINTERS, Slot};

/// Whether two places are the same.
pub(crate) fn is_same(at: Place, place: Place) -> bool
    ensures { IsTrue result ↔ (at ≡ place) }
{
    at == place
}

/// Whether this fault is a link to no place at this sector.
fn is_nowhere(fault: Fault, place: Place) -> bool
    ensures { IsTrue result ↔ (fault ≡ BadLink place) }
{
    match fault {
        Fault::BadLink(at) => is_same(at, place),
        _ => false,
    }
}

/// Whether this fault is a link back to this sector.
fn is_back(fault: Fault, place: Place) -> bool
    ensures { IsTrue result ↔ (fault ≡ Loop place) }
{
    match fault {
        Fault::Loop(at) => is_same(at, place),
        _ => false,
    }
}

/// Whether a chain that ends so links to no place at this sector, or in this directory sector is to begin and doesn't.
pub(crate) fn ends_nowhere(end: Option<Fault>, place: Place) -> bool
    ensures { IsTrue result ↔ (end ≡ Some (BadLink place)) }
{
    match end {
        Some(fault) => is_nowhere(fault, place),
        None => false,
    }
}

/// Whether a chain that ends so links back to this sector.
pub(crate) fn comes_back(end: Option<Fault>, place: Place) -> bool
    ensures { IsTrue result ↔ (end ≡ Some (Loop place)) }
{
    match end {
        Some(fault) => is_back(fault, place),
        None => false,
    }
}

/// Whether the place is among these.
fn stands_in(places: &[Place], place: Place) -> bool
    ensures { IsTrue result ↔ Contains places.now place }
{
    places.contains(&place)
}

/// Whether the sector is a block or a side sector of the entry.
fn has_sector(trail: &Trail, place: Place) -> bool
    ensures { IsTrue result ↔ (Contains trail.now.blocks.items place ⊎ Contains trail.now.sides.items place) }
{
    stands_in(trail.blocks.as_slice(), place) || stands_in(trail.sides.as_slice(), place)
}

/// Whether the slot stands in this directory sector.
fn is_at(slot: &Slot, place: Place) -> bool
    ensures { IsTrue result ↔ (place ≡ slot.now.sector) }
{
    is_same(place, slot.sector)
}

/// Whether the slot is shown as unclosed at this directory sector.
fn is_unclosed(slot: &Slot, place: Place) -> bool
    ensures { IsTrue result ↔ IsShown slot.now (Unclosed place) }
{
    if !is_at(slot, place) {
        return false;
    }
    EntryView::new(&slot.bytes).type_byte() < 128
}

/// Whether the type is one that there isn't.
fn has_no_type(slot: &Slot) -> bool
    ensures { IsTrue result ↔ ((128 ≤ type_byte slot.now) × ¬ (IsClosedType (type_byte slot.now))) }
{
    match EntryView::new(&slot.bytes).type_byte() {
        0..=132 | 192..=196 => false,
        _ => true,
    }
}

/// Whether the slot is shown to have no type at this directory sector.
fn is_untyped(slot: &Slot, place: Place) -> bool
    ensures { IsTrue result ↔ IsShown slot.now (BadType place) }
{
    if !is_at(slot, place) {
        return false;
    }
    has_no_type(slot)
}

/// Whether the record length is 0 or 255.
fn has_no_length(slot: &Slot) -> bool
    ensures { IsTrue result ↔ ((record_length slot.now ≡ 0) ⊎ (record_length slot.now ≡ 255)) }
{
    match EntryView::new(&slot.bytes).record_length() {
        0 | 255 => true,
        _ => false,
    }
}

/// Whether the slot is shown to have a bad record length at this directory sector.
fn is_mismeasured(slot: &Slot, place: Place) -> bool
    ensures { IsTrue result ↔ IsShown slot.now (BadLength place) }
{
    if !is_at(slot, place) || !is_relative(slot) {
        return false;
    }
    has_no_length(slot)
}

/// Whether the entry, in this directory sector, is to name a first side sector and doesn't.
fn lacks_side(slot: &Slot, place: Place) -> bool
    ensures { IsTrue result ↔ LacksSide slot.now place }
{
    if !is_at(slot, place) {
        return false;
    }
    if !is_relative(slot) {
        return false;
    }
    match first_side(slot) {
        Some(_first) => false,
        None => true,
    }
}

/// Whether the sector is a side sector of the entry that is wrong, or the entry lacks one.
fn has_wrong_side(trail: &Trail, place: Place) -> bool
    ensures { IsTrue result ↔ HasWrongSide trail.now place }
{
    stands_in(trail.wrong.as_slice(), place) || lacks_side(&trail.slot, place)
}

/// Whether the entry's block count isn't the number of its blocks and of the side sectors that they need.
fn is_miscounted(trail: &Trail) -> bool
    ensures { IsTrue result ↔ IsMiscounted trail.now }
{
    let entry = EntryView::new(&trail.slot.bytes);
    if !entry.is_relative() || trail.end.is_some() {
        return false;
    }
    let blocks = trail.blocks.len();
    entry.block_count() as usize != blocks + blocks.div_ceil(POINTERS)
}

/// Whether this is the case, and the entry is at this directory sector.
fn is_miscounted_at(trail: &Trail, place: Place) -> bool
    ensures { IsTrue result ↔ ((place ≡ trail.now.slot.sector) × IsMiscounted trail.now) }
{
    if !is_at(&trail.slot, place) {
        return false;
    }
    is_miscounted(trail)
}

/// Whether the entry shows the fault, or has the sector at which it is.
pub(crate) fn shows(trail: &Trail, fault: Fault) -> bool
    ensures { IsTrue result ↔ Shows trail.now fault }
{
    match fault {
        Fault::BadLink(place) => ends_nowhere(trail.end, place),
        Fault::Loop(place) => comes_back(trail.end, place),
        Fault::OwnedTwice(place) | Fault::MapWrong(place) => has_sector(trail, place),
        Fault::BadType(place) => is_untyped(&trail.slot, place),
        Fault::Unclosed(place) => is_unclosed(&trail.slot, place),
        Fault::BadSide(place) => has_wrong_side(trail, place),
        Fault::BadLength(place) => is_mismeasured(&trail.slot, place),
        Fault::CountWrong(place) => is_miscounted_at(trail, place),
        Fault::Device(_) => false,
    }
}
