//! Sectors of track 18 that look like those of a directory.
ghost use Rattle.std.specs.Prelude.{◌≡◌, ◌≤◌};
ghost use Rattle.std.specs.List.{AllByRecursion, list_all, list_any};
ghost use Rattle.d64_image.specs.Memory.{disk_image};
ghost use Rattle.d64_image.specs.Places.{place_at};
ghost use Rattle.disk_layout.specs.Chain.{EachOnce};
ghost use Rattle.disk_layout.specs.Directory as directories;
ghost use Rattle.disk_layout.specs.Directory.{IsDirectoryPlace, slots_in};
ghost use Rattle.file_rescues.specs.rescue.Rescues.{sectors_of};
ghost use Rattle.file_rescues.specs.rescue.Scanned as scanned;

use crate::rescue::choices::Choice;
use d64_image::{MemDisk, Place};
use damaged_files::DirectorySectors;
use disk_layout::{DIRECTORY_TRACK, EntryView, Slot};

/// Whether the first two bytes end a directory, or link to one of its sectors.
fn has_directory_link(bytes: &[u8; 256]) -> bool
    ensures { result ≡ scanned.has_directory_link bytes.now }
{
    if bytes[0] == 0 {
        return bytes[1] == 255;
    }
    bytes[0] == DIRECTORY_TRACK && 1 <= bytes[1] && bytes[1] <= 18
}

/// Whether a drive may have written this slot.
fn is_slot(slot: &Slot) -> bool
    ensures { result ≡ scanned.is_slot slot.now }
{
    let entry = EntryView::new(&slot.bytes);
    if entry.type_byte() == 0 {
        return true;
    }
    if entry.type_byte() % 32 > 4 {
        return false;
    }
    if slot.bytes[3] == 0 {
        return !entry.is_relative();
    }
    entry.first_block().is_some()
}

/// Whether a drive may have written all slots of the sector at `place`, which holds these bytes.
fn are_slots(bytes: &[u8; 256], place: Place) -> bool
    ensures { result ≡ list_all scanned.is_slot (slots_in place bytes.now) }
{
    for number in 0..8u8 {
        if !is_slot(&Slot::in_sector(bytes, place, number)) {
            return false;
        }
    }
    true
}

/// Whether the slot has an entry.
fn is_used(slot: &Slot) -> bool
    ensures { result ≡ directories.is_used slot.now }
{
    slot.bytes[2] != 0
}

/// Whether the sector at `place`, which holds these bytes, has an entry.
fn has_entry(bytes: &[u8; 256], place: Place) -> bool
    ensures { result ≡ list_any directories.is_used (slots_in place bytes.now) }
{
    for number in 0..8u8 {
        if is_used(&Slot::in_sector(bytes, place, number)) {
            return true;
        }
    }
    false
}

/// Whether the sector at `place`, which holds these bytes, looks like one of a directory.
fn is_directory_like(bytes: &[u8; 256], place: Place) -> bool
    ensures { result ≡ scanned.is_directory_like place bytes.now }
{
    has_directory_link(bytes) && are_slots(bytes, place) && has_entry(bytes, place)
}

/// Whether the sector is among these.
fn is_among(place: Place, sectors: &[Place]) -> bool
    ensures { result ≡ scanned.is_among place sectors.now }
{
    for other in sectors {
        if other.index() == place.index() {
            return true;
        }
    }
    false
}

/// Adds the sector of track 18 with this number, if it looks like one of a directory and isn't among these.
fn add_next(disk: &MemDisk, sectors: &mut DirectorySectors, number: u8)
    requires low { 1 ≤ number }
    requires once { EachOnce sectors.old.items }
    requires on_track { AllByRecursion IsDirectoryPlace sectors.old.items }
    ensures { sectors.new.items ≡ scanned.with_next (disk_image disk.now) sectors.old.items (place_at 18 number) }
{
    let Some(place) = Place::new(DIRECTORY_TRACK, number) else {
        return;
    };
    if is_among(place, sectors.as_slice()) {
        return;
    }
    if is_directory_like(disk.sector(place), place) {
        sectors.push(place);
    }
}

/// Adds the sectors of track 18 that look like those of a directory and aren't among these.
fn scan(disk: &MemDisk, sectors: &mut DirectorySectors)
    requires once { EachOnce sectors.old.items }
    requires on_track { AllByRecursion IsDirectoryPlace sectors.old.items }
    ensures { sectors.new.items ≡ scanned.with_scanned (disk_image disk.now) sectors.old.items 18 }
{
    for before in 0..18u8 {
        add_next(disk, sectors, before + 1);
    }
}

/// Adds the sectors that are chosen, to those that a directory has.
pub(crate) fn add_chosen(disk: &MemDisk, choice: Choice, sectors: &mut DirectorySectors)
    requires once { EachOnce sectors.old.items }
    requires on_track { AllByRecursion IsDirectoryPlace sectors.old.items }
    ensures { sectors.new.items ≡ sectors_of choice (disk_image disk.now) sectors.old.items }
{
    if choice.scanned {
        scan(disk, sectors);
    }
}
