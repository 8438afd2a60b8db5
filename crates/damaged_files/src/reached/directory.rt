//! The directory of a disk as far as it can be read.
ghost use Rattle.std.specs.Prelude.{◌≡◌, ◌≤◌, ◌↔◌, Contains, IsTrue, length};
ghost use Rattle.d64_image.specs.Memory.{disk_image};
ghost use Rattle.damaged_files.specs.reached.Directories.{IsReadSoFar};

use arrayvec::ArrayVec;
use d64_image::{MemDisk, Place};
use disk_layout::{
    DIRECTORY_SECTORS, Fault, Slot, add_used, directory_start, next_directory_sector,
};

/// How many entries it has at most: eight in a sector.
const ENTRIES: usize = 144;

/// The sectors of a directory.
pub type DirectorySectors = ArrayVec<Place, DIRECTORY_SECTORS>;

/// The entries of a directory.
pub type Entries = ArrayVec<Slot, ENTRIES>;

/// Whether the place is among these.
fn contains(places: &DirectorySectors, place: Place) -> bool
    ensures { IsTrue result ↔ Contains places.now.items place }
{
    places.as_slice().contains(&place)
}

/// Reads the directory of a disk that may be damaged: fills `sectors` with those of the directory as far as its links
/// lead, and `entries` with their used slots. Returns what ends them before their end: `BadLink` at a sector whose link
/// is no place of the disk, leaves track 18 or names 18/0, or `Loop` at a sector to which the last one links back.
pub fn read_so_far(
    disk: &MemDisk,
    sectors: &mut DirectorySectors,
    entries: &mut Entries,
) -> Option<Fault>
    ensures read { IsReadSoFar (disk_image disk.now) sectors.new.items entries.new.items result }
    ensures few { length entries.new.items ≤ 144 }
{
    sectors.clear();
    entries.clear();
    let mut at = directory_start();
    'sectors: loop {
        let bytes = disk.sector(at);
        add_used(bytes, at, entries);
        sectors.push(at);
        if bytes[0] == 0 {
            return None;
        }
        let Some(next) = next_directory_sector(bytes) else {
            return Some(Fault::BadLink(at));
        };
        if contains(sectors, next) {
            return Some(Fault::Loop(next));
        }
        at = next;
    }
}
