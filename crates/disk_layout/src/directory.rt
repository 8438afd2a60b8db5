//! The directory: its sectors are read along the chain on track 18, and their used slots are listed in order.
ghost use Rattle.std.specs.Prelude.{◌≡◌, ◌+◌, ◌≤◌, ◌++◌, ◌↔◌, Contains, IfErr, IsTrue, List, MatchOption, OnOk, filter};
ghost use Rattle.arrayvec.specs.ArrayVec.{array_vec_len};
ghost use Rattle.d64_image.specs.History.{OnlyReads};
ghost use Rattle.disk_layout.specs.Chain.{Names};
ghost use Rattle.disk_layout.specs.Directory as names;
ghost use Rattle.disk_layout.specs.Directory.{IsDirectory, IsDirectoryPlace, is_used, slots_in};
ghost use Rattle.disk_layout.specs.Fault.{HoldsOfDirectory, TellsFault};
ghost use Rattle.disk_layout.specs.Listing.{LinksOut};
ghost use Rattle.d64_image.specs.declared.place.Place.{Place};

use crate::access::read_sector;
use crate::faults::Fault;
use crate::slot::Slot;
use arrayvec::ArrayVec;
use d64_image::{Place, Sectors};

/// The track of the map and of the directory, on which no data block is placed.
pub const DIRECTORY_TRACK: u8 = 18;

/// The greatest number of sectors of a directory: those of track 18 except the map's.
pub const DIRECTORY_SECTORS: usize = 18;

/// 18/0, the sector of the map of free sectors.
pub fn map_place() -> Place
    ensures { result ≡ names.map_place }
{
    Place::known(DIRECTORY_TRACK, 0)
}

/// 18/1, the first sector of the directory.
pub fn directory_start() -> Place
    ensures { result ≡ names.directory_start }
{
    Place::known(DIRECTORY_TRACK, 1)
}

/// Whether the directory may have this sector: it is on track 18, and not the map's.
fn is_directory_place(place: Place) -> bool
    ensures { IsTrue result ↔ IsDirectoryPlace place }
{
    place.track() == DIRECTORY_TRACK && place.sector() != 0
}

/// The sector to which a directory sector with these bytes links. None if it links to no sector that a directory may
/// have: those of track 18 except the map's.
pub fn next_directory_sector(bytes: &[u8; 256]) -> Option<Place>
    ensures { MatchOption result (LinksOut bytes.now) (λ next. Names bytes.now 0 next × IsDirectoryPlace next) }
{
    let next = Place::new(bytes[0], bytes[1])?;
    if is_directory_place(next) {
        Some(next)
    } else {
        None
    }
}

/// Whether the place is among these.
fn contains(places: &ArrayVec<Place, DIRECTORY_SECTORS>, place: Place) -> bool
    ensures { IsTrue result ↔ Contains places.now.items place }
{
    places.as_slice().contains(&place)
}

/// Adds the used slots of the directory sector at `place`, which holds these bytes: those whose type byte isn't 0.
pub fn add_used(bytes: &[u8; 256], place: Place, slots: &mut ArrayVec<Slot, 144>)
    requires { array_vec_len slots.old + 8 ≤ 144 }
    ensures items { slots.new.items ≡ slots.old.items ++ filter is_used (slots_in place bytes.now) }
    ensures room { array_vec_len slots.new ≤ array_vec_len slots.old + 8 }
{
    for number in 0..8u8 {
        let slot = Slot::in_sector(bytes, place, number);
        if slot.bytes[2] != 0 {
            slots.push(slot);
        }
    }
}

/// Lists the entries of the directory: the slots whose type byte isn't 0, closed or not. They are in the order of the
/// directory's sectors, which are linked from 18/1 on, and by number in each sector. The list passed in is emptied
/// first; after an error it may hold anything.
///
/// Errors:
/// - `BadLink` at a sector whose link is no place of the disk, leaves track 18 or names 18/0;
/// - `Loop` at a sector that the links reach a second time;
/// - `Device` at a sector that the device failed to read.
///
/// Track 18 has eighteen sectors for the directory. Each is read at most once and has eight slots, so 144 are enough.
pub fn read_directory<D: Sectors>(
    disk: &mut D,
    slots: &mut ArrayVec<Slot, 144>,
) -> Result<(), Fault>
    ensures ok { OnOk result ((ps : List Place) × IsDirectory (D.history.image disk.old) ps slots.new.items) }
    ensures err { IfErr result (HoldsOfDirectory (D.history.failed_at disk.new) (D.history.image disk.old)) }
    ensures failures { TellsFault D.history disk.old disk.new result }
    ensures reads { OnlyReads D.history disk.old disk.new 18 }
{
    slots.clear();
    let mut visited: ArrayVec<Place, DIRECTORY_SECTORS> = ArrayVec::new();
    let mut at = directory_start();
    let mut sector = [0u8; 256];
    'sectors: loop {
        read_sector(disk, at, &mut sector)?;
        add_used(&sector, at, slots);
        visited.push(at);
        if sector[0] == 0 {
            return Ok(());
        }
        let Some(next) = next_directory_sector(&sector) else {
            return Err(Fault::BadLink(at));
        };
        if contains(&visited, next) {
            return Err(Fault::Loop(next));
        }
        at = next;
    }
}
