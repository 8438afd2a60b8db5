//! The directory's room for a new entry.
ghost use Rattle.std.specs.Prelude.{
  ◌≡◌,
  ◌≤◌,
  ◌↔◌,
  Contains,
  IfOk,
  IsTrue,
  MatchOption,
  Some,
  length,
  slice_get,
  slice_range,
};
ghost use Rattle.d64_image.specs.History.{OnlyReads, TellsFailure};
ghost use Rattle.d64_image.specs.Images.{sector};
ghost use Rattle.d64_image.specs.declared.place.Place.{Place};
ghost use Rattle.disk_layout.specs.declared.slot.Slot.{Slot};
ghost use Rattle.rel_records.specs.creation.Room.{IsFullDirectory, IsFirstRoom, IsFirstSlot, IsFullSector};

use d64_image::{DeviceFault, Place, Sectors};
use disk_layout::{EntryView, Slot};

/// The slot of a new entry: the number of the first free slot of the directory, or None if all are used. Also the
/// directory sector that is written last for it, with its bytes and the number of sectors before it: the one of that
/// slot, or the directory's last.
#[derive(Drop)]
pub(crate) struct Room {
    /// The directory sector that is written last for the entry.
    pub(crate) place: Place,
    /// Its bytes.
    pub(crate) bytes: [u8; 256],
    /// The number of directory sectors before it.
    pub(crate) before: usize,
    /// The number of the first free slot, from 0 to 7. None if all slots of the directory are used.
    pub(crate) number: Option<u8>,
}

/// The number of a directory sector's first free slot.
fn free_slot(bytes: &[u8; 256]) -> Option<u8>
    ensures { (p : Place) → MatchOption result (IsFullSector p bytes.now) (IsFirstSlot p bytes.now) }
{
    for number in 0..8u8 {
        if bytes[32 * number as usize + 2] == 0 {
            return Some(number);
        }
    }
    None
}

/// The first free slot of these directory sectors, in order. There is at least one sector.
pub(crate) fn find_room<D: Sectors>(disk: &mut D, places: &[Place]) -> Result<Room, DeviceFault>
    requires { 1 ≤ length places.now }
    ensures bytes { IfOk result (λ room. room.bytes ≡ sector (D.history.image disk.old) room.place) }
    ensures ok { IfOk result (λ room.
        MatchOption room.number (IsFullDirectory (D.history.image disk.old) places.now room.place)
        (IsFirstRoom (D.history.image disk.old) places.now room.place)) }
    ensures before { IfOk result (λ room. slice_get places.now room.before ≡ Some room.place) }
    ensures reads { OnlyReads D.history disk.old disk.new (length places.now) }
    ensures failures { TellsFailure D.history disk.old disk.new result }
{
    let mut bytes = [0; 256];
    for (before, &place) in places.iter().enumerate() {
        disk.read(place, &mut bytes)?;
        if let Some(number) = free_slot(&bytes) {
            return Ok(Room {
                place,
                bytes,
                before,
                number: Some(number),
            });
        }
    }
    let before = places.len() - 1;
    Ok(Room {
        place: places[before],
        bytes,
        before,
        number: None,
    })
}

/// Whether the entry has the name: its sixteen bytes are these.
pub fn has_padded_name(slot: &Slot, padded: &[u8; 16]) -> bool
    ensures { IsTrue result ↔ (slice_range slot.now.bytes 5 21 ≡ padded.now) }
{
    EntryView::new(&slot.bytes).has_padded_name(padded)
}

/// Whether one of these entries has the name.
pub(crate) fn has_name(slots: &[Slot], padded: &[u8; 16]) -> bool
    ensures { IsTrue result ↔ ((s : Slot) × Contains slots.now s × (slice_range s.bytes 5 21 ≡ padded.now)) }
{
    for slot in slots {
        if has_padded_name(slot, padded) {
            return true;
        }
    }
    false
}
