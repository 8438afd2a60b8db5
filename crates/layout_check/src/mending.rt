//! The map and the side sectors that a sound disk should have. Each is written if the disk has other bytes.
ghost use Rattle.std.specs.Prelude.{◌≤◌, IsTrue, List, length};
ghost use Rattle.d64_image.specs.declared.place.Place.{Place};
ghost use Rattle.disk_layout.specs.Free.{IsWithoutFree};
ghost use Rattle.disk_layout.specs.Layout.{IsLayout, IsSound, Layout, is_rel};
ghost use Rattle.layout_check.specs.Exact.{IsFiled};
ghost use Rattle.layout_check.specs.Keeping.{MarksTaken};
ghost use Rattle.layout_check.specs.Made.{IsMadeMap, IsMadeTrack};
ghost use Rattle.layout_check.specs.Mended.{IsPartsOf};
ghost use Rattle.layout_check.specs.Mending.{MakesSide, MendsEntries, MendsEntry, MendsMap, MendsSides};

use crate::maps::check_bits;
use crate::owners::Owners;
use crate::parts::FileSectors;
use crate::sides::find_parts;
use arrayvec::ArrayVec;
use d64_image::{Place, Sectors, TRACKS};
use disk_layout::{
    Bam, EntryView, Fault, Slot, map_place, read_directory, read_sector, side_bytes, write_other,
};

/// Frees the sectors of a track that nobody owns. None of the track was free.
fn free_track(map: &mut Bam, owners: &Owners, track: u8)
    requires none { IsWithoutFree map.old.bytes track }
    ensures { IsMadeTrack map.old.bytes map.new.bytes owners.now track }
{
    for sector in 0..24u8 {
        if let Some(place) = Place::new(track, sector) {
            if !owners.is_owned(place) {
                map.give(place);
            }
        }
    }
}

/// The bytes that 18/0 should have: the map by the owners, with the bits past a track's last sector 0. The bytes
/// outside the map stay.
fn map_of(old: &[u8; 256], owners: &Owners) -> [u8; 256]
    ensures { IsMadeMap old.now result owners.now }
{
    let mut bytes = *old;
    bytes[4..144].fill(0);
    let mut map = Bam::new(bytes);
    for below in 0..TRACKS {
        free_track(&mut map, owners, below + 1);
    }
    map.bytes
}

/// Gives a sound disk the map in which exactly the sectors with an owner in this table are taken. It is written only if
/// the disk has another.
pub(crate) fn mend_map<D: Sectors>(disk: &mut D, taken: &Owners) -> Result<(), Fault>
    ensures { (l : Layout) (strays : List Place) → IsLayout (D.history.image disk.old) l
        → MarksTaken taken.now l strays → MendsMap strays D.history disk.old disk.new result }
{
    let mut map = [0u8; 256];
    read_sector(disk, map_place(), &mut map)?;
    if check_bits(&map, taken).is_ok() {
        return Ok(());
    }
    let wanted = map_of(&map, taken);
    write_other(disk, map_place(), &map, &wanted)
}

/// Gives a side sector these bytes. It is written only if it has others.
fn mend_side<D: Sectors>(disk: &mut D, side: Place, wanted: &[u8; 256]) -> Result<(), Fault>
    ensures { MakesSide D.history disk.old disk.new side wanted.now result }
{
    let mut had = [0u8; 256];
    read_sector(disk, side, &mut had)?;
    write_other(disk, side, &had, wanted)
}

/// Gives the side sectors of a relative entry of a sound disk the bytes that they should have, in their order. Each is
/// written only if it has others.
fn mend_sides<D: Sectors>(
    disk: &mut D,
    slot: &Slot,
    blocks: &[Place],
    sides: &[Place],
) -> Result<(), Fault>
    requires parts { IsPartsOf (D.history.image disk.old) slot.now blocks.now sides.now }
    requires few { length sides.now ≤ 6 }
    ensures { MendsSides D.history disk.old disk.new sides.now result }
{
    let record_length = EntryView::new(&slot.bytes).record_length();
    for (number, &side) in sides.iter().enumerate() {
        let wanted = side_bytes(number as u8, blocks, sides, record_length);
        mend_side(disk, side, &wanted)?;
    }
    Ok(())
}

/// Gives the side sectors of a relative entry of a sound disk the bytes that they should have. Fills `parts` with what
/// the entry owns.
fn mend_relative<D: Sectors>(
    disk: &mut D,
    slot: &Slot,
    parts: &mut FileSectors,
) -> Result<(), Fault>
    requires filed { IsFiled (D.history.image disk.old) slot.now }
    requires rel { IsTrue (is_rel slot.now) }
    ensures { MendsEntry D.history disk.old disk.new slot.now result }
{
    match find_parts(disk, slot, parts)? {
        Some(_) => mend_sides(disk, slot, parts.blocks.as_slice(), parts.sides.as_slice()),
        None => Ok(()),
    }
}

/// Gives the side sectors of all relative entries of a sound disk the bytes that they should have, in the order of the
/// directory. Each is written only if it has others.
pub(crate) fn mend_entries<D: Sectors>(disk: &mut D) -> Result<(), Fault>
    requires { IsSound (D.history.image disk.old) }
    ensures { MendsEntries D.history disk.old disk.new result }
{
    let mut slots = ArrayVec::new();
    let mut parts = FileSectors::new();
    read_directory(disk, &mut slots)?;
    for slot in slots.as_slice() {
        if EntryView::new(&slot.bytes).is_relative() {
            mend_relative(disk, slot, &mut parts)?;
        }
    }
    Ok(())
}
