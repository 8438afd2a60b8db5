//! Whether the map of free sectors is wrong about a sector.
ghost use Rattle.std.specs.Prelude.{◌≡◌, ◌≤◌, ◌↔◌, IsTrue};
ghost use Rattle.disk_layout.specs.Map.{map_count};
ghost use Rattle.layout_check.specs.Marked.{ones_on};
ghost use Rattle.disk_reports.specs.AllFaults.{HasWrongCount, IsWrongAt, IsWrongBit};

use d64_image::{Place, TRACKS};
use disk_layout::{BamView, map_place};

/// Whether a track's number of free sectors is that of its bits.
fn is_counted(map: &[u8; 256], track: u8) -> bool
    requires first { 1 ≤ track }
    requires last { track ≤ 35 }
    ensures { IsTrue result ↔ (map_count map.now track ≡ ones_on map.now track) }
{
    let view = BamView::new(map);
    let mut count = 0;
    let mut sector = 0;
    while let Some(place) = Place::new(track, sector) {
        let free = view.is_free(place);
        count += u8::from(free);
        sector += 1;
    }
    view.free_on(track) == count
}

/// Whether the number of free sectors of a track is wrong.
fn has_wrong_count(map: &[u8; 256]) -> bool
    ensures { IsTrue result ↔ HasWrongCount map.now }
{
    for below in 0..TRACKS {
        if !is_counted(map, below + 1) {
            return true;
        }
    }
    false
}

/// Whether the bit of a sector is wrong that so many own.
fn is_wrong_bit(map: &[u8; 256], place: Place, owners: usize) -> bool
    ensures { IsTrue result ↔ IsWrongBit map.now place owners }
{
    if BamView::new(map).is_free(place) {
        return owners >= 1;
    }
    owners == 0
}

/// Whether the map is wrong about a sector that so many own; at its own sector also about a number of free sectors.
pub(crate) fn is_wrong_at(map: &[u8; 256], place: Place, owners: usize) -> bool
    ensures { IsTrue result ↔ IsWrongAt map.now place owners }
{
    if is_wrong_bit(map, place, owners) {
        return true;
    }
    place == map_place() && has_wrong_count(map)
}
