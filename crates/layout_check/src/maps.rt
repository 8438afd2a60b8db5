//! Compares the map of free sectors with the owners of the sectors.
ghost use Rattle.std.specs.Prelude.{◌≤◌, IfErr, IsTrue, OnOk};
ghost use Rattle.layout_check.specs.Marked.{IsRightMap, IsRightTrack, IsWrongMap};

use crate::owners::Owners;
use d64_image::{Place, TRACKS};
use disk_layout::{BamView, Fault, map_place};

/// Whether the map has the right bit for each sector of a track, and the right count of them. No branch depends on a
/// bit, so this takes a third of the time of `check_track`, which returns what is wrong.
fn is_right_track(map: &[u8; 256], owners: &Owners, track: u8) -> bool
    requires first { 1 ≤ track }
    requires last { track ≤ 35 }
    ensures { IsTrue result → IsRightTrack map.now owners.now track }
{
    let view = BamView::new(map);
    let mut right = true;
    let mut count = 0;
    let mut sector = 0;
    while let Some(place) = Place::new(track, sector) {
        let free = view.is_free(place);
        right &= free != owners.is_owned(place);
        count += u8::from(free);
        sector += 1;
    }
    right & (view.free_on(track) == count)
}

/// Checks the bit of each sector of a track, and the track's count.
fn check_track(map: &[u8; 256], owners: &Owners, track: u8) -> Result<(), Fault>
    requires first { 1 ≤ track }
    requires last { track ≤ 35 }
    ensures ok { OnOk result (IsRightTrack map.now owners.now track) }
    ensures err { IfErr result (IsWrongMap map.now owners.now) }
{
    let view = BamView::new(map);
    let mut count = 0;
    for sector in 0..24u8 {
        if let Some(place) = Place::new(track, sector) {
            let free = view.is_free(place);
            if free == owners.is_owned(place) {
                return Err(Fault::MapWrong(place));
            }
            count += u8::from(free);
        }
    }
    if view.free_on(track) != count {
        return Err(Fault::MapWrong(map_place()));
    }
    Ok(())
}

/// Checks the bytes of 18/0: the bit of each sector, and the count of each track. The other bytes aren't checked.
pub(crate) fn check_bits(map: &[u8; 256], owners: &Owners) -> Result<(), Fault>
    ensures ok { OnOk result (IsRightMap map.now owners.now) }
    ensures err { IfErr result (IsWrongMap map.now owners.now) }
{
    for below in 0..TRACKS {
        if !is_right_track(map, owners, below + 1) {
            check_track(map, owners, below + 1)?;
        }
    }
    Ok(())
}
