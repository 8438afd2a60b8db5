//! The sectors that had an owner and have none any more, freed in the map.
ghost use Rattle.std.specs.Prelude.{◌≡◌, ◌↔◌, IsTrue};
ghost use Rattle.disk_layout.specs.Layout.{IsLayout, Layout};
ghost use Rattle.file_changes.specs.Frees.{Frees, IsFreedMap, IsLeft};
ghost use Rattle.layout_check.specs.Survey.{IsSurveyOf};

use d64_image::{Place, SECTORS, Sectors};
use disk_layout::{Bam, Fault, map_place, read_sector, write_sector};
use layout_check::{Survey, survey};

/// Whether the sector had an owner at the first survey, and has none at the second.
fn is_left(before: &Survey, after: &Survey, place: Place) -> bool
    ensures { (l : Layout) → (m : Layout) → IsSurveyOf l before.now → IsSurveyOf m after.now
        → IsTrue result ↔ IsLeft l m place }
{
    before.is_owned(place) && !after.is_owned(place)
}

/// Frees the sector in the map, if that is so.
fn give_left(map: &mut Bam, before: &Survey, after: &Survey, place: Place)
    ensures { (l : Layout) → (m : Layout) → IsSurveyOf l before.now → IsSurveyOf m after.now
        → IsFreedMap map.old.bytes map.new.bytes (λ p. (place ≡ p) × IsLeft l m p) }
{
    if is_left(before, after, place) {
        map.give(place);
    }
}

/// Frees all sectors of which that is so.
fn give_all_left(map: &mut Bam, before: &Survey, after: &Survey)
    ensures { (l : Layout) → (m : Layout) → IsSurveyOf l before.now → IsSurveyOf m after.now
        → IsFreedMap map.old.bytes map.new.bytes (IsLeft l m) }
{
    for index in 0..SECTORS {
        give_left(map, before, after, Place::nth(index));
    }
}

/// Frees the sectors in the disk's map that had an owner at this survey and have none any more. All others stay taken or
/// free. One sector is written, the map. A fault is the device's: the map is as it was, or the sectors are free.
pub(crate) fn free_left<D: Sectors>(disk: &mut D, before: &Survey) -> Result<(), Fault>
    ensures { (l : Layout) → (m : Layout) → IsSurveyOf l before.now → IsLayout (D.history.image disk.old) m
        → Frees D.history disk.old disk.new l m result }
{
    let after = survey(disk)?;
    let mut bytes = [0; 256];
    read_sector(disk, map_place(), &mut bytes)?;
    let mut map = Bam::new(bytes);
    give_all_left(&mut map, before, &after);
    write_sector(disk, map_place(), &map.bytes)
}
