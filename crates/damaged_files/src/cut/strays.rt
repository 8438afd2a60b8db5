//! Sectors that are taken in the map but owned by nobody.
ghost use Rattle.std.specs.Prelude.{◌≡◌, ◌↔◌, ◌≤◌, ◌∷◌, Contains, IsTrue};
ghost use Rattle.d64_image.specs.declared.place.Place.{Place};
ghost use Rattle.disk_layout.specs.Directory.{map_place};
ghost use Rattle.disk_layout.specs.Layout.{Layout, owners};
ghost use Rattle.disk_layout.specs.Map.{IsFree};
ghost use Rattle.layout_check.specs.Survey.{IsSurveyOf};

use d64_image::{Place, SECTORS};
use disk_layout::BamView;
use layout_check::Survey;

/// Whether the sector is taken in the map, which has these bytes, but owned by nobody.
fn is_stray(map: &[u8; 256], found: &Survey, place: Place) -> bool
    ensures { (l : Layout) → IsSurveyOf l found.now
        → (IsTrue result ↔ (¬ (IsFree map.now place) × ¬ (Contains (map_place ∷ owners l) place))) }
{
    !BamView::new(map).is_free(place) && !found.is_owned(place)
}

/// Whether the disk has such a sector.
pub(crate) fn has_stray(map: &[u8; 256], found: &Survey) -> bool
    ensures { (l : Layout) → IsSurveyOf l found.now
        → (IsTrue result ↔ ((p : Place) × ¬ (IsFree map.now p) × ¬ (Contains (map_place ∷ owners l) p))) }
{
    for index in 0..SECTORS {
        if is_stray(map, found, Place::nth(index)) {
            return true;
        }
    }
    false
}
