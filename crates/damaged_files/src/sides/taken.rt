//! The sectors of a disk that are somebody's, and those that nobody owns.
ghost use Rattle.std.specs.Prelude.{◌↔◌, Contains, IsTrue};

use arrayvec::ArrayVec;
use d64_image::{Place, SECTORS};
use disk_layout::MOST_BLOCKS;

/// Adds these sectors to those that are somebody's. There is room for all that a disk has; those past it are left out.
pub(crate) fn add_all(taken: &mut ArrayVec<Place, MOST_BLOCKS>, places: &[Place]) {
    for &place in places {
        let _ = taken.try_push(place);
    }
}

/// Whether the place is among these.
pub(crate) fn contains(places: &[Place], place: Place) -> bool
    ensures { IsTrue result ↔ Contains places.now place }
{
    places.contains(&place)
}

/// The sectors that nobody owns, by track and sector.
pub(crate) fn unowned_places(taken: &[Place]) -> ArrayVec<Place, SECTORS> {
    let mut unowned = ArrayVec::new();
    for index in 0..SECTORS {
        let place = Place::nth(index);
        if !contains(taken, place) {
            let _ = unowned.try_push(place);
        }
    }
    unowned
}
