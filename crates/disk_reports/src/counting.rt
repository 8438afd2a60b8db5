//! How many own a sector.
ghost use Rattle.std.specs.Prelude.{◌≡◌, ◌≤◌, ◌*◌, flat_map, length};
ghost use Rattle.disk_reports.specs.AllFaults.{owned, sectors_of, times};

use crate::links::Links;
use crate::trail::Trail;
use d64_image::Place;
use disk_layout::map_place;

/// How often the sector is among these.
fn count_of(places: &[Place], place: Place) -> usize
    ensures count { result ≡ times place places.now }
    ensures few { result ≤ length places.now }
{
    let mut count = 0;
    for at in places {
        if at.index() == place.index() {
            count += 1;
        }
    }
    count
}

/// How often the sector is among those of an entry.
fn count_in(trail: &Trail, place: Place) -> usize
    ensures count { result ≡ times place (sectors_of trail.now) }
    ensures few { result ≤ 726 }
{
    count_of(trail.blocks.as_slice(), place) + count_of(trail.sides.as_slice(), place)
}

/// How often the sector is among those of these entries.
fn count_in_all(trails: &[Trail], place: Place) -> usize
    requires { length trails.now ≤ 144 }
    ensures count { result ≡ times place (flat_map sectors_of trails.now) }
    ensures few { result ≤ 726 * 144 }
{
    let mut count = 0;
    for trail in trails {
        count += count_in(trail, place);
    }
    count
}

/// How many of the map, the directory and the entries have the sector, each counted as often as it comes to it.
pub(crate) fn owners_at(links: &Links, place: Place) -> usize
    requires { length links.now.trails.items ≤ 144 }
    ensures { result ≡ times place (owned links.now) }
{
    let first = count_of(&[map_place()], place);
    let directory = count_of(links.directory.as_slice(), place);
    first + directory + count_in_all(links.trails.as_slice(), place)
}
