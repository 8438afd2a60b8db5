//! Whether a fault holds of a disk whose links are known.
ghost use Rattle.std.specs.Prelude.{◌≡◌, ◌⊎◌, ◌≤◌, ◌↔◌, IsTrue, Some, length};
ghost use Rattle.disk_layout.specs.declared.faults.Fault.TheVariants.{BadLink, Loop};
ghost use Rattle.disk_reports.specs.AllFaults.{HoldsAmong, IsShownBy, IsWrongAt, owned, times};

use crate::counting::owners_at;
use crate::links::Links;
use crate::map_bits::is_wrong_at;
use crate::showing::{comes_back, ends_nowhere, shows};
use crate::trail::Trail;
use d64_image::Place;
use disk_layout::Fault;

/// Whether an entry shows the fault.
fn is_shown(trails: &[Trail], fault: Fault) -> bool
    ensures { IsTrue result ↔ IsShownBy trails.now fault }
{
    for trail in trails {
        if shows(trail, fault) {
            return true;
        }
    }
    false
}

/// Whether an entry of the disk shows the fault.
fn shows_one(links: &Links, fault: Fault) -> bool
    ensures { IsTrue result ↔ IsShownBy links.now.trails.items fault }
{
    is_shown(links.trails.as_slice(), fault)
}

/// Whether the directory or an entry links to no place at this sector.
fn has_bad_link(links: &Links, place: Place) -> bool
    ensures { IsTrue result ↔ HoldsAmong links.now (BadLink place) }
{
    if ends_nowhere(links.end, place) {
        return true;
    }
    shows_one(links, Fault::BadLink(place))
}

/// Whether the directory or an entry links back to this sector.
fn has_loop(links: &Links, place: Place) -> bool
    ensures { IsTrue result ↔ HoldsAmong links.now (Loop place) }
{
    if comes_back(links.end, place) {
        return true;
    }
    shows_one(links, Fault::Loop(place))
}

/// Whether the disk is sound and its map is wrong about this sector.
fn has_wrong_map(links: &Links, place: Place) -> bool
    requires { length links.now.trails.items ≤ 144 }
    ensures { IsTrue result ↔ (IsTrue links.now.is_sound × IsWrongAt links.now.header place (times place (owned links.now))) }
{
    if !links.is_sound {
        return false;
    }
    is_wrong_at(&links.header, place, owners_at(links, place))
}

/// Whether the fault holds.
pub(crate) fn holds(links: &Links, fault: Fault) -> bool
    requires { length links.now.trails.items ≤ 144 }
    ensures { IsTrue result ↔ HoldsAmong links.now fault }
{
    match fault {
        Fault::BadLink(place) => has_bad_link(links, place),
        Fault::Loop(place) => has_loop(links, place),
        Fault::OwnedTwice(place) => owners_at(links, place) >= 2,
        Fault::MapWrong(place) => has_wrong_map(links, place),
        Fault::Device(_) => false,
        Fault::BadType(place) => shows_one(links, Fault::BadType(place)),
        Fault::Unclosed(place) => shows_one(links, Fault::Unclosed(place)),
        Fault::BadSide(place) => shows_one(links, Fault::BadSide(place)),
        Fault::BadLength(place) => shows_one(links, Fault::BadLength(place)),
        Fault::CountWrong(place) => shows_one(links, Fault::CountWrong(place)),
    }
}
