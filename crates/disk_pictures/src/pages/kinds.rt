//! Which kinds of sectors a disk has.
ghost use Rattle.std.specs.Prelude.{◌≡◌};
ghost use Rattle.disk_pictures.specs.Held.{drawn_in};
ghost use Rattle.disk_pictures.specs.Legends.{is_of as kind_at, is_side as owner_is_side, occurs as kind_occurs};
ghost use Rattle.disk_pictures.specs.Pictures.{is_nobody as owner_is_nobody};

use crate::drawing::Drawing;
use crate::owners::Owner;
use crate::pages::white_lines::is_open;
use d64_image::{Place, SECTORS};
use disk_layout::BamView;

/// A kind of sector that not every disk has.
#[derive(Clone, Copy)]
pub(crate) enum Kind {
    /// Nobody's, and free in the map.
    Free,
    /// Nobody's, and taken in the map.
    Lost,
    /// A side sector of an entry.
    Side,
    /// Somebody's, and free in the map.
    Used,
}

/// Whether the sector is nobody's.
fn is_nobody(owner: Owner) -> bool
    ensures { result ≡ owner_is_nobody owner }
{
    match owner {
        Owner::Nobody => true,
        _ => false,
    }
}

/// Whether it is a side sector.
fn is_side(owner: Owner) -> bool
    ensures { result ≡ owner_is_side owner }
{
    match owner {
        Owner::Sides(_) => true,
        _ => false,
    }
}

/// Whether a sector is of this kind.
fn is_of(kind: Kind, drawing: &Drawing, place: Place) -> bool
    ensures { result ≡ kind_at kind drawing.now.map (drawn_in drawing.now) place }
{
    let owner = drawing.owner(place);
    let free = BamView::new(&drawing.map).is_free(place);
    match kind {
        Kind::Free => is_nobody(owner) && free,
        Kind::Lost => is_nobody(owner) && !free,
        Kind::Side => is_side(owner),
        Kind::Used => is_open(drawing, place),
    }
}

/// Whether a sector of the disk is of this kind.
pub(crate) fn occurs(kind: Kind, drawing: &Drawing) -> bool
    ensures { result ≡ kind_occurs kind drawing.now.map (drawn_in drawing.now) }
{
    let mut found = false;
    for index in 0..SECTORS {
        let here = is_of(kind, drawing, Place::nth(index));
        found = found || here;
    }
    found
}
