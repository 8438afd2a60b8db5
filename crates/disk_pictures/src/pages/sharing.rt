//! The owner of a sector that several have.
ghost use Rattle.std.specs.Prelude.{◌≡◌, ◌++◌, ◌↔◌, Contains, IsTrue, List, slice_get};
ghost use Rattle.disk_pictures.specs.Drawings.{file_in, has};
ghost use Rattle.disk_pictures.specs.Held.{drawn_in};
ghost use Rattle.disk_pictures.specs.Sentences.{entry_owners, own_if, owners_of, system_owners as system_owners_of};
ghost use Rattle.disk_pictures.specs.Sharing.{IsTwoOf};
ghost use Rattle.disk_pictures.specs.declared.owners.Owner.{Owner};

use crate::drawing::Drawing;
use crate::drawn_file::DrawnFile;
use crate::owners::Owner;
use d64_image::Place;
use disk_layout::map_place;

/// The first two owners of a sector, as far as it has any.
#[derive(Clone, Copy)]
pub(crate) struct Two {
    /// The first one.
    pub first: Option<Owner>,
    /// The next one.
    pub second: Option<Owner>,
}

/// These, and after them this owner, if it has the sector.
fn with(two: Two, has_it: bool, owner: Owner) -> Two
    ensures { (os : List Owner) → IsTwoOf two os → IsTwoOf result (os ++ own_if has_it owner) }
{
    match (has_it, two.first, two.second) {
        (true, None, _) => Two {
            first: Some(owner),
            second: None,
        },
        (true, Some(first), None) => Two {
            first: Some(first),
            second: Some(owner),
        },
        _ => two,
    }
}

/// Whether the place stands in the list.
fn stands_in(places: &[Place], place: Place) -> bool
    ensures { IsTrue result ↔ Contains places.now place }
{
    places.contains(&place)
}

/// Whether the place is one of these.
fn is_among(places: &[Place], place: Place) -> bool
    ensures { result ≡ has places.now place }
{
    stands_in(places, place)
}

/// These, and after them an entry: by its blocks, then by its side sectors.
fn with_entry(two: Two, number: usize, file: &DrawnFile, place: Place) -> Two
    ensures { (os : List Owner) → IsTwoOf two os → IsTwoOf result (os ++ entry_owners number (file_in file.now) place) }
{
    let blocks = is_among(file.blocks.as_slice(), place);
    let sides = is_among(file.sides.as_slice(), place);
    with(
        with(two, blocks, Owner::Blocks(number)),
        sides,
        Owner::Sides(number),
    )
}

/// The owners before the entries: the map and the directory.
fn system_owners(drawing: &Drawing, place: Place) -> Two
    ensures { IsTwoOf result (system_owners_of (drawn_in drawing.now) place) }
{
    let none = Two {
        first: None,
        second: None,
    };
    let map = is_among(&[map_place()], place);
    let directory = is_among(drawing.directory.as_slice(), place);
    with(with(none, map, Owner::Map), directory, Owner::Directory)
}

/// The first two owners of the sector, in the order of whose it is drawn as.
pub(crate) fn two_owners(drawing: &Drawing, place: Place) -> Two
    ensures first { result.first ≡ slice_get (owners_of (drawn_in drawing.now) place) 0 }
    ensures second { result.second ≡ slice_get (owners_of (drawn_in drawing.now) place) 1 }
{
    let mut two = system_owners(drawing, place);
    let files = drawing.files.as_slice();
    for (number, file) in files.iter().enumerate() {
        two = with_entry(two, number, file, place);
    }
    two
}
