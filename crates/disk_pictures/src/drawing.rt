//! What is drawn of a disk: its map, its directory, and of each entry the sectors that its links come to.
ghost use Rattle.std.specs.Prelude.{◌≡◌, ◌≤◌, length};
ghost use Rattle.d64_image.specs.declared.place.Place.{Place};
ghost use Rattle.disk_pictures.specs.Drawings.{drawn_of, owner_of};
ghost use Rattle.disk_pictures.specs.Owners.{owner_in};

use crate::drawn_file::DrawnFile;
use crate::owners::{Owner, Owners};
use d64_image::Place;
use disk_layout::Slot;

/// What is drawn of a disk: at most 144 entries, and whose each of its 683 sectors is.
#[derive(Drop)]
pub struct Drawing {
    /// 18/0.
    pub map: [u8; 256],
    /// The directory's sectors, in order.
    pub directory: Vec<Place>,
    /// The entries, in the directory's order.
    pub files: Vec<DrawnFile>,
    /// Whose each sector is.
    owners: Owners,
    pub ghost whole: { length map ≡ 256 },
    pub ghost some: { length files.items ≤ 144 },
    pub ghost owned: { (p : Place) → owner_in owners p
        ≡ owner_of (drawn_of directory.items files.items) p },
}

impl Drawing {
    ghost use Rattle.std.specs.Prelude.{option_map, slice_get};
    ghost use Rattle.disk_pictures.specs.Held.{drawn_in};
    ghost use Rattle.disk_pictures.specs.Trims.{entry_of};

    /// The drawing of these, with a table of whose each sector is.
    pub(crate) fn new(map: [u8; 256], directory: Vec<Place>, files: Vec<DrawnFile>) -> Drawing
        requires few { length files.items ≤ 144 }
        ensures drawn { drawn_in result ≡ drawn_of directory.items files.items }
        ensures map { result.map ≡ map }
    {
        let owners = Owners::of(directory.as_slice(), files.as_slice());
        Drawing {
            map,
            directory,
            files,
            owners,
        }
    }

    /// Whose the sector is.
    pub fn owner(&self, place: Place) -> Owner
        ensures { result ≡ owner_of (drawn_in self.now) place }
    {
        self.owners.owner(place)
    }

    /// The entry with this number, if there is one.
    fn entry(&self, number: usize) -> Option<&Slot>
        ensures { option_map (λ slot. slot.now) result
            ≡ option_map (λ f. f.slot) (slice_get (drawn_in self.now).files number) }
    {
        match self.files.as_slice().get(number) {
            Some(file) => Some(&file.slot),
            None => None,
        }
    }

    /// The entry that has the sector, if one has.
    pub(crate) fn entry_with(&self, place: Place) -> Option<&Slot>
        ensures { option_map (λ slot. slot.now) result
            ≡ entry_of (drawn_in self.now) (owner_of (drawn_in self.now) place) }
    {
        match self.owner(place) {
            Owner::Blocks(number) | Owner::Sides(number) => self.entry(number),
            _ => None,
        }
    }
}
