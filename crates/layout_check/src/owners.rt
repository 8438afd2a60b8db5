//! The owner of each sector of a disk, as far as a survey has come: a table with one number for each place.
ghost use Rattle.std.specs.Prelude.{◌≡◌, length};

use d64_image::{Place, SECTORS};
use disk_layout::{Fault, map_place};

/// The number of a sector that nobody owns.
pub(crate) const NOBODY: u8 = 255;

/// The number of the map and the directory.
const SYSTEM: u8 = 254;

/// The owner of each sector, as a number: 255 for nobody, 254 for the map and the directory. An entry has its position
/// among the used entries, from 0. A look-up takes the same time for each sector, however much is owned.
#[derive(Drop)]
pub(crate) struct Owners {
    numbers: [u8; SECTORS],
    pub ghost full: { length numbers ≡ 683 },
}

impl Owners {
    ghost use Rattle.std.specs.Prelude.{◌≢◌, ◌<◌, ◌↔◌, Contains, IfErr, IsTrue, List, OnOk, slice_index};
    ghost use Rattle.d64_image.specs.Places.{index_of};
    ghost use Rattle.d64_image.specs.declared.place.Place.{Place};
    ghost use Rattle.disk_layout.specs.Chain.{EachOnce};
    ghost use Rattle.layout_check.specs.Owners.{AreOwnedWith, IsClaimed, IsOwned, IsSystem, owner_of};

    /// Nobody owns a sector.
    fn new() -> Owners
        ensures { (p : Place) → owner_of result p ≡ 255 }
    {
        Owners {
            numbers: [NOBODY; SECTORS],
        }
    }

    /// The table in which the map and the directory, with these sectors, own theirs, and nobody owns any other.
    pub(crate) fn of_directory(directory: &[Place]) -> Owners
        ensures { IsSystem result directory.now }
    {
        let mut owners = Owners::new();
        owners.set(map_place(), SYSTEM);
        for &place in directory {
            owners.set(place, SYSTEM);
        }
        owners
    }

    /// The number of the sector's owner.
    pub(crate) fn owner(&self, place: Place) -> u8
        ensures { result ≡ owner_of self.now place }
    {
        self.numbers[place.index()]
    }

    /// Whether the sector has an owner.
    pub(crate) fn is_owned(&self, place: Place) -> bool
        ensures { IsTrue result ↔ (owner_of self.now place ≢ 255) }
    {
        self.owner(place) != NOBODY
    }

    /// How many sectors have the owner that this one has.
    pub(crate) fn owned_with(&self, place: Place) -> u16
        ensures { (ps : List Place) → AreOwnedWith self.now place ps → result ≡ length ps }
    {
        let owner = self.owner(place);
        let mut count = 0;
        for &number in self.numbers.iter() {
            count += u16::from(number == owner);
        }
        count
    }

    /// The numbers of the owners of all sectors, in the order of their indices.
    pub(crate) fn numbers(&self) -> &[u8; SECTORS]
        ensures { (p : Place) → slice_index result.now (index_of p) ≡ owner_of self.now p }
    {
        &self.numbers
    }

    /// Gives the sector to this owner.
    pub(crate) fn set(&mut self, place: Place, number: u8)
        ensures here { owner_of self.new place ≡ number }
        ensures there { (q : Place) → place ≢ q → owner_of self.new q ≡ owner_of self.old q }
    {
        self.numbers[place.index()] = number;
    }

    /// Gives all these sectors, no two of which are equal, to one owner. If any of them is owned already,
    /// `OwnedTwice` is returned at such a sector, and the table may hold anything.
    pub(crate) fn claim(&mut self, number: u8, places: &[Place]) -> Result<(), Fault>
        requires some { number < 255 }
        requires once { EachOnce places.now }
        ensures ok { OnOk result (IsClaimed self.old self.new number places.now) }
        ensures err { IfErr result (IsOwned self.old places.now) }
    {
        for &place in places {
            if self.owner(place) != NOBODY {
                return Err(Fault::OwnedTwice(place));
            }
            self.set(place, number);
        }
        Ok(())
    }
}
