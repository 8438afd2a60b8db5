//! Sectors that several have.
ghost use Rattle.std.specs.Prelude.{◌≡◌, length};

use d64_image::{Place, SECTORS};
use disk_layout::map_place;

/// How many have each sector of a disk: none, one, or several.
#[derive(Drop)]
pub struct Owners {
    counts: [u8; SECTORS],
    ghost full: { length counts ≡ 683 },
}

impl Owners {
    ghost use Rattle.std.specs.Prelude.{◌+◌, ◌∷◌, [], List, ℕ, min};
    ghost use Rattle.d64_image.specs.declared.place.Place.{Place};
    ghost use Rattle.disk_layout.specs.Directory as directories;
    ghost use Rattle.damaged_files.specs.reached.Owned.{CountsAll, owners_at};
    ghost use Rattle.damaged_files.specs.reached.Sharing.{count_at, first_shared};

    /// Those of the map and of a directory with these sectors.
    pub fn of_directory(directory: &[Place]) -> Owners
        ensures { (i : ℕ) → min 2 (owners_at result i) ≡ min 2 (count_at i (directories.map_place ∷ directory.now)) }
    {
        let mut owners = Owners {
            counts: [0; SECTORS],
        };
        owners.add_one(map_place());
        owners.add(directory);
        owners
    }

    /// Adds one more to a number of owners, of which more than two aren't told apart.
    fn add_one(&mut self, place: Place)
        ensures { (i : ℕ) → min 2 (owners_at self.new i) ≡ min 2 (owners_at self.old i + count_at i (place ∷ [])) }
    {
        let index = place.index();
        if self.counts[index] < 2 {
            self.counts[index] += 1;
        }
    }

    /// Adds one more to each of these sectors.
    pub fn add(&mut self, places: &[Place])
        ensures { (i : ℕ) → min 2 (owners_at self.new i) ≡ min 2 (owners_at self.old i + count_at i places.now) }
    {
        for &place in places {
            self.add_one(place);
        }
    }

    /// The first of these blocks that several have.
    pub fn first_shared(&self, blocks: &[Place]) -> Option<Place>
        ensures { (all : List Place) → CountsAll self.now all → result ≡ first_shared all blocks.now }
    {
        for &block in blocks {
            if self.counts[block.index()] >= 2 {
                return Some(block);
            }
        }
        None
    }
}
