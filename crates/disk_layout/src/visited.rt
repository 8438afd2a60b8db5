//! Which sectors a walk has reached: a table with one mark for each place.
ghost use Rattle.std.specs.Prelude.{◌≡◌, length};

use d64_image::{Place, SECTORS};

/// A set of places, with one mark for each place of the disk. Looking up and adding take the same time for each place.
#[derive(Drop)]
pub struct Visited {
    seen: [bool; SECTORS],
    pub ghost full: { length seen ≡ 683 },
}

impl Visited {
    ghost use Rattle.std.specs.Prelude.{◌↔◌, ◌⊎◌, ◌+◌, false, IsTrue};
    ghost use Rattle.disk_layout.specs.Visited.{is_in, room};

    /// No place yet.
    pub fn new() -> Visited
        ensures empty { (p : Place) → is_in result p ≡ false }
        ensures room { room result ≡ 683 }
    {
        Visited {
            seen: [false; SECTORS],
        }
    }

    /// Whether the place has been added.
    pub fn contains(&self, place: Place) -> bool
        ensures { result ≡ is_in self.now place }
    {
        self.seen[place.index()]
    }

    /// Adds a place that isn't in yet.
    pub fn insert(&mut self, place: Place)
        requires free { is_in self.old place ≡ false }
        ensures now { (q : Place) → IsTrue (is_in self.new q) ↔ (place ≡ q) ⊎ IsTrue (is_in self.old q) }
        ensures room { room self.new + 1 ≡ room self.old }
    {
        self.seen[place.index()] = true;
    }
}
