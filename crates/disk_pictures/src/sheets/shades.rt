//! The shades of a small drawing: that of each sector, and which of them each track has.
ghost use Rattle.std.specs.Prelude.{◌≡◌, ◌<◌, length};
ghost use Rattle.disk_pictures.specs.Held.{drawn_in};
ghost use Rattle.disk_pictures.specs.Sheets.{shade as shade_of};

use crate::drawing::Drawing;
use crate::owners::Owner;
use crate::texts::is_fault_at;
use d64_image::{Place, SECTORS};
use disk_layout::{BamView, Fault};

/// How many shades there are.
pub(crate) const SHADES: usize = 29;

/// How many shades all tracks have.
const MARKS: usize = 1015;

/// The shade of a sector, below 29.
pub(crate) fn shade(drawing: &Drawing, found: Option<Fault>, place: Place) -> usize
    ensures value { result ≡ shade_of found drawing.now.map (drawn_in drawing.now) place }
    ensures small { result < 29 }
{
    if is_fault_at(found, place) {
        return 0;
    }
    match drawing.owner(place) {
        Owner::Map => 1,
        Owner::Directory => 2,
        Owner::Blocks(number) => 5 + number % 12,
        Owner::Sides(number) => 17 + number % 12,
        Owner::Nobody => {
            if BamView::new(&drawing.map).is_free(place) {
                3
            } else {
                4
            }
        }
    }
}

/// Which shades the sectors of each track have, so that a shade's path looks only at its own tracks.
#[derive(Drop)]
pub(crate) struct Shades {
    marks: [bool; MARKS],
    pub ghost full: { length marks ≡ 1015 },
}

impl Shades {
    ghost use Rattle.std.specs.Prelude.{ℕ, true};
    ghost use Rattle.disk_pictures.specs.Shades.{HasEach, has_shade};

    /// Those of a drawing's sectors.
    pub(crate) fn of(drawing: &Drawing, found: Option<Fault>) -> Shades
        ensures { HasEach result (shade_of found drawing.now.map (drawn_in drawing.now)) }
    {
        let mut shades = Shades::none();
        for index in 0..SECTORS {
            let place = Place::nth(index);
            shades.insert(place.track() - 1, shade(drawing, found, place));
        }
        shades
    }

    /// No shade of a track.
    fn none() -> Shades {
        Shades {
            marks: [false; MARKS],
        }
    }

    /// Whether a sector of the track with so many tracks before it may have the shade.
    pub(crate) fn has(&self, below: u8, shade: usize) -> bool
        requires track { below < 35 }
        requires small { shade < 29 }
        ensures { result ≡ has_shade self.now below shade }
    {
        self.marks[SHADES * below as usize + shade]
    }

    /// Adds the shade of a track.
    fn insert(&mut self, below: u8, shade: usize)
        requires track { below < 35 }
        requires small { shade < 29 }
        ensures now { has_shade self.new below shade ≡ true }
        ensures kept { (b n : ℕ) → has_shade self.old b n ≡ true → has_shade self.new b n ≡ true }
    {
        self.marks[SHADES * below as usize + shade] = true;
    }
}
