//! What a file of a disk lacks.
ghost use Rattle.std.specs.Prelude.{Some};
ghost use Rattle.damaged_files.specs.cut.Told.{shortfall_text};

use d64_image::Place;
use std::fmt::{self, Display, Formatter};

/// What a file lacks, and the sector where it ends: the last block of its chain, or its entry's sector if it has none.
#[derive(Clone, Copy, Debug, PartialEq, Eq)]
pub enum Shortfall {
    /// It is cut short: more than its block count says so.
    Short(Place),
    /// It has fewer blocks than its entry says, and nothing else says that one was lost.
    Fewer(Place),
}

/// A word and the place, such as `FEWER 17/0`.
impl Display for Shortfall {
    ghost output = { λ shortfall. Some (shortfall_text shortfall) };

    fn fmt<W: fmt::Write>(&self, f: &mut Formatter<W>) -> fmt::Result {
        let (word, place) = match self {
            Shortfall::Short(place) => ("SHORT", place),
            Shortfall::Fewer(place) => ("FEWER", place),
        };
        write!(f, "{word} {}/{}", place.track(), place.sector())
    }
}
