//! The kinds of looks at an image.
ghost use Rattle.std.specs.Prelude.{◌≡◌};
ghost use Rattle.image_looks.specs.Extents.{extent_of};

use d64_image::Place;
use disk_reports::NameForm;
use file_changes::Name;
use file_rescues::{Candidates, FileForm, RecordForm};
use opened_files::{Extent, Loss};

/// What is printed of a disk of 35 tracks alone, unless it is asked for in an image as that is.
#[derive(Clone, Copy)]
pub enum DiskLook {
    /// Its directory, with the names in this form.
    List(NameForm),
    /// Whether its layout is clean, and otherwise the first fault that a check finds.
    Check,
    /// All faults that hold, that one first, each with the files that it concerns.
    Faults,
    /// What it holds of a shop.
    Show(Loss),
}

/// What is printed of one image, which isn't written.
#[derive(Drop)]
pub enum Look {
    /// Its directory, with the names in this form.
    List(NameForm),
    /// Whether its layout is clean, and otherwise the first fault that a check finds.
    Check,
    /// All faults that hold, that one first, each with the files that it concerns.
    Faults,
    /// What it holds of a shop: how far new cards may go, the cards, and the last two requests of each till. `Loss` says
    /// what is done if its log has the rest and isn't there.
    Show(Loss),
    /// One of these four of the disk in an image that may have 40 or 42 tracks, or error bytes. After a check follows what isn't on
    /// that disk: a line for each sector that a drive couldn't read, and for each file that goes on past track 35.
    AsIs(DiskLook),
    /// Which sector is whose, and what a check reports: a line for each track, for a terminal. After that follows what isn't on the
    /// disk, as after a check of an image as it is.
    Map,
    /// The same as an HTML page with a drawing of the disk.
    Picture,
    /// The same as a poster: an SVG file of its own with the same drawing, title, legend and directory. A sentence says whether anything
    /// isn't on the disk.
    Poster,
    /// How many sectors of each track its map calls free. Nothing is checked.
    Free,
    /// A sector, whose it is, and where its link leads. Nothing is checked.
    Sector(Place),
    /// The records of a relative file, a line each.
    Records {
        /// How they are printed.
        form: RecordForm,
        /// Among which files it is looked for.
        candidates: Candidates,
        /// The name of the file, of which the first is taken.
        name: Name,
    },
    /// The bytes of a file of any type, or the listing of its program.
    Bytes {
        /// How it is printed.
        form: FileForm,
        /// Among which files it is looked for.
        candidates: Candidates,
        /// The name of the file, of which the first is taken.
        name: Name,
    },
}

impl Look {
    /// Which images this is printed of. The directory, checks and a shop are those of a disk of 35 tracks alone, so that a file of
    /// another size is refused.
    pub(crate) fn extent(&self) -> Extent
        ensures { result ≡ extent_of self.now }
    {
        match self {
            Look::List(_) | Look::Check | Look::Faults | Look::Show(_) => Extent::Disk,
            Look::AsIs(_) | Look::Map | Look::Picture | Look::Poster => Extent::Whole,
            Look::Bytes { .. } | Look::Records { .. } => Extent::Whole,
            _ => Extent::FirstTracks,
        }
    }
}
