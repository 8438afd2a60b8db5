//! What can be wrong with the layout of a disk, and where.
ghost use Rattle.std.specs.Prelude.{◌≡◌, ◌++◌, Some, codes};
ghost use Rattle.disk_layout.specs.Texts.{fault_text, place_text};

use d64_image::Place;
use std::error::Error;
use std::fmt::{self, Display, Formatter};

/// A fault of the layout, with the sector at which it was found. The definitions `Holds` and `HoldsOfClean` say what
/// each one means for the image at its place. If there are several faults, any of them may be returned.
#[derive(Clone, Copy, Debug, PartialEq, Eq)]
pub enum Fault {
    /// A link, or an entry's first block, is no place of the disk, or a link of the directory leaves its sectors.
    BadLink(Place),
    /// A chain reaches this sector a second time.
    Loop(Place),
    /// The sector has two owners among the map, the directory, chains and side sectors.
    OwnedTwice(Place),
    /// A closed slot of this directory sector has an unknown type.
    BadType(Place),
    /// A used slot of this directory sector isn't closed.
    Unclosed(Place),
    /// A side sector disagrees with its file, or an entry of this directory sector names none.
    BadSide(Place),
    /// A relative entry of this directory sector has record length 0 or 255.
    BadLength(Place),
    /// A relative entry of this directory sector has a wrong block count.
    CountWrong(Place),
    /// The map is wrong about this sector, or, at 18/0, about a track's number of free sectors.
    MapWrong(Place),
    /// The device failed at this sector.
    Device(Place),
}

impl Fault {
    ghost use Rattle.disk_layout.specs.Number.{number_of, place_of};

    /// The fault's number: 1 BadLink, 2 Loop, 3 OwnedTwice, 4 BadType, 5 Unclosed, 6 BadSide, 7 BadLength,
    /// 8 CountWrong, 9 MapWrong, 10 Device.
    pub fn number(self) -> u8
        ensures { result ≡ number_of self }
    {
        match self {
            Fault::BadLink(_) => 1,
            Fault::Loop(_) => 2,
            Fault::OwnedTwice(_) => 3,
            Fault::BadType(_) => 4,
            Fault::Unclosed(_) => 5,
            Fault::BadSide(_) => 6,
            Fault::BadLength(_) => 7,
            Fault::CountWrong(_) => 8,
            Fault::MapWrong(_) => 9,
            Fault::Device(_) => 10,
        }
    }

    /// Where it is.
    pub fn place(self) -> Place
        ensures { result ≡ place_of self }
    {
        match self {
            Fault::BadLink(place)
            | Fault::Loop(place)
            | Fault::OwnedTwice(place)
            | Fault::BadType(place)
            | Fault::Unclosed(place)
            | Fault::BadSide(place)
            | Fault::BadLength(place)
            | Fault::CountWrong(place)
            | Fault::MapWrong(place)
            | Fault::Device(place) => place,
        }
    }

    /// Its word, as it is printed, and its place.
    fn word_and_place(self) -> (&'static str, Place)
        ensures { fault_text self ≡ result.0.now ++ codes " " ++ place_text result.1 }
    {
        match self {
            Fault::BadLink(place) => ("BADLINK", place),
            Fault::Loop(place) => ("LOOP", place),
            Fault::OwnedTwice(place) => ("OWNEDTWICE", place),
            Fault::BadType(place) => ("BADTYPE", place),
            Fault::Unclosed(place) => ("UNCLOSED", place),
            Fault::BadSide(place) => ("BADSIDE", place),
            Fault::BadLength(place) => ("BADLENGTH", place),
            Fault::CountWrong(place) => ("COUNTWRONG", place),
            Fault::MapWrong(place) => ("MAPWRONG", place),
            Fault::Device(place) => ("DEVICE", place),
        }
    }
}

/// Its word and its place, such as `LOOP 17/0`.
impl Display for Fault {
    ghost output = { λ fault. Some (fault_text fault) };

    fn fmt<W: fmt::Write>(&self, f: &mut Formatter<W>) -> fmt::Result {
        let (word, place) = self.word_and_place();
        write!(f, "{word} {}/{}", place.track(), place.sector())
    }
}

impl Error for Fault {}
