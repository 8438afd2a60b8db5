//! The sectors of a picture: each is a circle whose one dash is the sector. The page's style has the dash of each ring.
ghost use Rattle.std.specs.Prelude.{◌≡◌, ◌≤◌, ◌++◌, ◌*◌, Some, codes};
ghost use Rattle.d64_image.specs.Geometry.{sectors_on};
ghost use Rattle.d64_image.specs.Places.{track_of};
ghost use Rattle.disk_layout.specs.Texts.{place_text};
ghost use Rattle.disk_pictures.specs.Html.{html_of};
ghost use Rattle.disk_pictures.specs.Pictures.{arc, block_arc, look};
ghost use Rattle.disk_pictures.specs.Pictures.{fault_sector, dash_text, radius as radius_of, rim_mark};
ghost use Rattle.disk_pictures.specs.Pictures.{ring_of, ring_text, side_arc};

use crate::html::Html;
use d64_image::{Place, sectors_on};
use disk_layout::Fault;
use std::fmt::{self, Display, Formatter};

/// The radius of the mark at the rim.
const RIM: u16 = 35_700;

/// How long the arc of the sector is on a ring of this radius.
fn arc_length(radius: u16, place: Place) -> u32
    ensures value { result ≡ arc radius (sectors_on (track_of place)) }
    ensures small { result ≤ 710 * radius }
{
    710 * radius as u32 / (113 * sectors_on(place.track()) as u32)
}

/// The radius of a track's ring.
pub(crate) fn radius(track: u8) -> u16
    ensures { result ≡ radius_of track }
{
    35_400_u32.saturating_sub(800 * track as u32) as u16
}

/// A sector's place.
#[derive(Clone, Copy)]
pub(crate) struct PlaceText(pub Place);

impl Display for PlaceText {
    ghost output = { λ text. Some (place_text text.0) };

    fn fmt<W: fmt::Write>(&self, f: &mut Formatter<W>) -> fmt::Result {
        write!(f, "{}/{}", self.0.track(), self.0.sector())
    }
}

/// The beginning of a sector's circle on a ring of this radius.
#[derive(Clone, Copy)]
pub(crate) struct Ring {
    radius: u16,
    place: Place,
}

impl Ring {
    /// On the ring of its own track.
    pub(crate) fn of(place: Place) -> Ring
        ensures radius { result.radius ≡ radius_of (track_of place) }
        ensures place { result.place ≡ place }
    {
        Ring {
            radius: radius(place.track()),
            place,
        }
    }
}

impl Display for Ring {
    ghost output = { λ ring. Some (ring_text ring.radius ring.place) };

    fn fmt<W: fmt::Write>(&self, f: &mut Formatter<W>) -> fmt::Result {
        let length = arc_length(self.radius, self.place);
        write!(
            f,
            "<circle r=\"{}\" stroke-dashoffset=\"-{}\"",
            self.radius,
            self.place.sector() as u64 * length as u64
        )
    }
}

/// The classes of an entry: one of twelve colours, and one of four widths for entries of one colour.
#[derive(Clone, Copy)]
pub(crate) struct Look(pub usize);

impl Display for Look {
    ghost output = { λ entry. Some (look entry.0) };

    fn fmt<W: fmt::Write>(&self, f: &mut Formatter<W>) -> fmt::Result {
        write!(f, "c{} w{}", self.0 % 12, self.0 / 12 % 4)
    }
}

/// A sector that is no entry's.
#[derive(Clone, Copy)]
pub(crate) struct PlainArc {
    /// Where it is.
    pub place: Place,
    /// The class of its circle.
    pub class: &'static str,
    /// Whose it is, as it is printed.
    pub owner: &'static str,
}

impl Display for PlainArc {
    ghost output = { λ sector. Some (ring_of sector.place ++ (codes " class=\"" ++ (sector.class.now
        ++ (codes "\"><title>" ++ (place_text sector.place ++ (codes " " ++ (sector.owner.now
        ++ codes "</title></circle>\n"))))))) };

    fn fmt<W: fmt::Write>(&self, f: &mut Formatter<W>) -> fmt::Result {
        writeln!(
            f,
            "{} class=\"{}\"><title>{} {}</title></circle>",
            Ring::of(self.place),
            self.class,
            PlaceText(self.place),
            self.owner
        )
    }
}

/// A block of an entry, in the colour of the entry's group.
#[derive(Clone, Copy)]
pub(crate) struct BlockArc<'a> {
    /// The entry's name.
    pub name: &'a [u8],
    /// The block's number, from 1.
    pub number: usize,
    /// How many blocks there are.
    pub blocks: usize,
    /// Where it is.
    pub place: Place,
}

impl Display for BlockArc<'_> {
    ghost output = { λ block. Some (block_arc html_of block.name.now block.number block.blocks block.place) };

    fn fmt<W: fmt::Write>(&self, f: &mut Formatter<W>) -> fmt::Result {
        writeln!(
            f,
            "{}><title>{} {}, block {} of {}</title></circle>",
            Ring::of(self.place),
            PlaceText(self.place),
            Html(self.name),
            self.number,
            self.blocks
        )
    }
}

/// A side sector of an entry, in another shade of the entry's colour.
#[derive(Clone, Copy)]
pub(crate) struct SideArc<'a> {
    /// The entry's name.
    pub name: &'a [u8],
    /// The side sector's number, from 0.
    pub number: usize,
    /// Where it is.
    pub place: Place,
}

impl Display for SideArc<'_> {
    ghost output = { λ side. Some (side_arc html_of side.name.now side.number side.place) };

    fn fmt<W: fmt::Write>(&self, f: &mut Formatter<W>) -> fmt::Result {
        writeln!(
            f,
            "{} class=\"s\"><title>{} {}, side sector {}</title></circle>",
            Ring::of(self.place),
            PlaceText(self.place),
            Html(self.name),
            self.number
        )
    }
}

/// What the white line of a track has at a sector: a dash as long as the sector's own, or none.
#[derive(Clone, Copy)]
pub(crate) struct Dash {
    /// Whether the sector is in use and free in the map.
    pub white: bool,
    /// The sector.
    pub place: Place,
}

impl Display for Dash {
    ghost output = { λ dash. Some (dash_text dash.white dash.place) };

    fn fmt<W: fmt::Write>(&self, f: &mut Formatter<W>) -> fmt::Result {
        let length = arc_length(radius(self.place.track()), self.place);
        if self.white {
            write!(f, "{} 200 ", length.saturating_sub(200))
        } else {
            write!(f, "0 {length} ")
        }
    }
}

/// The mark of a fault at the rim.
#[derive(Clone, Copy)]
struct Rim(Place);

impl Display for Rim {
    ghost output = { λ mark. Some (rim_mark mark.0) };

    fn fmt<W: fmt::Write>(&self, f: &mut Formatter<W>) -> fmt::Result {
        let place = self.0;
        let dash = arc_length(RIM, place).saturating_sub(200);
        writeln!(
            f,
            "{} stroke-dasharray=\"{dash} 300000\" class=\"fault\"/>",
            Ring { radius: RIM, place }
        )
    }
}

/// The group of a fault.
#[derive(Clone, Copy)]
pub(crate) struct FaultGroup(pub Fault);

impl Display for FaultGroup {
    ghost output = { λ group. Some (fault_sector group.0) };

    fn fmt<W: fmt::Write>(&self, f: &mut Formatter<W>) -> fmt::Result {
        let told = self.0;
        let place = told.place();
        let ring = Ring::of(place);
        writeln!(
            f,
            "<g id=\"f\">\n{ring} class=\"edge\"><title>{told}</title></circle>\n\
            {ring} class=\"fault\"><title>{told}</title></circle>\n{}</g>",
            Rim(place)
        )
    }
}
