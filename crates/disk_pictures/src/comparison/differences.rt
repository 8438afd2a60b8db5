//! The sectors in which two disks differ, marked and counted.
ghost use Rattle.std.specs.Prelude.{◌≡◌, IfErr, OnOk, Some, if◌then◌else◌, []};
ghost use Rattle.std.specs.Io.KnownBytes.{Appends};
ghost use Rattle.std.specs.List.{list_any};
ghost use Rattle.disk_pictures.specs.ComparedPages.{differences, mark_arc, marks_text};
ghost use Rattle.disk_pictures.specs.Comparisons.{differs as differs_at};
ghost use Rattle.command_faults.specs.declared.faults.CommandFault.TheVariants as faults;

use crate::comparison::compared::Compared;
use crate::pages::arcs::Ring;
use crate::pages::others::GROUP_END;
use command_faults::{CommandFault, print_text};
use d64_image::{Place, SECTORS};
use std::fmt::{self, Display, Formatter};
use std::io::Write;

/// The style of what a comparison has beyond a page, and the beginning of the marks.
const MARKS: &str =
    "<style>svg>g>g:not(#f):not(.differs){opacity:.4}svg>g>g:target:not(#f){opacity:1}.differs circle{stroke:#000;\
    stroke-width:320;pointer-events:none}.differs i{color:#000;padding:4px 0}td:nth-child(5){text-align:left;\
    white-space:normal}table:not(:has(td))::before{content:\"No file differs.\"}table:not(:has(td)) tr{display:none}\
    @media screen and (prefers-color-scheme:dark){.differs circle{stroke:#fff}\
    .differs i{color:#fff}}</style>\n<g class=\"differs\">\n";

/// Whether the two disks hold other bytes at a place.
fn differs(before: &Compared<'_>, after: &Compared<'_>, place: Place) -> bool
    ensures { result ≡ differs_at before.now.sectors.now after.now.sectors.now place }
{
    before.sector(place) != after.sector(place)
}

/// Whether one of these sectors differs.
pub(crate) fn are_changed(before: &Compared<'_>, after: &Compared<'_>, places: &[Place]) -> bool
    ensures { result ≡ list_any (differs_at before.now.sectors.now after.now.sectors.now) places.now }
{
    for &place in places {
        if differs(before, after, place) {
            return true;
        }
    }
    false
}

/// How many sectors differ, at most 683.
pub(crate) fn count(before: &Compared<'_>, after: &Compared<'_>) -> u16
    ensures { result ≡ differences before.now.sectors.now after.now.sectors.now }
{
    let mut count = 0;
    for index in 0..SECTORS {
        let one = differs(before, after, Place::nth(index));
        count += u16::from(one);
    }
    count
}

/// The mark of a sector.
#[derive(Clone, Copy)]
struct Mark(Place);

impl Display for Mark {
    ghost output = { λ mark. Some (mark_arc mark.0) };

    fn fmt<W: fmt::Write>(&self, f: &mut Formatter<W>) -> fmt::Result {
        writeln!(f, "{}/>", Ring::of(self.0))
    }
}

/// Marks a sector, if it differs.
fn print_mark<W: Write>(
    out: &mut W,
    before: &Compared<'_>,
    after: &Compared<'_>,
    place: Place,
) -> Result<(), CommandFault>
    ensures ok { OnOk result (Appends (W.contents out.old) (W.contents out.new)
        (if differs_at before.now.sectors.now after.now.sectors.now place then mark_arc place else [])) }
    ensures err { IfErr result (λ fault. fault ≡ faults.File) }
{
    if differs(before, after, place) {
        print_text(out, Mark(place))
    } else {
        Ok(())
    }
}

/// Marks the sectors that differ, track by track.
pub(crate) fn print_marks<W: Write>(
    out: &mut W,
    before: &Compared<'_>,
    after: &Compared<'_>,
) -> Result<(), CommandFault>
    ensures ok { OnOk result (Appends (W.contents out.old) (W.contents out.new)
        (marks_text before.now.sectors.now after.now.sectors.now)) }
    ensures err { IfErr result (λ fault. fault ≡ faults.File) }
{
    print_text(out, MARKS)?;
    for index in 0..SECTORS {
        print_mark(out, before, after, Place::nth(index))?;
    }
    print_text(out, GROUP_END)
}
