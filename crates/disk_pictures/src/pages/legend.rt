//! The meaning of the colours on a poster.
ghost use Rattle.std.specs.Prelude.{◌≡◌, ◌≤◌, Some};
ghost use Rattle.disk_pictures.specs.Held.{drawn_in};
ghost use Rattle.disk_pictures.specs.Legends.{legend_of, legend_row, poster_legend, room as room_of};

use crate::drawing::Drawing;
use crate::pages::kinds::{Kind, occurs};
use crate::pages::page::TRACKS;
use disk_layout::Fault;
use std::fmt::{self, Display, Formatter};

/// The rows that each disk needs.
const START: &str =
    "<svg x=\"20\" y=\"298\" width=\"50\" height=\"4\"><path class=\"map\" d=\"M0 2h3\"/><text x=\"4.5\" y=\"2.8\">\
    map of free sectors</text></svg>\n<svg x=\"56\" y=\"298\" width=\"50\" height=\"4\">\
    <path class=\"dir\" d=\"M0 2h3\"/><text x=\"4.5\" y=\"2.8\">directory</text></svg>\n";

/// A sample of each kind, and what it is.
const FREE: &str = "<path class=\"free\" d=\"M0 2h3\"/><text x=\"4.5\" y=\"2.8\">free";

const LOST: &str = "<path class=\"lost\" d=\"M0 2h3\"/><text x=\"4.5\" y=\"2.8\">taken, in no file";

const SIDE: &str = "<path class=\"c0\" d=\"M0 2h1.5\"/><path class=\"side\" d=\"M1.5 2h1.5\"/>\
    <text x=\"4.5\" y=\"2.8\">side sectors (right)";

const USED: &str = "<path class=\"c0\" d=\"M0 2h3\"/><path class=\"white\" d=\"M0 2h3\"/>\
    <text x=\"4.5\" y=\"2.8\">in use, free in the map";

const FAULT: &str = "<path class=\"fault\" d=\"M0 2h3\"/><text x=\"4.5\" y=\"2.8\">the fault";

/// How much room a row of this width takes, which isn't there if it isn't needed.
fn room(needed: bool, width: usize) -> usize
    ensures is { result ≡ room_of needed width }
    ensures most { result ≤ width }
{
    if needed { width } else { 0 }
}

/// A row of the legend: whether it is needed, where it begins, and its sample and text.
#[derive(Clone, Copy)]
struct Row(bool, usize, &'static str);

impl Display for Row {
    ghost output = { λ row. Some (legend_row row.0 row.1 row.2.now) };

    fn fmt<W: fmt::Write>(&self, f: &mut Formatter<W>) -> fmt::Result {
        let Row(needed, left, told) = *self;
        if needed {
            writeln!(
                f,
                "<svg x=\"{left}\" y=\"298\" width=\"50\" height=\"4\">{told}</text></svg>"
            )
        } else {
            Ok(())
        }
    }
}

/// Which rows a disk needs besides those of the map and the directory: those of the kinds of sectors that it has.
#[derive(Clone, Copy)]
pub(crate) struct Legend {
    /// That of free sectors.
    pub free: bool,
    /// That of sectors which are taken in the map and nobody's.
    pub lost: bool,
    /// That of side sectors.
    pub side: bool,
    /// That of sectors in use which are free in the map.
    pub used: bool,
    /// That of the fault.
    pub fault: bool,
}

impl Legend {
    /// The rows that a disk needs of which a check found this.
    pub(crate) fn of(found: Option<Fault>, drawing: &Drawing) -> Legend
        ensures { result ≡ legend_of found drawing.now.map (drawn_in drawing.now) }
    {
        Legend {
            free: occurs(Kind::Free, drawing),
            lost: occurs(Kind::Lost, drawing),
            side: occurs(Kind::Side, drawing),
            used: occurs(Kind::Used, drawing),
            fault: found.is_some(),
        }
    }
}

impl Display for Legend {
    ghost output = { λ legend. Some (poster_legend legend) };

    fn fmt<W: fmt::Write>(&self, f: &mut Formatter<W>) -> fmt::Result {
        let free = room(self.free, 20);
        let lost = room(self.lost, 34);
        let side = room(self.side, 40);
        let used = room(self.used, 46);
        write!(
            f,
            "{TRACKS}{START}{}{}{}{}{}",
            Row(self.free, 84, FREE),
            Row(self.lost, 84 + free, LOST),
            Row(self.side, 84 + free + lost, SIDE),
            Row(self.used, 84 + free + lost + side, USED),
            Row(self.fault, 84 + free + lost + side + used, FAULT)
        )
    }
}
