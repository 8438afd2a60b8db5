//! What stands around the drawing on a poster.
ghost use Rattle.std.specs.Prelude.{◌≡◌, Some};
ghost use Rattle.disk_pictures.specs.Drawings.{file_in};
ghost use Rattle.disk_pictures.specs.Held.{drawn_in};
ghost use Rattle.disk_pictures.specs.Html.{html_of};
ghost use Rattle.disk_pictures.specs.Petscii.{petscii_of};
ghost use Rattle.disk_pictures.specs.Posters.{line_height, line_left, line_start, line_top, line_width};
ghost use Rattle.disk_pictures.specs.Posters.{poster_head, poster_line, poster_told};

use crate::drawing::Drawing;
use crate::drawn_file::DrawnFile;
use crate::html::Html;
use crate::pages::arcs::Look;
use crate::pages::page::DASHES;
use crate::pages::sentences::Summary;
use crate::petscii::Petscii;
use crate::verdicts::Verdict;
use damaged_files::{TypeText, disk_name, entry_name};
use disk_layout::{BamView, EntryView};
use std::fmt::{self, Display, Formatter};

/// The beginning of a poster, up to its title.
const HEAD: &str =
    "<svg xmlns=\"http://www.w3.org/2000/svg\" width=\"297mm\" height=\"420mm\" viewBox=\"0 0 297 420\">\n<title>";

/// The poster's style: that of a light page, without rules that readers of SVG don't know.
const STYLE: &str =
    "text{font:2.2px ui-monospace,Menlo,Consolas,\"DejaVu Sans Mono\",monospace;fill:#222}.paper{fill:#fbfaf7}\
    .name{font-size:12px;text-anchor:middle}.told{font-size:4px;text-anchor:middle}.hub{font-size:1100px;\
    text-anchor:middle}.e{text-anchor:end}circle{fill:none;stroke-width:700}.w1 circle{stroke-width:540}\
    .w2 circle{stroke-width:390}path{fill:none;stroke-width:2}path.w1{stroke-width:1.5}path.w2{stroke-width:1}\
    path.w3{stroke-width:2;stroke-dasharray:0 .75 1.5 9}.n text{font-size:1100px;text-anchor:middle;fill:#444;\
    paint-order:stroke;stroke:#fbfaf7;stroke-width:300}.n path{stroke:#444;stroke-width:120}.free{stroke:#e8e4d9}\
    .lost{stroke:#9898aa}.map{stroke:#161616}.dir{stroke:#5e5e5e}.edge{stroke:#fff;stroke-width:1500}\
    .fault{stroke:#d40000}circle.fault{stroke-width:1100}.open circle{stroke:#fff;stroke-width:200}\
    .white{stroke:#fff;stroke-width:.6}.side{stroke:#4d4831}.c0{stroke:#8c8259}.c0 .s{stroke:#4d4831}\
    .c1{stroke:#1c9182}.c1 .s{stroke:#0f5048}.c2{stroke:#4b75ff}.c2 .s{stroke:#29408c}.c3{stroke:#e320ba}\
    .c3 .s{stroke:#7d1266}.c4{stroke:#406c83}.c4 .s{stroke:#233b48}.c5{stroke:#716046}.c5 .s{stroke:#3e3526}\
    .c6{stroke:#3a4353}.c6 .s{stroke:#20252e}.c7{stroke:#4a3934}.c7 .s{stroke:#291f1d}.c8{stroke:#0c0bca}\
    .c8 .s{stroke:#07066f}.c9{stroke:#5d0476}.c9 .s{stroke:#330241}.c10{stroke:#630a00}.c10 .s{stroke:#360600}\
    .c11{stroke:#041c33}.c11 .s{stroke:#020f1c}";

/// The end of the style, the paper, and the beginning of the disk's name above the drawing.
const PAPER: &str = "</style>\n<clipPath id=\"n\"><rect width=\"22\" height=\"3\"/></clipPath>\n\
    <rect class=\"paper\" width=\"297\" height=\"420\"/>\n<text class=\"name\" x=\"148.5\" y=\"24\">";

/// The beginning of the drawing, up to the disk's name in its middle.
const DRAWING: &str =
    "</text>\n<svg x=\"23.5\" y=\"44\" width=\"250\" height=\"250\" viewBox=\"-36600 -36600 73200 73200\">\n\
    <svg x=\"-6900\" y=\"-1200\" width=\"13800\" height=\"2400\" viewBox=\"-6900 -1200 13800 2400\">\
    <text class=\"hub\" y=\"400\">";

/// The end of the poster.
pub(crate) const END: &str = "</svg>\n";

/// The end of the poster of an image that has more than its disk.
pub(crate) const MISSING_END: &str = "<text class=\"told\" x=\"148.5\" y=\"300\">\
    Not on the disk of 35 tracks: what `ledger check --as-is` lists</text>\n</svg>\n";

/// The head of the poster, from 18/0: the disk's name, as it is typed and as a C64 shows it, and the style.
#[derive(Clone, Copy)]
pub(crate) struct Head<'a>(pub &'a [u8; 256]);

impl Display for Head<'_> {
    ghost output = { λ head. Some (poster_head html_of petscii_of head.0.now) };

    fn fmt<W: fmt::Write>(&self, f: &mut Formatter<W>) -> fmt::Result {
        let bytes = disk_name(self.0);
        let (name, signs) = (Html(bytes), Petscii(bytes));
        write!(
            f,
            "{HEAD}{name}</title>\n<style>{STYLE}{DASHES}{PAPER}{name}</text>\n\
            <text class=\"told\" x=\"148.5\" y=\"33\"><tspan>{signs}</tspan> 1541 disk, id "
        )
    }
}

/// What follows it, from what is drawn and reported, up to the first group of sectors.
#[derive(Clone, Copy)]
pub(crate) struct Heading<'a> {
    /// What is drawn.
    pub drawing: &'a Drawing,
    /// What is reported of it.
    pub verdict: Verdict,
}

impl Display for Heading<'_> {
    ghost output = { λ told. Some (poster_told html_of told.verdict told.drawing.now.map (drawn_in told.drawing.now)) };

    fn fmt<W: fmt::Write>(&self, f: &mut Formatter<W>) -> fmt::Result {
        let map = &self.drawing.map;
        let view = BamView::new(map);
        let summary = Summary {
            drawing: self.drawing,
            verdict: self.verdict,
        };
        write!(
            f,
            "{} {}</text>\n<text class=\"told\" x=\"148.5\" y=\"40\">{summary}{DRAWING}{}</text></svg>\n\
            <g transform=\"rotate(-90)\">\n",
            Html(view.id()),
            Html(view.version()),
            Html(disk_name(map))
        )
    }
}

/// The greatest number of entries whose lines stand in one column, and in two.
const ONE_COLUMN: usize = 12;

const TWO_COLUMNS: usize = 36;

/// How far from the left the line of this entry stands, one of so many.
fn left(count: usize, number: usize) -> usize
    ensures { result ≡ line_left count number }
{
    match count {
        0..=ONE_COLUMN => 20,
        0..=TWO_COLUMNS => 20 + 130 * (number / 18 % 2),
        _ => 20 + 65 * (number / 36 % 4),
    }
}

/// How far from the top it stands.
fn top(count: usize, number: usize) -> usize
    ensures { result ≡ line_top count number }
{
    match count {
        0..=ONE_COLUMN => 306 + 9 * (number % 12),
        0..=TWO_COLUMNS => 306 + 6 * (number % 18),
        _ => 306 + 3 * (number % 36),
    }
}

/// How wide and how high the line of one of so many entries is.
fn size(count: usize) -> (usize, usize)
    ensures width { result.0 ≡ line_width count }
    ensures height { result.1 ≡ line_height count }
{
    match count {
        0..=ONE_COLUMN => (189, 9),
        0..=TWO_COLUMNS => (126, 6),
        _ => (63, 3),
    }
}

/// The beginning of the line of an entry.
#[derive(Clone, Copy)]
struct LineStart {
    count: usize,
    number: usize,
}

impl Display for LineStart {
    ghost output = { λ start. Some (line_start start.count start.number) };

    fn fmt<W: fmt::Write>(&self, f: &mut Formatter<W>) -> fmt::Result {
        let (width, height) = size(self.count);
        write!(
            f,
            "<svg x=\"{}\" y=\"{}\" width=\"{width}\" height=\"{height}\" viewBox=\"0 0 63 3\">\
            <path class=\"{}\" d=\"M0 1.5h3\"/>",
            left(self.count, self.number),
            top(self.count, self.number),
            Look(self.number)
        )
    }
}

/// The line of an entry: its block count, its type, and its name, as it is typed and as a C64 shows it.
#[derive(Clone, Copy)]
pub(crate) struct Line<'a> {
    /// How many entries there are.
    pub count: usize,
    /// The entry's number.
    pub number: usize,
    /// The entry.
    pub file: &'a DrawnFile,
}

impl Display for Line<'_> {
    ghost output = { λ entry. Some (poster_line html_of petscii_of entry.count entry.number (file_in entry.file.now)) };

    fn fmt<W: fmt::Write>(&self, f: &mut Formatter<W>) -> fmt::Result {
        let entry = EntryView::new(&self.file.slot.bytes);
        let name = entry_name(&self.file.slot);
        let kind = TypeText {
            byte: entry.type_byte(),
            locked: "&lt;",
        };
        writeln!(
            f,
            "{}<text class=\"e\" x=\"10\" y=\"2.3\">{}</text><text x=\"11.5\" y=\"2.3\">{kind}</text>\
            <g transform=\"translate(19)\" clip-path=\"url(#n)\"><text y=\"2.3\">{}</text></g>\
            <text x=\"41.5\" y=\"2.3\">{}</text></svg>",
            LineStart {
                count: self.count,
                number: self.number
            },
            entry.block_count(),
            Html(name),
            Petscii(name)
        )
    }
}
