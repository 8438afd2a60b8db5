//! What stands around the drawing on a picture's page.
ghost use Rattle.std.specs.Prelude.{◌≡◌, Some};
ghost use Rattle.disk_pictures.specs.Drawings.{file_in};
ghost use Rattle.disk_pictures.specs.Held.{drawn_in};
ghost use Rattle.disk_pictures.specs.Html.{html_of};
ghost use Rattle.disk_pictures.specs.Petscii.{petscii_of};
ghost use Rattle.disk_pictures.specs.Pictures.{cells_text, link_text, row_text, title_text, told_text, verdict_class};

use crate::drawing::Drawing;
use crate::drawn_file::DrawnFile;
use crate::html::Html;
use crate::pages::arcs::Look;
use crate::pages::sentences::Summary;
use crate::petscii::Petscii;
use crate::verdicts::Verdict;
use damaged_files::{TypeText, disk_name, entry_name};
use disk_layout::{BamView, EntryView};
use std::fmt::{self, Display, Formatter};

/// The beginning of a page, up to its title.
pub(crate) const HEAD: &str = "<!DOCTYPE html>\n<html lang=\"en\">\n<meta charset=\"utf-8\">\n\
    <meta name=\"viewport\" content=\"width=device-width,initial-scale=1\">\n<title>";

/// The page's style: light and dark, for wide and narrow screens, and for paper. A file has one of twelve colours, which
/// stay apart for people who are colour-blind, and one of four shapes.
const STYLE: &str = ":root{color-scheme:light dark}body{margin:24px;background:#fbfaf7;color:#222;\
    font:14px/1.4 ui-monospace,Menlo,Consolas,\"DejaVu Sans Mono\",monospace}h1{font-size:20px;margin:0}\
    h1,p{overflow-wrap:anywhere}bdi:not(:empty){margin-left:2ch}p{margin:4px 0 12px}a{color:inherit}\
    main{display:grid;gap:16px 32px;\
    grid-template-columns:minmax(0,720px) minmax(0,1fr)}main>div{max-height:calc(100vh - 130px);overflow:auto}\
    main>svg{width:100%;height:auto}table{border-collapse:collapse}td,th{padding:1px 8px;text-align:right;\
    white-space:pre}tr>:nth-child(3),tr>:nth-child(4){text-align:left}td a{display:inline-block;max-width:20ch;\
    overflow:hidden;text-overflow:ellipsis;vertical-align:bottom;text-decoration:none}\
    td a:hover,td a:focus{max-width:none;text-decoration:underline}ul{list-style:none;padding:0;margin:0 0 12px}\
    li{margin:0 0 2px}i{display:inline-block;box-sizing:border-box;width:12px;height:12px;margin:0 6px 0 0;\
    background:currentColor;background-clip:content-box;vertical-align:-1px;forced-color-adjust:none}\
    .bad b{color:#b00000}.good b{color:#17692b}\
    circle{fill:none;stroke-width:700}.w1 circle{stroke-width:540}.w2 circle{stroke-width:390}\
    i.w1{padding:1.5px 0}i.w2{padding:3px 0}i.w3{padding:0 4px}\
    text{font:1100px ui-monospace,Menlo,Consolas,\"DejaVu Sans Mono\",monospace;fill:#444;text-anchor:middle}\
    .n{pointer-events:none;fill:none;stroke:#444;stroke-width:120}.n text{paint-order:stroke;stroke:#fbfaf7;\
    stroke-width:300}.free{stroke:#e8e4d9}.lost{stroke:#9898aa}.map{stroke:#161616}.dir{stroke:#5e5e5e}\
    .edge{stroke:#fff;stroke-width:1500}.fault{stroke:#d40000;stroke-width:1100}.open circle{stroke:#fff;\
    stroke-width:200;pointer-events:none}.free i{color:#e8e4d9}.lost i{color:#9898aa}.map i{color:#161616}\
    .dir i{color:#5e5e5e}.fault i{color:#d40000}.side i{background:linear-gradient(90deg,#999 50%,#444 50%)}\
    .open i{background:linear-gradient(#999 40%,#fff 40%,#fff 60%,#999 60%)}.c0{stroke:#8c8259;color:#8c8259}\
    .c0 .s{stroke:#4d4831}.c1{stroke:#1c9182;color:#1c9182}.c1 .s{stroke:#0f5048}.c2{stroke:#4b75ff;color:#4b75ff}\
    .c2 .s{stroke:#29408c}.c3{stroke:#e320ba;color:#e320ba}.c3 .s{stroke:#7d1266}.c4{stroke:#406c83;color:#406c83}\
    .c4 .s{stroke:#233b48}.c5{stroke:#716046;color:#716046}.c5 .s{stroke:#3e3526}.c6{stroke:#3a4353;color:#3a4353}\
    .c6 .s{stroke:#20252e}.c7{stroke:#4a3934;color:#4a3934}.c7 .s{stroke:#291f1d}.c8{stroke:#0c0bca;color:#0c0bca}\
    .c8 .s{stroke:#07066f}.c9{stroke:#5d0476;color:#5d0476}.c9 .s{stroke:#330241}.c10{stroke:#630a00;color:#630a00}\
    .c10 .s{stroke:#360600}.c11{stroke:#041c33;color:#041c33}.c11 .s{stroke:#020f1c}g:target circle{stroke-width:800}\
    svg:has(g:target) g g:not(:target):not(#f){opacity:.15}.all{visibility:hidden}\
    main:has(g:target) .all{visibility:visible}main:not(:has(circle.free)) li.free{display:none}\
    main:not(:has(circle.lost)) li.lost{display:none}main:not(:has(circle.s)) li.side{display:none}\
    main:not(:has(.open circle)) li.open{display:none}main:not(:has(circle.fault)) li.fault{display:none}\
    table:not(:has(td:nth-child(n+5):not(:empty))) :is(td,th):nth-child(n+5){display:none}\
    @media(max-width:900px){body{margin:12px}main{display:block}main>div{max-height:none}}\
    @media screen and (prefers-color-scheme:dark){body{background:#15171b;color:#e6e6e6}text{fill:#c8c8c8}\
    .n{stroke:#c8c8c8}.n text{stroke:#15171b}.free{stroke:#2a2d34}.lost{stroke:#a29c93}.map{stroke:#fff}\
    .dir{stroke:#9aa0aa}.edge{stroke:#15171b}.fault{stroke:#ff4a3d}.bad b{color:#ff7a70}.good b{color:#6fd08c}\
    .free i{color:#2a2d34}.lost i{color:#a29c93}.map i{color:#fff}.dir i{color:#9aa0aa}.fault i{color:#ff4a3d}\
    .c0{stroke:#627c6e;color:#627c6e}.c0 .s{stroke:#b0beb6}.c1{stroke:#85748f;color:#85748f}.c1 .s{stroke:#c2bac7}\
    .c2{stroke:#aa46f5;color:#aa46f5}.c2 .s{stroke:#d4a2fa}.c3{stroke:#2fa067;color:#2fa067}.c3 .s{stroke:#97d0b3}\
    .c4{stroke:#7b92c5;color:#7b92c5}.c4 .s{stroke:#bdc8e2}.c5{stroke:#2fcd81;color:#2fcd81}.c5 .s{stroke:#97e6c0}\
    .c6{stroke:#96baff;color:#96baff}.c6 .s{stroke:#cadcff}.c7{stroke:#d2bf02;color:#d2bf02}.c7 .s{stroke:#e8df80}\
    .c8{stroke:#c9c5be;color:#c9c5be}.c8 .s{stroke:#e4e2de}.c9{stroke:#c4d2e6;color:#c4d2e6}.c9 .s{stroke:#e2e8f2}\
    .c10{stroke:#a5fdbe;color:#a5fdbe}.c10 .s{stroke:#d2fede}.c11{stroke:#fff700;color:#fff700}.c11 .s{stroke:#fffb80}}\
    @page{size:A4;margin:10mm}@media print{*{print-color-adjust:exact;-webkit-print-color-adjust:exact}body{margin:0;\
    font-size:10px}main{display:block}main>svg{display:block;width:130mm;margin:0 auto}main>div{max-height:none;\
    overflow:visible;columns:90mm;font-size:7px;line-height:1.15}main>div:has(tr:nth-child(81)){columns:60mm}\
    main>div:has(tr:nth-child(81)) bdi{display:none}td,th{padding:0 3px}i{width:9px;height:7px}\
    i.w1{padding:1px 0}i.w2{padding:2px 0}i.w3{padding:0 3px}tr:first-child{break-after:avoid}.hint,.all{display:none}}";

/// The dash of each ring: the arc of a sector less 200, and then nothing; and half as long, for entries of the fourth
/// shape.
pub(crate) const DASHES: &str =
    "[r=\"34600\"]{stroke-dasharray:10152 300000}[r=\"33800\"]{stroke-dasharray:9912 300000}\
    [r=\"33000\"]{stroke-dasharray:9673 300000}[r=\"32200\"]{stroke-dasharray:9434 300000}\
    [r=\"31400\"]{stroke-dasharray:9194 300000}[r=\"30600\"]{stroke-dasharray:8955 300000}\
    [r=\"29800\"]{stroke-dasharray:8716 300000}[r=\"29000\"]{stroke-dasharray:8476 300000}\
    [r=\"28200\"]{stroke-dasharray:8237 300000}[r=\"27400\"]{stroke-dasharray:7998 300000}\
    [r=\"26600\"]{stroke-dasharray:7758 300000}[r=\"25800\"]{stroke-dasharray:7519 300000}\
    [r=\"25000\"]{stroke-dasharray:7279 300000}[r=\"24200\"]{stroke-dasharray:7040 300000}\
    [r=\"23400\"]{stroke-dasharray:6801 300000}[r=\"22600\"]{stroke-dasharray:6561 300000}\
    [r=\"21800\"]{stroke-dasharray:6322 300000}[r=\"21000\"]{stroke-dasharray:6744 300000}\
    [r=\"20200\"]{stroke-dasharray:6480 300000}[r=\"19400\"]{stroke-dasharray:6215 300000}\
    [r=\"18600\"]{stroke-dasharray:5950 300000}[r=\"17800\"]{stroke-dasharray:5686 300000}\
    [r=\"17000\"]{stroke-dasharray:5421 300000}[r=\"16200\"]{stroke-dasharray:5157 300000}\
    [r=\"15400\"]{stroke-dasharray:5175 300000}[r=\"14600\"]{stroke-dasharray:4896 300000}\
    [r=\"13800\"]{stroke-dasharray:4617 300000}[r=\"13000\"]{stroke-dasharray:4337 300000}\
    [r=\"12200\"]{stroke-dasharray:4058 300000}[r=\"11400\"]{stroke-dasharray:3779 300000}\
    [r=\"10600\"]{stroke-dasharray:3717 300000}[r=\"9800\"]{stroke-dasharray:3422 300000}\
    [r=\"9000\"]{stroke-dasharray:3126 300000}[r=\"8200\"]{stroke-dasharray:2830 300000}\
    [r=\"7400\"]{stroke-dasharray:2535 300000}\
    .w3 [r=\"34600\"]{stroke-dasharray:0 2538 5076 300000}.w3 [r=\"33800\"]{stroke-dasharray:0 2478 4956 300000}\
    .w3 [r=\"33000\"]{stroke-dasharray:0 2418 4836 300000}.w3 [r=\"32200\"]{stroke-dasharray:0 2358 4717 300000}\
    .w3 [r=\"31400\"]{stroke-dasharray:0 2298 4597 300000}.w3 [r=\"30600\"]{stroke-dasharray:0 2238 4477 300000}\
    .w3 [r=\"29800\"]{stroke-dasharray:0 2179 4358 300000}.w3 [r=\"29000\"]{stroke-dasharray:0 2119 4238 300000}\
    .w3 [r=\"28200\"]{stroke-dasharray:0 2059 4118 300000}.w3 [r=\"27400\"]{stroke-dasharray:0 1999 3999 300000}\
    .w3 [r=\"26600\"]{stroke-dasharray:0 1939 3879 300000}.w3 [r=\"25800\"]{stroke-dasharray:0 1879 3759 300000}\
    .w3 [r=\"25000\"]{stroke-dasharray:0 1819 3639 300000}.w3 [r=\"24200\"]{stroke-dasharray:0 1760 3520 300000}\
    .w3 [r=\"23400\"]{stroke-dasharray:0 1700 3400 300000}.w3 [r=\"22600\"]{stroke-dasharray:0 1640 3280 300000}\
    .w3 [r=\"21800\"]{stroke-dasharray:0 1580 3161 300000}.w3 [r=\"21000\"]{stroke-dasharray:0 1686 3372 300000}\
    .w3 [r=\"20200\"]{stroke-dasharray:0 1620 3240 300000}.w3 [r=\"19400\"]{stroke-dasharray:0 1553 3107 300000}\
    .w3 [r=\"18600\"]{stroke-dasharray:0 1487 2975 300000}.w3 [r=\"17800\"]{stroke-dasharray:0 1421 2843 300000}\
    .w3 [r=\"17000\"]{stroke-dasharray:0 1355 2710 300000}.w3 [r=\"16200\"]{stroke-dasharray:0 1289 2578 300000}\
    .w3 [r=\"15400\"]{stroke-dasharray:0 1293 2587 300000}.w3 [r=\"14600\"]{stroke-dasharray:0 1224 2448 300000}\
    .w3 [r=\"13800\"]{stroke-dasharray:0 1154 2308 300000}.w3 [r=\"13000\"]{stroke-dasharray:0 1084 2168 300000}\
    .w3 [r=\"12200\"]{stroke-dasharray:0 1014 2029 300000}.w3 [r=\"11400\"]{stroke-dasharray:0 944 1889 300000}\
    .w3 [r=\"10600\"]{stroke-dasharray:0 929 1858 300000}.w3 [r=\"9800\"]{stroke-dasharray:0 855 1711 300000}\
    .w3 [r=\"9000\"]{stroke-dasharray:0 781 1563 300000}.w3 [r=\"8200\"]{stroke-dasharray:0 707 1415 300000}\
    .w3 [r=\"7400\"]{stroke-dasharray:0 633 1267 300000}";

/// The beginning of the drawing, up to the disk's name in its middle.
const DRAWING: &str = "</p>\n<main>\n<svg viewBox=\"-36600 -36600 73200 73200\" role=\"img\" \
    aria-label=\"The disk as 35 rings of sectors, each in the colour of its file; the table lists the files\">\n\
    <svg x=\"-6900\" y=\"-1200\" width=\"13800\" height=\"2400\" viewBox=\"-6900 -1200 13800 2400\"><text y=\"400\">";

/// The end of the drawing, with the numbers of tracks and an arrow from sector 0 to 1.
pub(crate) const TRACKS: &str =
    "</g>\n<g class=\"n\">\n<text y=\"-34220\">1</text>\n<text y=\"-31020\">5</text>\n<text y=\"-27020\">10</text>\n\
    <text y=\"-23020\">15</text>\n<text y=\"-20620\">18</text>\n<text y=\"-19020\">20</text>\n\
    <text y=\"-15020\">25</text>\n<text y=\"-11020\">30</text>\n<text y=\"-7020\">35</text>\n\
    <path d=\"M300-36250h3000l-600-250m600 250l-600 250\"/>\n</g>\n</svg>\n";

/// The meaning of the colours, and the head of the table.
pub(crate) const LEGEND: &str = "<div>\n<ul>\n\
    <li class=\"map\"><i></i>map of free sectors</li>\n<li class=\"dir\"><i></i>directory</li>\n\
    <li class=\"free\"><i></i>free</li>\n<li class=\"lost\"><i></i>taken in the map, in no file</li>\n\
    <li class=\"side\"><i></i>side sector, in another shade of its file (right)</li>\n\
    <li class=\"open\"><i></i>in use, but free in the map</li>\n\
    <li class=\"fault\"><i></i>the fault, with a mark at the rim</li>\n</ul>\n<table>\n\
    <tr><th></th><th>blocks</th><th>name</th><th>type</th><th>length</th><th>records</th></tr>\n";

/// The end of the page.
pub(crate) const END: &str = "</table>\n<p class=\"all\"><a href=\"#all\">Show all files</a></p>\n\
    <p>The numbers in the drawing are tracks. Sector 0 begins at the top; the arrow shows where sector 1 follows.</p>\n\
    <p class=\"hint\">Point at a sector for its place, file and block. Click a name to see its file alone.</p>\n\
    </div>\n</main>\n";

/// How what is reported is styled.
pub(crate) fn class_of(verdict: Verdict) -> &'static str
    ensures { result.now ≡ verdict_class verdict }
{
    match (verdict.found, verdict.cut) {
        (None, None) => "good",
        _ => "bad",
    }
}

/// The head of the page, from 18/0: the disk's name, as it is typed and as a C64 shows it, and the style.
#[derive(Clone, Copy)]
pub(crate) struct Title<'a>(pub &'a [u8; 256]);

impl Display for Title<'_> {
    ghost output = { λ title. Some (title_text html_of petscii_of title.0.now) };

    fn fmt<W: fmt::Write>(&self, f: &mut Formatter<W>) -> fmt::Result {
        let bytes = disk_name(self.0);
        let (name, signs) = (Html(bytes), Petscii(bytes));
        write!(
            f,
            "{HEAD}{name}</title>\n<style>{STYLE}{DASHES}</style>\n<h1>{name}<bdi>{signs}</bdi></h1>\n\
            <p>1541 disk, id "
        )
    }
}

/// What follows it, from what is drawn and reported, up to the first group of sectors.
#[derive(Clone, Copy)]
pub(crate) struct Told<'a> {
    /// What is drawn.
    pub drawing: &'a Drawing,
    /// What is reported of it.
    pub verdict: Verdict,
}

impl Display for Told<'_> {
    ghost output = { λ told. Some (told_text html_of told.verdict told.drawing.now.map (drawn_in told.drawing.now)) };

    fn fmt<W: fmt::Write>(&self, f: &mut Formatter<W>) -> fmt::Result {
        let map = &self.drawing.map;
        let view = BamView::new(map);
        let summary = Summary {
            drawing: self.drawing,
            verdict: self.verdict,
        };
        write!(
            f,
            "{} {}</p>\n<p class=\"{}\"><b>{}</b> {summary}{DRAWING}{}</text></svg>\n\
            <g transform=\"rotate(-90)\" aria-hidden=\"true\">\n",
            Html(view.id()),
            Html(view.version()),
            class_of(self.verdict),
            self.verdict,
            Html(disk_name(map))
        )
    }
}

/// Record length and number of records in two cells, if they are printed.
#[derive(Clone, Copy)]
struct Cells<'a>(&'a DrawnFile);

impl Display for Cells<'_> {
    ghost output = { λ cells. Some (cells_text (file_in cells.0.now)) };

    fn fmt<W: fmt::Write>(&self, f: &mut Formatter<W>) -> fmt::Result {
        match self.0.records() {
            Some((length, count)) => write!(f, "{length}</td><td>{count}"),
            None => f.write_str("</td><td>"),
        }
    }
}

/// The name of an entry, which leads to its group, and beside it as a C64 shows it.
#[derive(Clone, Copy)]
pub(crate) struct Link<'a> {
    /// The entry's number.
    pub number: usize,
    /// The entry's name.
    pub name: &'a [u8],
}

impl Display for Link<'_> {
    ghost output = { λ link. Some (link_text html_of petscii_of link.number link.name.now) };

    fn fmt<W: fmt::Write>(&self, f: &mut Formatter<W>) -> fmt::Result {
        let (name, signs) = (Html(self.name), Petscii(self.name));
        write!(
            f,
            "<a href=\"#f{}\">{name}</a><bdi>{signs}</bdi>",
            self.number
        )
    }
}

/// The row of an entry in the table.
#[derive(Clone, Copy)]
pub(crate) struct Row<'a> {
    /// The entry's number.
    pub number: usize,
    /// The entry.
    pub file: &'a DrawnFile,
}

impl Display for Row<'_> {
    ghost output = { λ entry. Some (row_text html_of petscii_of entry.number (file_in entry.file.now)) };

    fn fmt<W: fmt::Write>(&self, f: &mut Formatter<W>) -> fmt::Result {
        let entry = EntryView::new(&self.file.slot.bytes);
        let number = self.number;
        let name = entry_name(&self.file.slot);
        let kind = TypeText {
            byte: entry.type_byte(),
            locked: "&lt;",
        };
        writeln!(
            f,
            "<tr><td><i class=\"{}\"></i></td><td>{}</td><td>{}</td><td>{kind}</td><td>{}</td></tr>",
            Look(number),
            entry.block_count(),
            Link { number, name },
            Cells(self.file)
        )
    }
}
