//! A contact sheet of disks, as an HTML page: its beginning, a tile for each image, and its end.
ghost use Rattle.std.specs.Prelude.{◌≡◌, ◌≢◌, ◌++◌, IfErr, IfOk, OnOk, Some};
ghost use Rattle.std.specs.Io.KnownBytes.{Appends};
ghost use Rattle.command_faults.specs.Faults.{command_status, command_text};
ghost use Rattle.damaged_files.specs.reached.Sizes.{disk_of};
ghost use Rattle.disk_pictures.specs.Held.{drawn_in};
ghost use Rattle.disk_pictures.specs.Html.{html_of};
ghost use Rattle.disk_pictures.specs.Missing.{IsMissing};
ghost use Rattle.disk_pictures.specs.Outcomes.{IsJudged, IsPictureFault};
ghost use Rattle.disk_pictures.specs.Petscii.{petscii_of};
ghost use Rattle.disk_pictures.specs.Sheets.{refused_head, refused_tile, sheet_end, sheet_head, tile_end, tile_text};
ghost use Rattle.disk_pictures.specs.Tiles.{IsTilePrinted, found_status as status_of};
ghost use Rattle.command_faults.specs.declared.faults.CommandFault.TheVariants as faults;

use crate::drawing::Drawing;
use crate::html::Html;
use crate::pages::missing_block::print_tile_end;
use crate::pages::page::HEAD;
use crate::sheets::tiles::print_tile;
use crate::verdicts::{Verdict, judged};
use crate::views::missing::missing_lines;
use command_faults::{CommandFault, flush, print_text};
use damaged_files::disk_in;
use disk_layout::Fault;
use std::alloc::Global;
use std::fmt::{self, Display, Formatter};
use std::io::Write;

/// How many images a sheet has at most.
pub const MOST_TILES: usize = 400;

/// The sheet's style: light and dark, for narrow screens and for paper. Its shades are the colours of a page.
const STYLE: &str = ":root{color-scheme:light dark}body{margin:24px;background:#fbfaf7;color:#222;\
    font:12px/1.4 ui-monospace,Menlo,Consolas,\"DejaVu Sans Mono\",monospace}h1{font-size:20px;margin:0 0 12px}\
    main{display:grid;gap:16px;grid-template-columns:repeat(auto-fill,minmax(148px,1fr))}figure{margin:0;\
    break-inside:avoid;overflow-wrap:anywhere}svg{display:block;width:100%;height:auto}code,span{display:block;\
    font:inherit}code{margin:4px 0 0}figure:not(:has(svg))::before{content:\"\";display:block;aspect-ratio:37/23;\
    box-sizing:border-box;border:1px dashed}bdi:not(:empty){margin-left:1ch}.bad b{color:#b00000}\
    .good b{color:#17692b}ul{list-style:none;padding:0;margin:16px 0 0}li svg{display:inline-block;width:12px;\
    height:12px;margin:0 6px 0 0;vertical-align:-2px}path{fill:none;stroke-width:.8}.p0{stroke:#d40000}\
    .p1{stroke:#161616}.p2{stroke:#5e5e5e}.p3{stroke:#e8e4d9}.p4{stroke:#9898aa}.p5{stroke:#8c8259}\
    .p6{stroke:#1c9182}.p7{stroke:#4b75ff}.p8{stroke:#e320ba}.p9{stroke:#406c83}.p10{stroke:#716046}\
    .p11{stroke:#3a4353}.p12{stroke:#4a3934}.p13{stroke:#0c0bca}.p14{stroke:#5d0476}.p15{stroke:#630a00}\
    .p16{stroke:#041c33}.p17{stroke:#4d4831}.p18{stroke:#0f5048}.p19{stroke:#29408c}.p20{stroke:#7d1266}\
    .p21{stroke:#233b48}.p22{stroke:#3e3526}.p23{stroke:#20252e}.p24{stroke:#291f1d}.p25{stroke:#07066f}\
    .p26{stroke:#330241}.p27{stroke:#360600}.p28{stroke:#020f1c}@media(max-width:900px){body{margin:12px}}\
    @media screen and (prefers-color-scheme:dark){body{background:#15171b;color:#e6e6e6}.bad b{color:#ff7a70}\
    .good b{color:#6fd08c}.p0{stroke:#ff4a3d}.p1{stroke:#fff}.p2{stroke:#9aa0aa}.p3{stroke:#2a2d34}\
    .p4{stroke:#a29c93}.p5{stroke:#627c6e}.p6{stroke:#85748f}.p7{stroke:#aa46f5}.p8{stroke:#2fa067}\
    .p9{stroke:#7b92c5}.p10{stroke:#2fcd81}.p11{stroke:#96baff}.p12{stroke:#d2bf02}.p13{stroke:#c9c5be}\
    .p14{stroke:#c4d2e6}.p15{stroke:#a5fdbe}.p16{stroke:#fff700}.p17{stroke:#b0beb6}.p18{stroke:#c2bac7}\
    .p19{stroke:#d4a2fa}.p20{stroke:#97d0b3}.p21{stroke:#bdc8e2}.p22{stroke:#97e6c0}.p23{stroke:#cadcff}\
    .p24{stroke:#e8df80}.p25{stroke:#e4e2de}.p26{stroke:#e2e8f2}.p27{stroke:#d2fede}.p28{stroke:#fffb80}}\
    @page{size:A4;margin:10mm}@media print{*{print-color-adjust:exact;-webkit-print-color-adjust:exact}\
    body{margin:0;font-size:9px}main{grid-template-columns:repeat(6,1fr);gap:3mm}}";

/// The end of a sheet, with the meaning of the colours.
const END: &str =
    "</main>\n<ul>\n<li><svg viewBox=\"0 0 1 1\" aria-hidden=\"true\"><path class=\"p1\" d=\"M0 .5h1\"/></svg>\
    map of free sectors</li>\n<li><svg viewBox=\"0 0 1 1\" aria-hidden=\"true\"><path class=\"p2\" d=\"M0 .5h1\"/>\
    </svg>directory</li>\n<li><svg viewBox=\"0 0 1 1\" aria-hidden=\"true\"><path class=\"p3\" d=\"M0 .5h1\"/></svg>\
    free</li>\n<li><svg viewBox=\"0 0 1 1\" aria-hidden=\"true\"><path class=\"p4\" d=\"M0 .5h1\"/></svg>\
    taken in the map, in no file</li>\n<li><svg viewBox=\"0 0 1 1\" aria-hidden=\"true\">\
    <path class=\"p5\" d=\"M0 .5h1\"/></svg>a file, in one of twelve colours</li>\n<li>\
    <svg viewBox=\"0 0 1 1\" aria-hidden=\"true\"><path class=\"p17\" d=\"M0 .5h1\"/></svg>\
    its side sectors, in another shade</li>\n<li><svg viewBox=\"0 0 1 1\" aria-hidden=\"true\">\
    <path class=\"p0\" d=\"M0 .5h1\"/></svg>the fault</li>\n</ul>\n<p>\
    Tracks 1 to 35 stand from left to right, sector 0 at the top. Blocks are free as the map counts them.</p>\n";

/// The end of the tile of an image that isn't drawn.
const REFUSED_END: &str = "</b></figcaption></figure>\n";

/// The beginning of a sheet of so many disks.
#[derive(Clone, Copy)]
struct Head(usize);

impl Display for Head {
    ghost output = { λ head. Some (sheet_head head.0) };

    fn fmt<W: fmt::Write>(&self, f: &mut Formatter<W>) -> fmt::Result {
        let count = self.0;
        write!(
            f,
            "{HEAD}Disks: {count}</title>\n<style>{STYLE}</style>\n<h1>Disks: {count}</h1>\n<main>\n"
        )
    }
}

/// The beginning of the tile of an image that isn't drawn.
#[derive(Clone, Copy)]
struct RefusedHead<'a>(&'a str);

impl Display for RefusedHead<'_> {
    ghost output = { λ head. Some (refused_head html_of head.0.now) };

    fn fmt<W: fmt::Write>(&self, f: &mut Formatter<W>) -> fmt::Result {
        write!(
            f,
            "<figure class=\"bad\"><figcaption><code>{}</code> <b>",
            Html(self.0.as_bytes())
        )
    }
}

/// Prints the tile of an image that isn't drawn, with why.
fn print_refused<W: Write>(out: &mut W, path: &str, fault: CommandFault) -> Result<(), CommandFault>
    ensures ok { OnOk result (Appends (W.contents out.old) (W.contents out.new)
        (refused_tile html_of path.now (command_text fault))) }
    ensures err { IfErr result (λ fault. fault ≡ faults.File) }
{
    print_text(out, RefusedHead(path))?;
    print_text(out, fault)?;
    print_text(out, REFUSED_END)
}

/// The exit status for this result of a check, where these lines say what isn't on the disk.
fn found_status(found: Option<Fault>, lines: &[u8]) -> u8
    ensures { result ≡ status_of found lines.now }
{
    match found {
        Some(_) => 1,
        None if lines.is_empty() => 0,
        None => 1,
    }
}

/// What is drawn of the disk in an image, and reported of it. `NoMemory`; `Layout` if the directory's sectors aren't a chain on track 18.
fn judged_disk(alloc: Global, image: &[u8]) -> Result<(Drawing, Verdict), CommandFault>
    ensures ok { IfOk result (λ (drawing, verdict). IsJudged (disk_of image.now) drawing verdict) }
    ensures err { IfErr result (IsPictureFault (disk_of image.now)) }
    ensures not_file { IfErr result (λ fault. fault ≢ faults.File) }
{
    judged(alloc, disk_in(image))
}

/// The lines that say what isn't on the disk in an image, if that can be drawn.
fn lines_beside(alloc: Global, image: &[u8]) -> Result<Vec<u8>, CommandFault>
    ensures ok { IfOk result (λ lines. IsMissing image.now lines.items) }
    ensures err { IfErr result (IsPictureFault (disk_of image.now)) }
    ensures not_file { IfErr result (λ fault. fault ≢ faults.File) }
{
    missing_lines(alloc, image)
}

/// Prints the tile of a disk in an image of which this is drawn and reported, with these lines, and returns its exit status.
fn print_drawn<W: Write>(
    out: &mut W,
    path: &str,
    verdict: Verdict,
    drawing: &Drawing,
    lines: &[u8],
) -> Result<u8, CommandFault>
    ensures ok { IfOk result (λ status. Appends (W.contents out.old) (W.contents out.new)
        (tile_text html_of petscii_of path.now verdict drawing.now.map (drawn_in drawing.now) ++ tile_end lines.now)
        × (status ≡ status_of verdict.found lines.now)) }
    ensures err { IfErr result (λ fault. fault ≡ faults.File) }
{
    print_tile(out, path, verdict, drawing)?;
    print_tile_end(lines, out)?;
    Ok(found_status(verdict.found, lines))
}

/// Prints the tile of an image that isn't drawn, and returns its exit status.
fn print_undrawn<W: Write>(out: &mut W, path: &str, fault: CommandFault) -> Result<u8, CommandFault>
    ensures ok { IfOk result (λ status. Appends (W.contents out.old) (W.contents out.new)
        (refused_tile html_of path.now (command_text fault)) × (status ≡ command_status fault)) }
    ensures err { IfErr result (λ fault. fault ≡ faults.File) }
{
    print_refused(out, path, fault)?;
    Ok(fault.status())
}

/// Prints the tile of an image with these lines, as `sheet_tile` does.
fn print_tile_with<W: Write>(
    alloc: Global,
    path: &str,
    image: &[u8],
    lines: &[u8],
    out: &mut W,
) -> Result<u8, CommandFault>
    requires { IsMissing image.now lines.now }
    ensures ok { IfOk result (IsTilePrinted W.contents path.now image.now out.old out.new) }
    ensures err { IfErr result (λ fault. fault ≡ faults.File) }
{
    match judged_disk(alloc, image) {
        Ok((drawing, verdict)) => print_drawn(out, path, verdict, &drawing, lines),
        Err(fault) => print_undrawn(out, path, fault),
    }
}

/// Prints the beginning of a contact sheet of so many disks: an HTML page. `File` if the output failed.
pub fn sheet_begin<W: Write>(out: &mut W, count: usize) -> Result<(), CommandFault>
    ensures ok { OnOk result (Appends (W.contents out.old) (W.contents out.new) (sheet_head count)) }
    ensures err { IfErr result (λ fault. fault ≡ faults.File) }
{
    print_text(out, Head(count))
}

/// Prints the next tile of a contact sheet, that of an image, and returns the exit status that `picture` has for this
/// image, of 35, 40 or 42 tracks, with error bytes or without. It is 0 if the disk is clean and nothing of the image is missing on it, 1 if
/// the disk is damaged or something is, and that of the fault if the disk can't be drawn.
///
/// It has a small drawing: tracks from left to right, each sector once in the shade of its owner, the fault in red.
/// Below stand the path, the disk's name as it is typed and as a C64 shows it, what a check reports (or where the
/// first file is cut short), how many blocks the map calls free, and the lines of `missing_lines`, if there are any. A damaged disk is drawn as far as its links go.
/// An image that can't be drawn (`ImageSize`, `Layout`, `NoMemory`) has a tile with its path and the reason. Paths and
/// names stand there only as text. A path's bytes are shown as those of names: $20 to $7E except `"` and `\` as they
/// are, every other one as `\` and two digits.
///
/// `File` if the output failed, which may then have a part.
pub fn sheet_tile<W: Write>(
    alloc: Global,
    path: &str,
    image: &[u8],
    out: &mut W,
) -> Result<u8, CommandFault>
    ensures ok { IfOk result (IsTilePrinted W.contents path.now image.now out.old out.new) }
    ensures err { IfErr result (λ fault. fault ≡ faults.File) }
{
    match lines_beside(alloc, image) {
        Ok(lines) => print_tile_with(alloc, path, image, lines.as_slice(), out),
        Err(fault) => print_undrawn(out, path, fault),
    }
}

/// Prints the next tile of a contact sheet, that of an image which couldn't be read, with the words that say why. `File`
/// if the output failed.
pub fn sheet_refusal<W: Write>(path: &str, told: &str, out: &mut W) -> Result<(), CommandFault>
    ensures ok { OnOk result (Appends (W.contents out.old) (W.contents out.new)
        (refused_tile html_of path.now (html_of told.now))) }
    ensures err { IfErr result (λ fault. fault ≡ faults.File) }
{
    print_text(out, RefusedHead(path))?;
    print_text(out, Html(told.as_bytes()))?;
    print_text(out, REFUSED_END)
}

/// Prints the end of a contact sheet, with the meaning of the colours, and flushes the output. `File` if it failed.
pub fn sheet_finish<W: Write>(out: &mut W) -> Result<(), CommandFault>
    ensures ok { OnOk result (Appends (W.contents out.old) (W.contents out.new) sheet_end) }
    ensures err { IfErr result (λ fault. fault ≡ faults.File) }
{
    print_text(out, END)?;
    flush(out)
}
