//! The picture of a disk, as an HTML page with an SVG drawing.
ghost use Rattle.std.specs.Prelude.{◌≡◌, ◌≢◌, ◌≤◌, IfErr, IfOk, OnOk, Some, map};
ghost use Rattle.std.specs.Io.KnownBytes.{Appends};
ghost use Rattle.d64_image.specs.Memory.{sectors_in};
ghost use Rattle.disk_layout.specs.Layout.{IsLayout, Layout};
ghost use Rattle.disk_pictures.specs.Drawings.{file_in};
ghost use Rattle.disk_pictures.specs.Held.{drawn_in};
ghost use Rattle.disk_pictures.specs.Html.{html_of};
ghost use Rattle.disk_pictures.specs.Petscii.{petscii_of};
ghost use Rattle.disk_pictures.specs.Outcomes.{IsDrawnAs, IsPictureFault, IsPicturePrinted};
ghost use Rattle.disk_pictures.specs.Pictures.{drawing_text, fault_group, file_group, group_head};
ghost use Rattle.disk_pictures.specs.Pictures.{own_block, own_side, picture_page, row_text, system_group};
ghost use Rattle.disk_pictures.specs.Texts.{numbered};
ghost use Rattle.command_faults.specs.declared.faults.CommandFault.TheVariants as faults;

use crate::drawing::Drawing;
use crate::drawn_file::DrawnFile;
use crate::owners::Owner;
use crate::pages::arcs::{BlockArc, FaultGroup, Look, PlainArc, SideArc};
use crate::pages::others::{GROUP_END, print_others};
use crate::pages::page::{END, LEGEND, Row, TRACKS, Title, Told};
use crate::pages::white_lines::print_open;
use crate::verdicts::{Verdict, judged};
use command_faults::{CommandFault, flush, print_text};
use d64_image::Place;
use damaged_files::entry_name;
use disk_layout::Fault;
use std::alloc::Global;
use std::fmt::{self, Display, Formatter};
use std::io::Write;

/// The beginning of the group of the map and the directory: the map's sector, 18/0.
const SYSTEM: &str = "<g id=\"m\">\n<circle r=\"21000\" stroke-dashoffset=\"-0\" class=\"map\">\
    <title>18/0 map</title></circle>\n";

/// Prints the group of the map and the directory.
fn print_system<W: Write>(out: &mut W, drawing: &Drawing) -> Result<(), CommandFault>
    ensures ok { OnOk result (Appends (W.contents out.old) (W.contents out.new)
        (system_group (drawn_in drawing.now))) }
    ensures err { IfErr result (λ fault. fault ≡ faults.File) }
{
    print_text(out, SYSTEM)?;
    for &place in drawing.directory.as_slice() {
        let sector = PlainArc {
            place,
            class: "dir",
            owner: "directory",
        };
        print_text(out, sector)?;
    }
    print_text(out, GROUP_END)
}

/// Prints block `index` of an entry, if the sector is drawn as the entry's.
fn print_block<W: Write>(
    out: &mut W,
    drawing: &Drawing,
    number: usize,
    file: &DrawnFile,
    index: usize,
    place: Place,
) -> Result<(), CommandFault>
    requires { index ≤ 720 }
    ensures ok { OnOk result (Appends (W.contents out.old) (W.contents out.new)
        (own_block html_of (drawn_in drawing.now) number (file_in file.now) index place)) }
    ensures err { IfErr result (λ fault. fault ≡ faults.File) }
{
    match drawing.owner(place) {
        Owner::Blocks(owner) if owner == number => print_text(
            out,
            BlockArc {
                name: entry_name(&file.slot),
                number: index + 1,
                blocks: file.blocks.as_slice().len(),
                place,
            },
        ),
        _ => Ok(()),
    }
}

/// Prints the blocks of an entry.
fn print_blocks<W: Write>(
    out: &mut W,
    drawing: &Drawing,
    number: usize,
    file: &DrawnFile,
) -> Result<(), CommandFault>
    ensures ok { OnOk result (Appends (W.contents out.old) (W.contents out.new)
        (numbered (own_block html_of (drawn_in drawing.now) number (file_in file.now)) 0 file.now.blocks.items)) }
    ensures err { IfErr result (λ fault. fault ≡ faults.File) }
{
    let blocks = file.blocks.as_slice();
    for (index, &place) in blocks.iter().enumerate() {
        print_block(out, drawing, number, file, index, place)?;
    }
    Ok(())
}

/// Prints side sector `index` of an entry, if the sector is drawn as the entry's.
fn print_side<W: Write>(
    out: &mut W,
    drawing: &Drawing,
    number: usize,
    file: &DrawnFile,
    index: usize,
    place: Place,
) -> Result<(), CommandFault>
    ensures ok { OnOk result (Appends (W.contents out.old) (W.contents out.new)
        (own_side html_of (drawn_in drawing.now) number (file_in file.now) index place)) }
    ensures err { IfErr result (λ fault. fault ≡ faults.File) }
{
    match drawing.owner(place) {
        Owner::Sides(owner) if owner == number => print_text(
            out,
            SideArc {
                name: entry_name(&file.slot),
                number: index,
                place,
            },
        ),
        _ => Ok(()),
    }
}

/// Prints the side sectors of an entry.
fn print_sides<W: Write>(
    out: &mut W,
    drawing: &Drawing,
    number: usize,
    file: &DrawnFile,
) -> Result<(), CommandFault>
    ensures ok { OnOk result (Appends (W.contents out.old) (W.contents out.new)
        (numbered (own_side html_of (drawn_in drawing.now) number (file_in file.now)) 0 file.now.sides.items)) }
    ensures err { IfErr result (λ fault. fault ≡ faults.File) }
{
    let sides = file.sides.as_slice();
    for (index, &place) in sides.iter().enumerate() {
        print_side(out, drawing, number, file, index, place)?;
    }
    Ok(())
}

/// The beginning of an entry's group, with its classes.
#[derive(Clone, Copy)]
struct GroupHead(usize);

impl Display for GroupHead {
    ghost output = { λ head. Some (group_head head.0) };

    fn fmt<W: fmt::Write>(&self, f: &mut Formatter<W>) -> fmt::Result {
        let number = self.0;
        writeln!(f, "<g id=\"f{number}\" class=\"{}\">", Look(number))
    }
}

/// Prints the group of an entry.
fn print_file<W: Write>(
    out: &mut W,
    drawing: &Drawing,
    number: usize,
    file: &DrawnFile,
) -> Result<(), CommandFault>
    ensures ok { OnOk result (Appends (W.contents out.old) (W.contents out.new)
        (file_group html_of (drawn_in drawing.now) number (file_in file.now))) }
    ensures err { IfErr result (λ fault. fault ≡ faults.File) }
{
    print_text(out, GroupHead(number))?;
    print_blocks(out, drawing, number, file)?;
    print_sides(out, drawing, number, file)?;
    print_text(out, GROUP_END)
}

/// Prints the groups of the entries.
fn print_files<W: Write>(out: &mut W, drawing: &Drawing) -> Result<(), CommandFault>
    ensures ok { OnOk result (Appends (W.contents out.old) (W.contents out.new)
        (numbered (file_group html_of (drawn_in drawing.now)) 0 (map file_in drawing.now.files.items))) }
    ensures err { IfErr result (λ fault. fault ≡ faults.File) }
{
    let files = drawing.files.as_slice();
    for (number, file) in files.iter().enumerate() {
        print_file(out, drawing, number, file)?;
    }
    Ok(())
}

/// Prints the rows of the table.
fn print_rows<W: Write>(out: &mut W, files: &[DrawnFile]) -> Result<(), CommandFault>
    ensures ok { OnOk result (Appends (W.contents out.old) (W.contents out.new)
        (numbered (row_text html_of petscii_of) 0 (map file_in files.now))) }
    ensures err { IfErr result (λ fault. fault ≡ faults.File) }
{
    for (number, file) in files.iter().enumerate() {
        print_text(out, Row { number, file })?;
    }
    Ok(())
}

/// Prints the group of the fault, if one was found.
fn print_fault<W: Write>(out: &mut W, found: Option<Fault>) -> Result<(), CommandFault>
    ensures ok { OnOk result (Appends (W.contents out.old) (W.contents out.new) (fault_group found)) }
    ensures err { IfErr result (λ fault. fault ≡ faults.File) }
{
    match found {
        None => Ok(()),
        Some(fault) => print_text(out, FaultGroup(fault)),
    }
}

/// Prints the groups of the drawing.
pub(crate) fn print_drawing<W: Write>(
    out: &mut W,
    found: Option<Fault>,
    drawing: &Drawing,
) -> Result<(), CommandFault>
    ensures ok { OnOk result (Appends (W.contents out.old) (W.contents out.new)
        (drawing_text html_of found drawing.now.map (drawn_in drawing.now))) }
    ensures err { IfErr result (λ fault. fault ≡ faults.File) }
{
    print_system(out, drawing)?;
    print_files(out, drawing)?;
    print_others(out, drawing)?;
    print_open(out, drawing)?;
    print_fault(out, found)
}

/// Prints the page.
fn print_page<W: Write>(
    out: &mut W,
    verdict: Verdict,
    drawing: &Drawing,
) -> Result<(), CommandFault>
    ensures ok { OnOk result (Appends (W.contents out.old) (W.contents out.new)
        (picture_page verdict drawing.now.map (drawn_in drawing.now))) }
    ensures err { IfErr result (λ fault. fault ≡ faults.File) }
{
    print_text(out, Title(&drawing.map))?;
    print_text(out, Told { drawing, verdict })?;
    print_drawing(out, verdict.found, drawing)?;
    print_text(out, TRACKS)?;
    print_text(out, LEGEND)?;
    print_rows(out, drawing.files.as_slice())?;
    print_text(out, END)?;
    flush(out)
}

/// Prints the disk as one HTML page with an SVG drawing: 35 rings, and an arc for each sector. Each entry has a colour
/// and a width, its side sectors have another shade, and the fault is red. If you point at a sector, it shows its place
/// and its owner. A click on a name shows only that entry. The page has no script and loads nothing. Names of the disk
/// stand in it only as text, as they are typed and as a C64 shows them. What a check of the disk reports stands in it,
/// and is also the result. A damaged disk is drawn as far as its links go. The page of a sound disk is that of its
/// layout.
///
/// `ImageSize`; `NoMemory`; `Layout` if the directory's sectors aren't a chain on track 18: nothing was printed then.
/// `File` if the output failed, which may then have a part.
pub fn picture_image<W: Write>(
    alloc: Global,
    image: &[u8],
    out: &mut W,
) -> Result<Option<Fault>, CommandFault>
    ensures ok { IfOk result (IsPicturePrinted W.contents image.now out.old out.new) }
    ensures sound { IfOk result (λ found. (l : Layout) → IsLayout (sectors_in image.now) l
        → IsDrawnAs W.contents picture_page image.now l out.old out.new found) }
    ensures err { IfErr result (IsPictureFault image.now) }
    ensures untouched { IfErr result (λ fault. (fault ≢ faults.File) → out.new ≡ out.old) }
{
    let (drawing, verdict) = judged(alloc, image)?;
    print_page(out, verdict, &drawing)?;
    Ok(verdict.found)
}
