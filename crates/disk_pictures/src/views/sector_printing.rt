//! A sector of a disk, as it is printed: its bytes, whose it is, and where its link leads.
ghost use Rattle.std.specs.Prelude.{◌≡◌, ◌≢◌, IfErr, OnOk, Some, slice_get, slice_index};
ghost use Rattle.std.specs.Io.KnownBytes.{Appends};
ghost use Rattle.d64_image.specs.Images.{sector};
ghost use Rattle.d64_image.specs.Memory.{disk_image};
ghost use Rattle.disk_pictures.specs.Drawings.{owner_of};
ghost use Rattle.disk_pictures.specs.Held.{drawn_in};
ghost use Rattle.disk_pictures.specs.Maps.{is_wide as wide_of};
ghost use Rattle.disk_pictures.specs.Views.{IsSectorPrinted, IsViewFault, line_if, link_text, owner_text};
ghost use Rattle.disk_pictures.specs.Views.{sector_text, unknown_owner};
ghost use Rattle.command_faults.specs.declared.faults.CommandFault.TheVariants as faults;
ghost use Rattle.disk_pictures.specs.declared.owners.Owner.TheVariants as owners;

use crate::drawing::Drawing;
use crate::map_printing::{EntryLine, is_wide};
use crate::owners::Owner;
use crate::reading::draw_or_fault;
use crate::views::byte_lines::print_bytes;
use command_faults::{CommandFault, flush, load, print_text};
use d64_image::{MemDisk, Place, Sectors};
use disk_layout::{BamView, Fault};
use std::alloc::Global;
use std::fmt::{self, Display, Formatter};
use std::io::Write;

/// Where the link in these two bytes of a sector leads.
#[derive(Clone, Copy)]
struct LinkText {
    track: u8,
    sector: u8,
}

impl Display for LinkText {
    ghost output = { λ link. Some (link_text link.track link.sector) };

    fn fmt<W: fmt::Write>(&self, f: &mut Formatter<W>) -> fmt::Result {
        if self.track == 0 {
            return writeln!(f, "LINK END {}", self.sector);
        }
        match Place::new(self.track, self.sector) {
            Some(_) => writeln!(f, "LINK {}/{}", self.track, self.sector),
            None => writeln!(f, "LINK OFF THE DISK {}/{}", self.track, self.sector),
        }
    }
}

/// Prints the line of the entry with this number, if there is one.
fn print_entry<W: Write>(out: &mut W, drawing: &Drawing, number: usize) -> Result<(), CommandFault>
    ensures ok { OnOk result (Appends (W.contents out.old) (W.contents out.new)
        (line_if (wide_of (drawn_in drawing.now)) number (slice_get (drawn_in drawing.now).files number))) }
    ensures err { IfErr result (λ fault. fault ≡ faults.File) }
{
    let wide = is_wide(drawing);
    match drawing.files.as_slice().get(number) {
        Some(file) => print_text(out, EntryLine { wide, number, file }),
        None => print_text(out, "\n"),
    }
}

/// Prints whose the sector is.
fn print_owner<W: Write>(out: &mut W, drawing: &Drawing, place: Place) -> Result<(), CommandFault>
    ensures ok { OnOk result (Appends (W.contents out.old) (W.contents out.new)
        (owner_text drawing.now.map (drawn_in drawing.now) place (owner_of (drawn_in drawing.now) place))) }
    ensures err { IfErr result (λ fault. fault ≡ faults.File) }
{
    match drawing.owner(place) {
        Owner::Map => print_text(out, "OWNER MAP\n"),
        Owner::Directory => print_text(out, "OWNER DIRECTORY\n"),
        Owner::Blocks(number) => {
            print_text(out, "OWNER BLOCK ")?;
            print_entry(out, drawing, number)
        }
        Owner::Sides(number) => {
            print_text(out, "OWNER SIDE ")?;
            print_entry(out, drawing, number)
        }
        Owner::Nobody => print_nobodys(out, drawing, place),
    }
}

/// Prints that nobody drawn has the sector, and what the map calls it.
fn print_nobodys<W: Write>(out: &mut W, drawing: &Drawing, place: Place) -> Result<(), CommandFault>
    ensures ok { OnOk result (Appends (W.contents out.old) (W.contents out.new)
        (owner_text drawing.now.map (drawn_in drawing.now) place owners.Nobody)) }
    ensures err { IfErr result (λ fault. fault ≡ faults.File) }
{
    let free = BamView::new(&drawing.map).is_free(place);
    if free {
        print_text(out, "OWNER NONE, FREE\n")
    } else {
        print_text(out, "OWNER NONE, TAKEN\n")
    }
}

/// What is printed of the owner if the directory can't be read for this fault.
#[derive(Clone, Copy)]
struct UnknownOwner(Fault);

impl Display for UnknownOwner {
    ghost output = { λ owner. Some (unknown_owner owner.0) };

    fn fmt<W: fmt::Write>(&self, f: &mut Formatter<W>) -> fmt::Result {
        writeln!(f, "OWNER UNKNOWN, LAYOUT {}", self.0)
    }
}

/// Prints where the sector's link leads, after everything else.
fn print_link<W: Write>(out: &mut W, bytes: &[u8; 256]) -> Result<(), CommandFault>
    ensures ok { OnOk result (Appends (W.contents out.old) (W.contents out.new)
        (link_text (slice_index bytes.now 0) (slice_index bytes.now 1))) }
    ensures err { IfErr result (λ fault. fault ≡ faults.File) }
{
    print_text(
        out,
        LinkText {
            track: bytes[0],
            sector: bytes[1],
        },
    )?;
    flush(out)
}

/// Prints the sector at a place with its owner.
fn print_owned<W: Write>(
    out: &mut W,
    bytes: &[u8; 256],
    drawing: &Drawing,
    place: Place,
) -> Result<(), CommandFault>
    ensures ok { OnOk result (Appends (W.contents out.old) (W.contents out.new) (sector_text bytes.now
        (owner_text drawing.now.map (drawn_in drawing.now) place (owner_of (drawn_in drawing.now) place)))) }
    ensures err { IfErr result (λ fault. fault ≡ faults.File) }
{
    print_bytes(out, bytes)?;
    print_owner(out, drawing, place)?;
    print_link(out, bytes)
}

/// Prints a sector whose owner isn't known for this fault of the directory.
fn print_unowned<W: Write>(out: &mut W, bytes: &[u8; 256], fault: Fault) -> Result<(), CommandFault>
    ensures ok { OnOk result (Appends (W.contents out.old) (W.contents out.new)
        (sector_text bytes.now (unknown_owner fault))) }
    ensures err { IfErr result (λ fault. fault ≡ faults.File) }
{
    print_bytes(out, bytes)?;
    print_text(out, UnknownOwner(fault))?;
    print_link(out, bytes)
}

/// Prints a sector of the image: its bytes in hexadecimal digits, sixteen in a line, with the characters that a C64 shows
/// for them after it was switched on. Then follow its owner, with the line of its entry as `map_image` prints it, and the
/// place to which its link leads.
///
/// The disk may be damaged: an entry has the sectors that its links come to. If the directory's sectors aren't a chain on
/// track 18, the owner is unknown, and the line says why. `ImageSize` and `NoMemory`: nothing was printed. `File` if the
/// output failed, which may then have a part.
pub fn sector_image<W: Write>(
    alloc: Global,
    image: &[u8],
    place: Place,
    out: &mut W,
) -> Result<(), CommandFault>
    ensures ok { OnOk result (IsSectorPrinted W.contents image.now place out.old out.new) }
    ensures err { IfErr result (IsViewFault image.now) }
    ensures untouched { IfErr result (λ fault. (fault ≢ faults.File) → out.new ≡ out.old) }
{
    let mut disk = load(alloc, image)?;
    let bytes = *disk.sector(place);
    match draw_or_fault(alloc, &mut disk)? {
        Ok(drawing) => print_owned(out, &bytes, &drawing, place),
        Err(fault) => print_unowned(out, &bytes, fault),
    }
}
