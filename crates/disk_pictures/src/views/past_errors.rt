//! The sectors past track 35 that a drive couldn't read when an image was made, and those that several files have.
ghost use Rattle.std.specs.Prelude.{◌≡◌, IfErr, OnOk, Some, flat_map, map, option_map, slice_get};
ghost use Rattle.std.specs.Io.KnownBytes.{Appends};
ghost use Rattle.disk_pictures.specs.Drawings.{file_in};
ghost use Rattle.disk_pictures.specs.Held.{drawn_in};
ghost use Rattle.disk_pictures.specs.PastErrors.{having, is_entrys, misread_text, past_error, past_error_line, past_errors_text, past_place};
ghost use Rattle.disk_pictures.specs.PastErrors.{past_sharing, past_sharing_line, past_sharings_text};
ghost use Rattle.disk_pictures.specs.PastErrors as specs;
ghost use Rattle.long_chains.specs.Sectors as sectors;
ghost use Rattle.command_faults.specs.declared.faults.CommandFault.TheVariants as faults;

use crate::drawing::Drawing;
use crate::drawn_file::DrawnFile;
use crate::views::reading_errors::{EntryName, ErrorNumber, print_errors};
use command_faults::{CommandFault, print_text};
use disk_layout::{EntryView, Slot};
use geos_files::is_in_long_geos;
use long_chains::{SECTORS_PAST, error_in, is_on_chain, misread_past, place_past};
use std::fmt::{self, Display, Formatter};
use std::io::Write;

/// The number of the first sector past track 35: how many come before it.
const FIRST_PAST: u16 = 683;

/// A sector past track 35, by its number.
#[derive(Clone, Copy)]
struct PastPlace(u16);

impl Display for PastPlace {
    ghost output = { λ sector. Some (past_place sector.0) };

    fn fmt<W: fmt::Write>(&self, f: &mut Formatter<W>) -> fmt::Result {
        let (track, sector) = place_past(self.0);
        write!(f, "{track}/{sector}")
    }
}

/// The line of a sector that wasn't read, with the entry that has it.
#[derive(Clone, Copy)]
struct PastErrorLine<'a> {
    number: u16,
    entry: Option<&'a Slot>,
    error: u8,
}

impl Display for PastErrorLine<'_> {
    ghost output = { λ line. Some (past_error line.number (option_map (λ slot. slot.now) line.entry) line.error) };

    fn fmt<W: fmt::Write>(&self, f: &mut Formatter<W>) -> fmt::Result {
        let (error, name) = (ErrorNumber(self.error), EntryName(self.entry));
        writeln!(f, "ERROR {error} {}{name}", PastPlace(self.number))
    }
}

/// The line of a sector that several files have, with the first two of their entries.
#[derive(Clone, Copy)]
struct SharingLine<'a> {
    number: u16,
    first: Option<&'a Slot>,
    second: &'a Slot,
}

impl Display for SharingLine<'_> {
    ghost output = { λ line. Some (past_sharing line.number (option_map (λ slot. slot.now) line.first) line.second.now) };

    fn fmt<W: fmt::Write>(&self, f: &mut Formatter<W>) -> fmt::Result {
        let (first, second) = (EntryName(self.first), EntryName(Some(self.second)));
        writeln!(f, "OWNEDTWICE {}{first}{second}", PastPlace(self.number))
    }
}

/// Whether the entry is closed, and its file has the sector: its chain over all tracks comes to its end and has the sector, or the file is one
/// of GEOS of which the image has all, and the sector is one of the file's own.
fn is_of(image: &[u8], file: &DrawnFile, number: u16) -> bool
    ensures { result ≡ is_entrys image.now number (file_in file.now) }
{
    let bytes = &file.slot.bytes;
    EntryView::new(bytes).type_byte() >= 128
        && (is_on_chain(image, bytes[3], bytes[4], number)
            || is_in_long_geos(image, &file.slot, number))
}

/// That of these entries which has the sector, and so many others that have it before it.
fn nth_with<'a>(
    image: &[u8],
    files: &'a [DrawnFile],
    number: u16,
    nth: usize,
) -> Option<&'a DrawnFile>
    ensures { option_map (λ file. file_in file.now) result ≡ slice_get (having image.now number (map file_in files.now)) nth }
{
    let mut left = nth;
    for file in files {
        if is_of(image, file, number) {
            if left == 0 {
                return Some(file);
            }
            left -= 1;
        }
    }
    None
}

/// The entry of a file, if there is one.
fn entry_of(file: Option<&DrawnFile>) -> Option<&Slot>
    ensures { option_map (λ slot. slot.now) result ≡ option_map (λ f. f.slot) (option_map (λ file. file_in file.now) file.entry) }
{
    match file {
        Some(file) => Some(&file.slot),
        None => None,
    }
}

/// The closed entry whose file has the sector with this number, and so many others before it whose files have it, if the files are drawn.
fn nth_past<'a>(
    image: &[u8],
    drawing: Option<&'a Drawing>,
    number: u16,
    nth: usize,
) -> Option<&'a Slot>
    ensures { option_map (λ slot. slot.now) result
        ≡ specs.nth_past image.now (option_map (λ drawn. drawn_in drawn.now) drawing.entry) number nth }
{
    match drawing {
        Some(drawing) => entry_of(nth_with(image, drawing.files.as_slice(), number, nth)),
        None => None,
    }
}

/// The first closed entry whose file has the sector past track 35 with this number, if the files are drawn: its chain over all tracks of
/// the image comes to its end. A number says how many sectors come before one in the image.
pub fn entry_past<'a>(image: &[u8], drawing: Option<&'a Drawing>, number: u16) -> Option<&'a Slot>
    ensures { option_map (λ slot. slot.now) result
        ≡ specs.entry_past image.now (option_map (λ drawn. drawn_in drawn.now) drawing.entry) number }
{
    nth_past(image, drawing, number, 0)
}

/// Prints the line of a sector, if it wasn't read.
fn print_past_error<E: Write>(
    err: &mut E,
    image: &[u8],
    drawing: Option<&Drawing>,
    number: u16,
) -> Result<(), CommandFault>
    ensures ok { OnOk result (Appends (E.contents err.old) (E.contents err.new)
        (past_error_line number (specs.entry_past image.now (option_map (λ drawn. drawn_in drawn.now) drawing.entry) number)
        (sectors.error_in image.now number))) }
    ensures err { IfErr result (λ fault. fault ≡ faults.File) }
{
    let Some(error) = error_in(image, number) else {
        return Ok(());
    };
    let entry = entry_past(image, drawing, number);
    print_text(
        err,
        PastErrorLine {
            number,
            entry,
            error,
        },
    )
}

/// Prints the lines of those of these sectors that weren't read.
fn print_errors_at<E: Write>(
    err: &mut E,
    image: &[u8],
    drawing: Option<&Drawing>,
    numbers: &[u16],
) -> Result<(), CommandFault>
    ensures ok { OnOk result (Appends (E.contents err.old) (E.contents err.new) (flat_map (λ n. past_error_line n
        (specs.entry_past image.now (option_map (λ drawn. drawn_in drawn.now) drawing.entry) n) (sectors.error_in image.now n))
        numbers.now)) }
    ensures err { IfErr result (λ fault. fault ≡ faults.File) }
{
    for &number in numbers {
        print_past_error(err, image, drawing, number)?;
    }
    Ok(())
}

/// Prints a line for each sector of tracks 36 to 42 that wasn't read when the image was made, with the entry that has it if this is
/// drawn.
fn print_past_errors<E: Write>(
    err: &mut E,
    image: &[u8],
    drawing: Option<&Drawing>,
) -> Result<(), CommandFault>
    ensures ok { OnOk result (Appends (E.contents err.old) (E.contents err.new)
        (past_errors_text image.now (option_map (λ drawn. drawn_in drawn.now) drawing.entry))) }
    ensures err { IfErr result (λ fault. fault ≡ faults.File) }
{
    let misread = misread_past(image);
    print_errors_at(err, image, drawing, misread.as_slice())
}

/// Prints the line of a sector, if several files have it.
fn print_sharing<E: Write>(
    err: &mut E,
    image: &[u8],
    drawing: Option<&Drawing>,
    number: u16,
) -> Result<(), CommandFault>
    ensures ok { OnOk result (Appends (E.contents err.old) (E.contents err.new) (past_sharing_line number
        (specs.nth_past image.now (option_map (λ drawn. drawn_in drawn.now) drawing.entry) number 0)
        (specs.nth_past image.now (option_map (λ drawn. drawn_in drawn.now) drawing.entry) number 1))) }
    ensures err { IfErr result (λ fault. fault ≡ faults.File) }
{
    let Some(second) = nth_past(image, drawing, number, 1) else {
        return Ok(());
    };
    let first = nth_past(image, drawing, number, 0);
    print_text(
        err,
        SharingLine {
            number,
            first,
            second,
        },
    )
}

/// Prints a line for each sector of tracks 36 to 42 that several files have, with the first two of their entries.
fn print_sharings<E: Write>(
    err: &mut E,
    image: &[u8],
    drawing: Option<&Drawing>,
) -> Result<(), CommandFault>
    ensures ok { OnOk result (Appends (E.contents err.old) (E.contents err.new)
        (past_sharings_text image.now (option_map (λ drawn. drawn_in drawn.now) drawing.entry))) }
    ensures err { IfErr result (λ fault. fault ≡ faults.File) }
{
    for past in 0..SECTORS_PAST as u16 {
        print_sharing(err, image, drawing, FIRST_PAST + past)?;
    }
    Ok(())
}

/// Prints a line for each sector of the image that wasn't read when it was made, with the entry that has it if this is drawn. Then
/// follows one for each sector past track 35 that several files have.
pub(crate) fn print_misread<E: Write>(
    err: &mut E,
    image: &[u8],
    drawing: Option<&Drawing>,
) -> Result<(), CommandFault>
    ensures ok { OnOk result (Appends (E.contents err.old) (E.contents err.new)
        (misread_text image.now (option_map (λ drawn. drawn_in drawn.now) drawing.entry))) }
    ensures err { IfErr result (λ fault. fault ≡ faults.File) }
{
    print_errors(err, image, drawing)?;
    print_past_errors(err, image, drawing)?;
    print_sharings(err, image, drawing)
}
