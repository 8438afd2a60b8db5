//! The sectors that a drive couldn't read when an image was made.
ghost use Rattle.std.specs.Prelude.{◌≡◌, ◌↔◌, IfErr, IsTrue, None, OnOk, Some, option_map};
ghost use Rattle.std.specs.Io.KnownBytes.{Appends};
ghost use Rattle.d64_image.specs.declared.place.Place.{Place};
ghost use Rattle.damaged_files.specs.reached.Sizes.{error_of};
ghost use Rattle.disk_pictures.specs.Held.{drawn_in};
ghost use Rattle.disk_pictures.specs.Trims.{entry_at, error_line, error_number, errors_text, name_text};
ghost use Rattle.command_faults.specs.declared.faults.CommandFault.TheVariants as faults;

use crate::drawing::Drawing;
use command_faults::{CommandFault, print_text};
use d64_image::{Place, SECTORS};
use damaged_files::{entry_name, error_at};
use disk_layout::Slot;
use line_text::Text;
use std::fmt::{self, Display, Formatter};
use std::io::Write;

/// The drive's number of an error byte, such as 23 for 5, and 74 for 15. A byte that has none is printed itself, for example `BYTE 200`.
#[derive(Clone, Copy)]
pub struct ErrorNumber(pub u8);

impl Display for ErrorNumber {
    ghost output = { λ error. Some (error_number error.0) };

    fn fmt<W: fmt::Write>(&self, f: &mut Formatter<W>) -> fmt::Result {
        match self.0 {
            2..=11 => write!(f, "{}", self.0 + 18),
            15 => f.write_str("74"),
            byte => write!(f, "BYTE {byte}"),
        }
    }
}

/// The name of an entry, in quotation marks after a space.
#[derive(Clone, Copy)]
pub(crate) struct EntryName<'a>(pub(crate) Option<&'a Slot>);

impl Display for EntryName<'_> {
    ghost output = { λ name. Some (name_text (option_map (λ slot. slot.now) name.0)) };

    fn fmt<W: fmt::Write>(&self, f: &mut Formatter<W>) -> fmt::Result {
        match self.0 {
            Some(slot) => write!(f, " \"{}\"", Text(entry_name(slot))),
            None => Ok(()),
        }
    }
}

/// The line of a sector, if it wasn't read, with the entry that has it.
#[derive(Clone, Copy)]
struct ErrorLine<'a> {
    place: Place,
    entry: Option<&'a Slot>,
    error: Option<u8>,
}

impl Display for ErrorLine<'_> {
    ghost output = { λ line. Some (error_line line.place (option_map (λ slot. slot.now) line.entry) line.error) };

    fn fmt<W: fmt::Write>(&self, f: &mut Formatter<W>) -> fmt::Result {
        let Some(error) = self.error else {
            return Ok(());
        };
        let (number, name) = (ErrorNumber(error), EntryName(self.entry));
        let (track, sector) = (self.place.track(), self.place.sector());
        writeln!(f, "ERROR {number} {track}/{sector}{name}")
    }
}

/// The entry that has the sector, if this is drawn.
pub fn entry_with(drawing: Option<&Drawing>, place: Place) -> Option<&Slot>
    ensures { option_map (λ slot. slot.now) result
        ≡ entry_at (option_map (λ drawn. drawn_in drawn.now) drawing.entry) place }
{
    match drawing {
        Some(drawing) => drawing.entry_with(place),
        None => None,
    }
}

/// Prints a line for each sector of tracks 1 to 35 that wasn't read when the image was made, with the entry that has it
/// if this is drawn.
pub(crate) fn print_errors<E: Write>(
    err: &mut E,
    image: &[u8],
    drawing: Option<&Drawing>,
) -> Result<(), CommandFault>
    ensures ok { OnOk result (Appends (E.contents err.old) (E.contents err.new)
        (errors_text image.now (option_map (λ drawn. drawn_in drawn.now) drawing.entry))) }
    ensures err { IfErr result (λ fault. fault ≡ faults.File) }
{
    for index in 0..SECTORS {
        let place = Place::nth(index);
        let error = error_at(image, place);
        let entry = entry_with(drawing, place);
        print_text(
            err,
            ErrorLine {
                place,
                entry,
                error,
            },
        )?;
    }
    Ok(())
}

/// Whether the sector was read.
fn is_sector_read(image: &[u8], place: Place) -> bool
    ensures { IsTrue result ↔ (error_of image.now place ≡ None) }
{
    error_at(image, place).is_none()
}

/// Whether all sectors of tracks 1 to 35 were read.
pub(crate) fn is_read(image: &[u8]) -> bool
    ensures { IsTrue result ↔ ((p : Place) → error_of image.now p ≡ None) }
{
    for index in 0..SECTORS {
        if !is_sector_read(image, Place::nth(index)) {
            return false;
        }
    }
    true
}
