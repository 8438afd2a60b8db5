//! Files that go on past track 35.
ghost use Rattle.std.specs.Prelude.{◌≡◌, ◌↔◌, IfErr, IsTrue, None, OnOk, Some, flat_map};
ghost use Rattle.std.specs.Prelude.{◌<◌, ◌≤◌, if◌then◌else◌, length, map};
ghost use Rattle.std.specs.Io.KnownBytes.{Appends};
ghost use Rattle.disk_pictures.specs.Drawings.{file_in};
ghost use Rattle.disk_pictures.specs.Trims.{AreFilesWhole, IsFileWhole, blocks_past as blocks_past_of, file_text, is_past as past, past_from};
ghost use Rattle.disk_pictures.specs.Trims.{past_line, sides_past as sides_past_of};
ghost use Rattle.command_faults.specs.declared.faults.CommandFault.TheVariants as faults;

use crate::drawn_file::DrawnFile;
use command_faults::{CommandFault, print_text};
use d64_image::Place;
use damaged_files::entry_name;
use disk_layout::{EntryView, Slot};
use line_text::Text;
use std::fmt::{self, Display, Formatter};
use std::io::Write;

/// Whether a track is one of those that an image may have after the 35 that a 1541 uses.
fn is_past(track: u8) -> bool
    ensures { result ≡ past track }
{
    36 <= track && track <= 42
}

/// This place, if its link leads to such a track.
fn if_past(track: u8, place: Place) -> Option<Place>
    ensures { result ≡ (if past track then Some place else None) }
{
    if is_past(track) { Some(place) } else { None }
}

/// Where a chain goes on past track 35: at `last`, its last sector in the image. If it has none, it is at its entry,
/// whose byte of this index is to have the first track.
fn chain_past(image: &[u8], slot: &Slot, at: usize, last: Option<Place>) -> Option<Place>
    requires size { 174848 ≤ length image.now }
    requires at { at < 32 }
    ensures { result ≡ past_from image.now slot.now at last }
{
    match last {
        None => if_past(slot.bytes[at], slot.sector),
        Some(place) => if_past(image[256 * place.index()], place),
    }
}

/// Where the blocks of a file go on past track 35: the sector whose link leads to one of tracks 36 to 42, or the sector of the entry if
/// the first block is there. `image` has at least 174,848 bytes.
pub fn blocks_past(image: &[u8], file: &DrawnFile) -> Option<Place>
    requires { 174848 ≤ length image.now }
    ensures { result ≡ blocks_past_of image.now (file_in file.now) }
{
    chain_past(image, &file.slot, 3, file.blocks.as_slice().last().copied())
}

/// The same of the side sectors of a relative file. None if the file isn't relative.
pub fn sides_past(image: &[u8], file: &DrawnFile) -> Option<Place>
    requires { 174848 ≤ length image.now }
    ensures { result ≡ sides_past_of image.now (file_in file.now) }
{
    if !EntryView::new(&file.slot.bytes).is_relative() {
        return None;
    }
    chain_past(image, &file.slot, 21, file.sides.as_slice().last().copied())
}

/// Whether no part of the file is past track 35.
fn is_file_whole(image: &[u8], file: &DrawnFile) -> bool
    requires { 174848 ≤ length image.now }
    ensures { IsTrue result ↔ IsFileWhole image.now (file_in file.now) }
{
    blocks_past(image, file).is_none() && sides_past(image, file).is_none()
}

/// Whether no part of these files is.
pub(crate) fn are_files_whole(image: &[u8], files: &[DrawnFile]) -> bool
    requires { 174848 ≤ length image.now }
    ensures { IsTrue result ↔ AreFilesWhole image.now (map file_in files.now) }
{
    for file in files {
        if !is_file_whole(image, file) {
            return false;
        }
    }
    true
}

/// The line of a file that goes on past track 35 at this sector; none if there is none.
#[derive(Clone, Copy)]
struct PastLine<'a> {
    slot: &'a Slot,
    place: Option<Place>,
}

impl Display for PastLine<'_> {
    ghost output = { λ line. Some (past_line line.slot.now line.place) };

    fn fmt<W: fmt::Write>(&self, f: &mut Formatter<W>) -> fmt::Result {
        let Some(place) = self.place else {
            return Ok(());
        };
        let name = Text(entry_name(self.slot));
        writeln!(f, "BEYOND {}/{} \"{name}\"", place.track(), place.sector())
    }
}

/// Prints the lines of a file.
fn print_past_file<E: Write>(
    err: &mut E,
    image: &[u8],
    file: &DrawnFile,
) -> Result<(), CommandFault>
    requires { 174848 ≤ length image.now }
    ensures ok { OnOk result
        (Appends (E.contents err.old) (E.contents err.new) (file_text image.now (file_in file.now))) }
    ensures err { IfErr result (λ fault. fault ≡ faults.File) }
{
    let slot = &file.slot;
    print_text(
        err,
        PastLine {
            slot,
            place: blocks_past(image, file),
        },
    )?;
    print_text(
        err,
        PastLine {
            slot,
            place: sides_past(image, file),
        },
    )
}

/// Prints a line for each file that goes on past track 35.
pub(crate) fn print_files<E: Write>(
    err: &mut E,
    image: &[u8],
    files: &[DrawnFile],
) -> Result<(), CommandFault>
    requires { 174848 ≤ length image.now }
    ensures ok { OnOk result (Appends (E.contents err.old) (E.contents err.new)
        (flat_map (file_text image.now) (map file_in files.now))) }
    ensures err { IfErr result (λ fault. fault ≡ faults.File) }
{
    for file in files {
        print_past_file(err, image, file)?;
    }
    Ok(())
}
