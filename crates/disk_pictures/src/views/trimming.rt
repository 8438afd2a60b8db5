//! Tracks 1 to 35 of an image that may have more, or error bytes, and what isn't there.
ghost use Rattle.std.specs.Prelude.{◌≡◌, ◌↔◌, ◌≤◌, ◌++◌, false, IfErr, IfOk, IsTrue, MatchResult, None, OnOk, Some, length};
ghost use Rattle.std.specs.Io.KnownBytes.{Appends};
ghost use Rattle.d64_image.specs.Memory.{sectors_in};
ghost use Rattle.disk_layout.specs.Fault.{HoldsOfDirectory, nowhere};
ghost use Rattle.disk_pictures.specs.Drawings.{IsDrawn};
ghost use Rattle.disk_pictures.specs.Held.{drawn_in};
ghost use Rattle.disk_pictures.specs.Trims.{IsAllThere, IsTrimFault, IsTrimmed, errors_text, layout_line, trim_text};
ghost use Rattle.command_faults.specs.declared.faults.CommandFault.TheVariants as faults;

use crate::drawing::Drawing;
use crate::reading::draw_or_fault;
use crate::views::past_tracks::{are_files_whole, print_files};
use crate::views::reading_errors::{is_read, print_errors};
use command_faults::{CommandFault, flush, load, print_text};
use damaged_files::first_tracks;
use disk_layout::Fault;
use std::alloc::Global;
use std::fmt::{self, Display, Formatter};
use std::io::Write;

/// The line of a directory that can't be read.
#[derive(Clone, Copy)]
struct LayoutLine(Fault);

impl Display for LayoutLine {
    ghost output = { λ line. Some (layout_line line.0) };

    fn fmt<W: fmt::Write>(&self, f: &mut Formatter<W>) -> fmt::Result {
        writeln!(f, "LAYOUT {}", self.0)
    }
}

/// What is drawn of the tracks, or why their directory can't be read.
pub fn drawn_of(alloc: Global, tracks: &[u8]) -> Result<Result<Drawing, Fault>, CommandFault>
    requires { length tracks.now ≡ 174848 }
    ensures ok { IfOk result (λ drawn. MatchResult drawn
        (λ drawing. IsDrawn (sectors_in tracks.now) (drawn_in drawing))
        (HoldsOfDirectory nowhere (sectors_in tracks.now))) }
    ensures err { IfErr result (λ fault. fault ≡ faults.NoMemory) }
{
    let mut disk = load(alloc, tracks)?;
    draw_or_fault(alloc, &mut disk)
}

/// Prints the tracks.
fn print_tracks<W: Write>(out: &mut W, tracks: &[u8]) -> Result<(), CommandFault>
    ensures ok { OnOk result (Appends (W.contents out.old) (W.contents out.new) tracks.now) }
    ensures err { IfErr result (λ fault. fault ≡ faults.File) }
{
    if out.write_all(tracks).is_err() {
        return Err(CommandFault::File);
    }
    flush(out)
}

/// Whether the image has all that it says of itself: each sector of tracks 1 to 35 was read, and no file that is drawn goes on past track
/// 35. `image` has at least 174,848 bytes.
pub fn is_all_there(image: &[u8], drawing: &Drawing) -> bool
    requires { 174848 ≤ length image.now }
    ensures { IsTrue result ↔ IsAllThere image.now (drawn_in drawing.now) }
{
    let files = drawing.files.as_slice();
    let read = is_read(image);
    let whole = are_files_whole(image, files);
    read && whole
}

/// Reports the sectors that weren't read, and the files that go on past track 35. Whether there are none.
fn report<E: Write>(err: &mut E, image: &[u8], drawing: &Drawing) -> Result<bool, CommandFault>
    requires { 174848 ≤ length image.now }
    ensures ok { IfOk result (λ whole. Appends (E.contents err.old) (E.contents err.new)
        (trim_text image.now (drawn_in drawing.now))
        × (IsTrue whole ↔ IsAllThere image.now (drawn_in drawing.now))) }
    ensures err { IfErr result (λ fault. fault ≡ faults.File) }
{
    print_errors(err, image, Some(drawing))?;
    print_files(err, image, drawing.files.as_slice())?;
    flush(err)?;
    Ok(is_all_there(image, drawing))
}

/// Reports the sectors that weren't read, and why the directory can't be.
fn report_unread<E: Write>(err: &mut E, image: &[u8], fault: Fault) -> Result<bool, CommandFault>
    ensures ok { IfOk result (λ whole. Appends (E.contents err.old) (E.contents err.new)
        (errors_text image.now None ++ layout_line fault) × (whole ≡ false)) }
    ensures err { IfErr result (λ fault. fault ≡ faults.File) }
{
    print_errors(err, image, None)?;
    print_text(err, LayoutLine(fault))?;
    flush(err)?;
    Ok(false)
}

/// Prints, on `out`, the 174,848 bytes of tracks 1 to 35 of an image of 35 tracks or 40, with or without error bytes. On
/// `err` it prints a line for each of their sectors that wasn't read when the image was made, with the first entry that has
/// it, and for each file that goes on past track 35. Returns whether there is no such line.
///
/// If the directory's sectors aren't a chain on track 18, a line says why, and nothing is known of the files. `ImageSize`
/// and `NoMemory`: nothing was printed. `File` if an output failed; both may then have a part.
pub fn trim_image<W: Write, E: Write>(
    alloc: Global,
    image: &[u8],
    out: &mut W,
    err: &mut E,
) -> Result<bool, CommandFault>
    ensures ok { IfOk result
        (IsTrimmed W.contents E.contents image.now out.old out.new err.old err.new) }
    ensures err { IfErr result (IsTrimFault image.now out.old out.new err.old err.new) }
{
    let Some(tracks) = first_tracks(image) else {
        return Err(CommandFault::ImageSize);
    };
    let drawn = drawn_of(alloc, tracks)?;
    print_tracks(out, tracks)?;
    match &drawn {
        Ok(drawing) => report(err, image, drawing),
        Err(fault) => report_unread(err, image, *fault),
    }
}
