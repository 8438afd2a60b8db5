//! What an image says of itself besides its disk: the sectors that weren't read, and the files that go on past track 35.
ghost use Rattle.std.specs.Prelude.{◌≡◌, ◌≤◌, IfErr, IfOk, OnOk, length, option_map, take};
ghost use Rattle.std.specs.Io.KnownBytes.{Appends};
ghost use Rattle.disk_pictures.specs.Held.{drawn_in};
ghost use Rattle.disk_pictures.specs.Missing.{IsMisread, IsMisreadBeside, IsMissing, IsMissingBeside, IsMissingFault, missing_text, past_text};
ghost use Rattle.disk_pictures.specs.PastErrors.{misread_text};
ghost use Rattle.damaged_files.specs.reached.Sizes.{IsImageSize};
ghost use Rattle.command_faults.specs.declared.faults.CommandFault.TheVariants as faults;

use crate::drawing::Drawing;
use crate::views::past_errors::print_misread;
use crate::views::past_tracks::print_files;
use crate::views::trimming::drawn_of;
use command_faults::CommandFault;
use d64_image::IMAGE_BYTES;
use damaged_files::first_tracks;
use std::alloc::Global;
use std::io::Write;

/// Prints a line for each file that goes on past track 35, if the files are drawn.
fn print_past<E: Write>(
    err: &mut E,
    image: &[u8],
    drawing: Option<&Drawing>,
) -> Result<(), CommandFault>
    requires { 174848 ≤ length image.now }
    ensures ok { OnOk result (Appends (E.contents err.old) (E.contents err.new)
        (past_text image.now (option_map (λ drawn. drawn_in drawn.now) drawing.entry))) }
    ensures err { IfErr result (λ fault. fault ≡ faults.File) }
{
    match drawing {
        Some(drawing) => print_files(err, image, drawing.files.as_slice()),
        None => Ok(()),
    }
}

/// Prints a line for each sector that wasn't read, and then for each file that goes on past track 35.
fn print_missing<E: Write>(
    err: &mut E,
    image: &[u8],
    drawing: Option<&Drawing>,
) -> Result<(), CommandFault>
    requires { 174848 ≤ length image.now }
    ensures ok { OnOk result (Appends (E.contents err.old) (E.contents err.new)
        (missing_text image.now (option_map (λ drawn. drawn_in drawn.now) drawing.entry))) }
    ensures err { IfErr result (λ fault. fault ≡ faults.File) }
{
    print_misread(err, image, drawing)?;
    print_past(err, image, drawing)
}

/// These lines in memory. `NoMemory`.
fn lines_of(alloc: Global, image: &[u8], drawing: Option<&Drawing>) -> Result<Vec<u8>, CommandFault>
    requires { 174848 ≤ length image.now }
    ensures ok { IfOk result
        (λ lines. lines.items ≡ missing_text image.now (option_map (λ drawn. drawn_in drawn.now) drawing.entry)) }
    ensures err { IfErr result (λ fault. fault ≡ faults.NoMemory) }
{
    let mut lines = Vec::new(alloc);
    match print_missing(&mut lines, image, drawing) {
        Ok(()) => Ok(lines),
        Err(_) => Err(CommandFault::NoMemory),
    }
}

/// These lines of an image whose first 35 tracks are these. `NoMemory`.
fn lines_beside(alloc: Global, image: &[u8], tracks: &[u8]) -> Result<Vec<u8>, CommandFault>
    requires size { IsImageSize (length image.now) }
    requires tracks { tracks.now ≡ take 174848 image.now }
    requires whole { length tracks.now ≡ 174848 }
    ensures ok { IfOk result (λ lines. IsMissingBeside image.now lines.items) }
    ensures err { IfErr result (λ fault. fault ≡ faults.NoMemory) }
{
    match &drawn_of(alloc, tracks)? {
        Ok(drawing) => lines_of(alloc, image, Some(drawing)),
        Err(_) => lines_of(alloc, image, None),
    }
}

/// The lines that say what isn't on the disk in an image of 40 or 42 tracks, or with error bytes: one for each sector that wasn't read when
/// the image was made, with the first entry that has it, one for each sector past track 35 that several files have, and one for each
/// file that goes on past track 35. A file has a sector past track 35 if its chain over all tracks comes to its end, and has the sector.
/// If the directory's sectors aren't a chain on track 18, nothing is known of the files. There is no line for an image that is a disk
/// alone. `ImageSize`, `NoMemory`.
pub fn missing_lines(alloc: Global, image: &[u8]) -> Result<Vec<u8>, CommandFault>
    ensures ok { IfOk result (λ lines. IsMissing image.now lines.items) }
    ensures err { IfErr result (IsMissingFault image.now) }
{
    let Some(tracks) = first_tracks(image) else {
        return Err(CommandFault::ImageSize);
    };
    if image.len() == IMAGE_BYTES {
        return Ok(Vec::new(alloc));
    }
    lines_beside(alloc, image, tracks)
}

/// The lines of the sectors that weren't read, in memory. `NoMemory`.
fn errors_of(
    alloc: Global,
    image: &[u8],
    drawing: Option<&Drawing>,
) -> Result<Vec<u8>, CommandFault>
    ensures ok { IfOk result
        (λ lines. lines.items ≡ misread_text image.now (option_map (λ drawn. drawn_in drawn.now) drawing.entry)) }
    ensures err { IfErr result (λ fault. fault ≡ faults.NoMemory) }
{
    let mut lines = Vec::new(alloc);
    match print_misread(&mut lines, image, drawing) {
        Ok(()) => Ok(lines),
        Err(_) => Err(CommandFault::NoMemory),
    }
}

/// These lines of an image whose first 35 tracks are these. `NoMemory`.
fn errors_beside(alloc: Global, image: &[u8], tracks: &[u8]) -> Result<Vec<u8>, CommandFault>
    requires size { IsImageSize (length image.now) }
    requires tracks { tracks.now ≡ take 174848 image.now }
    requires whole { length tracks.now ≡ 174848 }
    ensures ok { IfOk result (λ lines. IsMisreadBeside image.now lines.items) }
    ensures err { IfErr result (λ fault. fault ≡ faults.NoMemory) }
{
    match &drawn_of(alloc, tracks)? {
        Ok(drawing) => errors_of(alloc, image, Some(drawing)),
        Err(_) => errors_of(alloc, image, None),
    }
}

/// Those of the lines of `missing_lines` that say which sectors weren't read, and which ones past track 35 several files have. `ImageSize`, `NoMemory`.
pub fn error_lines(alloc: Global, image: &[u8]) -> Result<Vec<u8>, CommandFault>
    ensures ok { IfOk result (λ lines. IsMisread image.now lines.items) }
    ensures err { IfErr result (IsMissingFault image.now) }
{
    let Some(tracks) = first_tracks(image) else {
        return Err(CommandFault::ImageSize);
    };
    if image.len() == IMAGE_BYTES {
        return Ok(Vec::new(alloc));
    }
    errors_beside(alloc, image, tracks)
}
