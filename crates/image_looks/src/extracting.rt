//! All files of an image, taken out to a folder that is new.
ghost use Rattle.std.specs.Prelude.{◌≡◌, ◌++◌, IfErr, IfOk, IfSome, IsErr, IsOk, OnOk, codes, true};
ghost use Rattle.command_faults.specs.declared.faults.CommandFault.TheVariants as faults;
ghost use Rattle.image_looks.specs.Extracts.{IsExtractRun, IsExtractTold, IsExtractedTo, IsUnmade, extracted_text, refusal_found, refusal_of};
ghost use Rattle.image_looks.specs.LookRuns.{IsExtractedFrom};
ghost use Rattle.opened_files.specs.Extents.{taken_as};
ghost use Rattle.opened_files.specs.declared.extents.Extent.TheVariants as extents;
ghost use Rattle.opened_files.specs.HostFiles.{IsUnbegun, OfImage, RunEnds};
ghost use Rattle.opened_files.specs.Rights.{MayFill, MayFillAt, MayReadImage};

use crate::new_folders::{FolderPlace, GatheredFiles, SystemFolder};
use crate::reporting::reported_end;
use command_faults::CommandFault;
use damaged_files::{Shortfall, disk_in};
use disk_layout::Fault;
use disk_pictures::error_lines;
use file_rescues::{Choice, extract_image};
use image_file::{EndedFile, HostFiles, Locks};
use opened_files::{Extent, image_as, short_refusal, shortfall_in};
use shop_commands::print_whole;
use std::alloc::Global;
use std::fs::OpenFile;
use std::io::{self, ErrorKind, Read, Write};

/// Why files that were all made aren't whole: their first fault, or that a file is cut short there.
fn found_refusal(found: Option<Fault>, lack: Option<Shortfall>) -> Option<CommandFault>
    ensures { result ≡ refusal_found found lack }
{
    if let Some(fault) = found {
        return Some(CommandFault::Layout(fault));
    }
    short_refusal(lack)
}

/// Why the files of an image aren't all made and whole. It is the fault for which they weren't made, the first fault of a
/// file that was made, or the place where one is cut short.
fn extract_refusal(
    ended: Result<Option<Fault>, CommandFault>,
    lack: Option<Shortfall>,
) -> Option<CommandFault>
    ensures { result ≡ refusal_of ended lack }
{
    match ended {
        Ok(found) => found_refusal(found, lack),
        Err(fault) => Some(fault),
    }
}

/// Adds that all files are made, and what one lacks, if one lacks something.
fn add_extracted(text: &mut Vec<u8>, lack: Option<Shortfall>) -> io::Result<()>
    ensures { OnOk result (text.new.items ≡ text.old.items ++ extracted_text lack) }
{
    match lack {
        None => write!(text, "EXTRACTED\n"),
        Some(lack) => write!(text, "EXTRACTED\n{lack}\n"),
    }
}

/// That all files are made, what one lacks, and these lines, which say what a drive couldn't read. `NoMemory`.
fn extracted_lines(
    alloc: Global,
    lack: Option<Shortfall>,
    errors: &[u8],
) -> Result<Vec<u8>, CommandFault>
    ensures ok { IfOk result (λ text. text.items ≡ extracted_text lack ++ errors.now) }
    ensures err { IfErr result (λ fault. fault ≡ faults.NoMemory) }
{
    let mut text = Vec::new(alloc);
    if add_extracted(&mut text, lack).is_err() || text.extend_from_slice(errors).is_err() {
        return Err(CommandFault::NoMemory);
    }
    Ok(text)
}

/// Prints this text, unless the job is refused. Returns how it ended, where these lines say what a drive couldn't read.
fn tell_extracted<W: Write>(
    refused: Option<CommandFault>,
    text: &[u8],
    errors: &[u8],
    out: &mut W,
) -> Result<Option<Fault>, CommandFault>
    ensures { IsExtractTold W.contents refused text.now errors.now out.old out.new result }
{
    if let Some(refusal) = refused {
        return Err(refusal);
    }
    print_whole(out, text)?;
    reported_end(None, errors)
}

/// Makes a folder with the files that were gathered; none if they weren't all. `Exists` if something stands in its place,
/// `NoMemory`, and `File` if it can't be made otherwise.
fn make_gathered<P: FolderPlace>(
    ended: &Result<Option<Fault>, CommandFault>,
    gathered: &GatheredFiles,
    place: &P,
) -> Result<(), CommandFault>
    ensures made { OnOk result (IsOk ended.now → P.IsMade place.now gathered.now.files.files.items) }
    ensures err { IfErr result (λ fault. IsOk ended.now × P.HasFailed place.now × IsUnmade fault) }
{
    if ended.is_err() {
        return Ok(());
    }
    match place.make(gathered.files()) {
        Ok(()) => Ok(()),
        Err(error) => Err(match error.kind() {
            ErrorKind::AlreadyExists => CommandFault::PathExists,
            ErrorKind::OutOfMemory => CommandFault::NoMemory,
            _ => CommandFault::File,
        }),
    }
}

/// Makes the chosen files of the disk in an image of 35, 40 or 42 tracks in a new folder, as `extract_image` does, and prints
/// `EXTRACTED` if all are whole. `FEWER` and a sector follow if a file of a sound disk has fewer blocks than its entry says, and ends
/// there; and a line for each sector of tracks 1 to 35 that a drive couldn't read. Otherwise nothing is printed. A file that goes on past
/// track 35 is whole if the image has all of it.
///
/// `Trimmed`: all were made, and such lines were printed. `Layout` has the first fault of a file or of the directory. `Short`: a file
/// of a sound disk is cut short. `PathExists` if something stands in the folder's place. `File` if the folder failed, or the output.
/// `ImageSize` and `NoMemory`.
pub fn extract_run<P: FolderPlace, W: Write>(
    alloc: Global,
    choice: Choice,
    image: &[u8],
    place: &P,
    out: &mut W,
) -> Result<Option<Fault>, CommandFault>
    ensures { IsExtractRun (λ files. P.IsMade place.now files) (P.HasFailed place.now) W.contents choice image.now
        out.old out.new result }
{
    let errors = error_lines(alloc, image)?;
    let lack = shortfall_in(alloc, disk_in(image))?;
    let text = extracted_lines(alloc, lack, errors.as_slice())?;
    let mut gathered = GatheredFiles::new(alloc);
    let ended = extract_image(alloc, choice, image, &mut gathered);
    match make_gathered(&ended, &gathered, place) {
        Ok(()) => tell_extracted(
            extract_refusal(ended, lack),
            text.as_slice(),
            errors.as_slice(),
            out,
        ),
        Err(fault) => Err(fault),
    }
}

/// Makes the chosen files of the image at a path, as its shop is now, in a folder at another path, at which there must be
/// nothing.
fn extract_to<F, R, W>(
    rt: &R,
    choice: Choice,
    path: &str,
    folder: &str,
    out: &mut W,
) -> Result<Option<Fault>, CommandFault>
where
    F: EndedFile + Read + Locks + OpenFile + Drop,
    R: HostFiles<File = F> + Input + AllocGlobal,
    W: Write,
    requires image { MayReadImage R.rights rt.now path.now }
    requires folder { MayFill R.rights rt.now folder.now }
    ensures { OfImage R.rights R.stands rt.now path.now (λ all. RunEnds out.old out.new result (IsExtractedTo
        F.EndedFile.remains R.traces W.contents rt.now choice folder.now (taken_as extents.Whole all) out.old out.new result)) }
{
    let image = image_as(rt, Extent::Whole, path)?;
    let place = SystemFolder::new(rt, folder);
    extract_run(rt.alloc(), choice, image.as_slice(), &place, out)
}

/// Whether a path is this one with a slash after it.
fn is_with_slash(alloc: Global, front: &str, path: &str) -> io::Result<bool>
    ensures { IfOk result (λ is. is ≡ true → path.now ≡ front.now ++ codes "/") }
{
    let mut whole = String::new(alloc);
    whole.push_str(front)?;
    whole.push_str("/")?;
    Ok(whole.as_str() == path)
}

/// The path without the slash at its end, if it has one.
fn slashless(alloc: Global, path: &str) -> io::Result<Option<&str>>
    ensures { IfOk result (λ front. IfSome front (λ front. path.now ≡ front.now ++ codes "/")) }
{
    let Some(front) = path.strip_suffix('/') else {
        return Ok(None);
    };
    if is_with_slash(alloc, front, path)? {
        return Ok(Some(front));
    }
    Ok(None)
}

/// The same, or why a job isn't begun that needs it: `NoMemory`.
fn front_of(alloc: Global, path: &str) -> Result<Option<&str>, CommandFault>
    ensures ok { IfOk result (λ front. IfSome front (λ front. path.now ≡ front.now ++ codes "/")) }
    ensures err { IfErr result IsUnbegun }
{
    Ok(slashless(alloc, path)?)
}

/// The same of a folder whose path may end with a slash.
pub fn do_extracting<F, R, W>(
    rt: &R,
    choice: Choice,
    path: &str,
    folder: &str,
    out: &mut W,
) -> Result<Option<Fault>, CommandFault>
where
    F: EndedFile + Read + Locks + OpenFile + Drop,
    R: HostFiles<File = F> + Input + AllocGlobal,
    W: Write,
    requires image { MayReadImage R.rights rt.now path.now }
    requires folder { MayFillAt R.rights rt.now folder.now }
    ensures { IsExtractedFrom R.rights R.stands R.traces F.EndedFile.remains W.contents rt.now choice path.now folder.now
        out.old out.new result }
{
    match front_of(rt.alloc(), folder)? {
        Some(front) => extract_to(rt, choice, path, front, out),
        None => extract_to(rt, choice, path, folder, out),
    }
}
