//! The bytes of a file of any type on a disk of 35 tracks, as they are printed.
ghost use Rattle.std.specs.Prelude.{◌≡◌, IfErr, IfOk, OnErr};
ghost use Rattle.d64_image.specs.Memory.{disk_image};
ghost use Rattle.file_rescues.specs.Faults.{IsEnded, end_or_past, keep_none};
ghost use Rattle.file_rescues.specs.Printed.{AreDiskBytesTaken, IsDiskBytesFault, IsDiskBytesPart};

use crate::file_printing::print_file;
use crate::finding::{Candidates, FoundFile, Kind, find_file};
use crate::forms::FileForm;
use arrayvec::ArrayVec;
use command_faults::{CommandFault, flush, load};
use d64_image::{MemDisk, Place};
use damaged_files::sound_cut;
use disk_layout::Fault;
use std::alloc::Global;
use std::io::Write;

/// How the printing of this file ends: with the place where it is cut short, if it is, or with its fault.
pub(crate) fn ended(disk: &mut MemDisk, file: &FoundFile) -> Result<Option<Place>, CommandFault>
    ensures { IsEnded (disk_image disk.old) file.now.number file.now.fault result }
{
    match file.fault {
        Some(fault) => Err(CommandFault::Layout(fault)),
        None => Ok(sound_cut(disk, Some(file.number))),
    }
}

/// How the printing ends; without a place, at this one, or because the file hasn't the form in which it was printed.
fn end_or(
    end: Result<Option<Place>, CommandFault>,
    past: Option<Place>,
    has_form: bool,
) -> Result<Option<Place>, CommandFault>
    ensures { result ≡ end_or_past end past has_form }
{
    match end {
        Ok(None) if has_form => Ok(past),
        Ok(None) => Err(CommandFault::NoProgram),
        end => end,
    }
}

/// Why there is no file, in a directory that ends early with this fault, or doesn't.
pub(crate) fn no_file(ended: Option<Fault>) -> CommandFault
    ensures { result ≡ keep_none ended }
{
    match ended {
        Some(fault) => CommandFault::Layout(fault),
        None => CommandFault::NoFile,
    }
}

/// Prints the bytes of a file as `bytes_image` does, of a disk of 35 tracks: its bytes are `image`.
pub(crate) fn disk_bytes<W: Write>(
    alloc: Global,
    image: &[u8],
    candidates: Candidates,
    name: &[u8],
    form: FileForm,
    out: &mut W,
) -> Result<Option<Place>, CommandFault>
    ensures ok { IfOk result (AreDiskBytesTaken W.contents form candidates image.now name.now out.old out.new) }
    ensures err { IfErr result (IsDiskBytesFault W.contents form candidates image.now name.now out.old out.new) }
    ensures part { OnErr result (IsDiskBytesPart W.contents form candidates image.now name.now out.old out.new) }
{
    let mut disk = load(alloc, image)?;
    let mut blocks = ArrayVec::new();
    let file = match find_file(&disk, Kind::Any(candidates), name, &mut blocks) {
        Ok(file) => file,
        Err(ended) => return Err(no_file(ended)),
    };
    let listed = print_file(alloc, out, &disk, blocks.as_slice(), file.last, form)?;
    flush(out)?;
    end_or(ended(&mut disk, &file), listed.0, listed.1)
}
