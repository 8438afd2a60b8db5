//! The bytes of a file of any type, of an image that may have more tracks than 35.
ghost use Rattle.std.specs.Prelude.{◌≡◌, ◌⊎◌, ◌++◌, IfErr, IfOk, None, OnErr, OnOk, Some};
ghost use Rattle.std.specs.Io.KnownBytes.{Appends};
ghost use Rattle.std.specs.List.{AllByRecursion};
ghost use Rattle.command_faults.specs.Outputs.{HandsPart};
ghost use Rattle.command_faults.specs.declared.faults.CommandFault.TheVariants as faults;
ghost use Rattle.disk_layout.specs.declared.faults.Fault.{Fault};
ghost use Rattle.file_rescues.specs.Forms.{HasForm, file_as};
ghost use Rattle.file_rescues.specs.Printed.{AreBytesTaken, IsBytesFault, IsBytesPart, IsLongStop, past_left};
ghost use Rattle.file_rescues.specs.declared.forms.FileForm.TheVariants as forms;
ghost use Rattle.long_chains.specs.Chains.{data_of};
ghost use Rattle.long_chains.specs.Sectors.{HasSector};

use crate::byte_printing::disk_bytes;
use crate::finding::{Candidates, Kind};
use crate::forms::{ByteForm, FileForm};
use crate::long_files::read_long;
use crate::long_finding::{LongFile, find_long_file};
use crate::programs::is_program;
use arrayvec::ArrayVec;
use command_faults::{CommandFault, flush, put};
use d64_image::Place;
use damaged_files::disk_in;
use disk_layout::Fault;
use line_text::{Listing, Readable, is_ended};
use std::alloc::Global;
use std::io::{self, Write};

/// Writes a file with these bytes in this form.
fn write_as(text: &mut Vec<u8>, form: FileForm, bytes: &[u8]) -> io::Result<()>
    ensures { OnOk result (text.new.items ≡ text.old.items ++ file_as form bytes.now) }
{
    match form {
        FileForm::Bytes(ByteForm::Plain) => text.write_all(bytes),
        FileForm::Bytes(ByteForm::Text(set)) => write!(text, "{}", Readable { set, bytes }),
        FileForm::Listing => write!(text, "{}", Listing { program: bytes }),
    }
}

/// A file with these bytes in this form. `NoMemory` if there was none for it.
fn text_as(alloc: Global, form: FileForm, bytes: &[u8]) -> Result<Vec<u8>, CommandFault>
    ensures ok { IfOk result (λ text. text.items ≡ file_as form bytes.now) }
    ensures err { IfErr result (λ fault. fault ≡ faults.NoMemory) }
{
    let mut text = Vec::new(alloc);
    match write_as(&mut text, form, bytes) {
        Ok(()) => Ok(text),
        Err(_) => Err(CommandFault::NoMemory),
    }
}

/// How the listing of these bytes ends: `NoProgram` if they aren't a program, or where the file leaves track 35 if the program goes on
/// past its end.
fn listing_end(program: &[u8], left: Option<Place>) -> Result<Option<Place>, CommandFault>
    ensures ok { IfOk result (λ cut. (cut ≡ past_left forms.Listing program.now left) × HasForm forms.Listing program.now) }
    ensures err { IfErr result (λ fault. (fault ≡ faults.NoProgram) × ¬ (HasForm forms.Listing program.now)) }
{
    if !is_program(program) {
        return Err(CommandFault::NoProgram);
    }
    if is_ended(program) {
        Ok(None)
    } else {
        Ok(left)
    }
}

/// How the printing of a file with these bytes in this form ends.
fn long_end(file: &LongFile, form: FileForm, bytes: &[u8]) -> Result<Option<Place>, CommandFault>
    ensures ok { IfOk result (λ cut. (file.now.apart ≡ None) × (cut ≡ past_left form bytes.now file.now.left)
        × HasForm form bytes.now) }
    ensures err { IfErr result (λ fault. ((found : Fault) × (file.now.apart ≡ Some found) × (fault ≡ faults.Layout found))
        ⊎ ((file.now.apart ≡ None) × (fault ≡ faults.NoProgram) × ¬ (HasForm form bytes.now))) }
{
    if let Some(fault) = file.apart {
        return Err(CommandFault::Layout(fault));
    }
    match form {
        FileForm::Bytes(_) => Ok(None),
        FileForm::Listing => listing_end(bytes, file.left),
    }
}

/// Prints a file with these sectors in this form, and returns how that ends.
fn print_long<W: Write>(
    alloc: Global,
    image: &[u8],
    file: &LongFile,
    chain: &[u16],
    form: FileForm,
    out: &mut W,
) -> Result<Option<Place>, CommandFault>
    requires { AllByRecursion (HasSector image.now) chain.now }
    ensures ok { IfOk result (λ cut. (file.now.apart ≡ None)
        × Appends (W.contents out.old) (W.contents out.new) (file_as form (data_of image.now chain.now))
        × (cut ≡ past_left form (data_of image.now chain.now) file.now.left) × HasForm form (data_of image.now chain.now)) }
    ensures err { IfErr result
        (IsLongStop W.contents form (data_of image.now chain.now) file.now.apart out.old out.new) }
    ensures part { OnErr result ((out.new ≡ out.old)
        ⊎ HandsPart (W.contents out.old) (W.contents out.new) (file_as form (data_of image.now chain.now))) }
{
    let bytes = read_long(alloc, image, chain)?;
    let text = text_as(alloc, form, bytes.as_slice())?;
    put(out, text.as_slice())?;
    flush(out)?;
    long_end(file, form, bytes.as_slice())
}

/// Prints the bytes of the first entry of this name among the candidates on the disk in an image of 35, 40 or 42 tracks, whatever its type
/// is, in this form. There are 254 of each of its blocks, and of the last one those up to its last index. `name` has no shifted spaces at
/// its end; one of more than sixteen bytes is never found.
///
/// On a damaged disk it prints what can be reached. The directory is read as far as its links lead, and so are the file's
/// blocks. Then the error is `Layout` with the first of these faults: `BadLink` or `Loop` in the directory; `BadLink` or
/// `Loop` in the file's chain; `OwnedTwice` at the file's first block that the map, the directory or another entry has
/// too; `Unclosed` at the entry's directory sector. Nothing else is checked.
///
/// At Ok it returns the place where the file that was printed is cut short, if the disk is sound and the file is
/// (`find_cut` of `damaged_files`). `NoProgram` if it isn't, and no program was listed: then all bytes were printed as if it were
/// one.
///
/// If the chain of the file is broken on tracks 1 to 35, and the image has 40 or 42 tracks and on these all of the chain, up to its
/// end, then all its bytes are printed, and the chain has no fault. A program that goes on past its end is then cut short where the file
/// leaves track 35.
///
/// Nothing was printed after `ImageSize`, `NoMemory`, and `NoFile` if no candidate has the name; nor after `Layout` if
/// none has it in a directory that ends early. After `File` the output failed: it has a first part of the bytes in this
/// form.
pub fn bytes_image<W: Write>(
    alloc: Global,
    image: &[u8],
    candidates: Candidates,
    name: &[u8],
    form: FileForm,
    out: &mut W,
) -> Result<Option<Place>, CommandFault>
    ensures ok { IfOk result (AreBytesTaken W.contents form candidates image.now name.now out.old out.new) }
    ensures err { IfErr result (IsBytesFault W.contents form candidates image.now name.now out.old out.new) }
    ensures part { OnErr result (IsBytesPart W.contents form candidates image.now name.now out.old out.new) }
{
    let mut chain = ArrayVec::new();
    let found = find_long_file(alloc, image, Kind::Any(candidates), name, &mut chain)?;
    match found {
        Some(file) => print_long(alloc, image, &file, chain.as_slice(), form, out),
        None => disk_bytes(alloc, disk_in(image), candidates, name, form, out),
    }
}
