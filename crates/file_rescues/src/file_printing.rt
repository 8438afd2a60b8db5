//! A file as it is printed: its bytes, or the listing of its program.
ghost use Rattle.std.specs.Prelude.{◌≡◌, ◌⊎◌, ◌↔◌, ◌≤◌, IsTrue, IfErr, IfOk, OnErr, length, vec_items};
ghost use Rattle.std.specs.Io.KnownBytes.{Appends};
ghost use Rattle.line_text.specs.basic.Listings.{listing};
ghost use Rattle.command_faults.specs.Outputs.{HandsPart};
ghost use Rattle.d64_image.specs.Memory.{disk_image};
ghost use Rattle.file_rescues.specs.Bytes.{file_bytes};
ghost use Rattle.file_rescues.specs.Forms.{HasForm, file_as, past_end};
ghost use Rattle.command_faults.specs.declared.faults.CommandFault.TheVariants as faults;
ghost use Rattle.file_rescues.specs.declared.forms.FileForm.TheVariants as forms;

use crate::chains::{print_bytes, read_file};
use crate::forms::FileForm;
use crate::programs::is_program;
use command_faults::{CommandFault, put};
use d64_image::{MemDisk, Place};
use line_text::{Listing, is_ended};
use std::alloc::Global;
use std::io::Write;

/// The listing of a program. `NoMemory` if there was none for it.
fn listing_text(alloc: Global, program: &[u8]) -> Result<Vec<u8>, CommandFault>
    ensures ok { IfOk result (λ text. vec_items text ≡ listing program.now) }
    ensures err { IfErr result (λ fault. fault ≡ faults.NoMemory) }
{
    let mut text = Vec::new(alloc);
    match write!(text, "{}", Listing { program }) {
        Ok(()) => Ok(text),
        Err(_) => Err(CommandFault::NoMemory),
    }
}

/// Prints the listing of the program in a file with these blocks, up to the index `last` of the last one. Returns the last
/// block if the program goes on past it, and whether the file is a program. `File` if the output failed: then it has a first part; or `NoMemory`, and then
/// nothing was printed.
fn print_listing<W: Write>(
    alloc: Global,
    out: &mut W,
    disk: &MemDisk,
    blocks: &[Place],
    last: u8,
) -> Result<(Option<Place>, bool), CommandFault>
    requires { length blocks.now ≤ 720 }
    ensures ok { IfOk result (λ told. Appends (W.contents out.old) (W.contents out.new)
        (listing (file_bytes (disk_image disk.now) blocks.now last))
        × (told.0 ≡ past_end forms.Listing (file_bytes (disk_image disk.now) blocks.now last) blocks.now)
        × (IsTrue told.1 ↔ HasForm forms.Listing (file_bytes (disk_image disk.now) blocks.now last))) }
    ensures part { OnErr result (HandsPart (W.contents out.old) (W.contents out.new)
        (listing (file_bytes (disk_image disk.now) blocks.now last))) }
    ensures err { IfErr result (λ fault. (fault ≡ faults.File) ⊎ ((fault ≡ faults.NoMemory) × (out.new ≡ out.old))) }
{
    let program = read_file(alloc, disk, blocks, last)?;
    let text = listing_text(alloc, program.as_slice())?;
    put(out, text.as_slice())?;
    let past = if is_ended(program.as_slice()) {
        None
    } else {
        blocks.last().copied()
    };
    Ok((past, is_program(program.as_slice())))
}

/// Prints a file with these blocks, up to the index `last` of the last one, in this form. Returns the last block if a
/// program goes on past it, and whether the file has this form. `File` if the output failed: then it has a first part; or `NoMemory`, and then nothing was
/// printed.
pub(crate) fn print_file<W: Write>(
    alloc: Global,
    out: &mut W,
    disk: &MemDisk,
    blocks: &[Place],
    last: u8,
    form: FileForm,
) -> Result<(Option<Place>, bool), CommandFault>
    requires { length blocks.now ≤ 720 }
    ensures ok { IfOk result (λ told. Appends (W.contents out.old) (W.contents out.new)
        (file_as form (file_bytes (disk_image disk.now) blocks.now last))
        × (told.0 ≡ past_end form (file_bytes (disk_image disk.now) blocks.now last) blocks.now)
        × (IsTrue told.1 ↔ HasForm form (file_bytes (disk_image disk.now) blocks.now last))) }
    ensures part { OnErr result (HandsPart (W.contents out.old) (W.contents out.new)
        (file_as form (file_bytes (disk_image disk.now) blocks.now last))) }
    ensures err { IfErr result (λ fault. (fault ≡ faults.File) ⊎ ((fault ≡ faults.NoMemory) × (out.new ≡ out.old))) }
{
    match form {
        FileForm::Bytes(form) => match print_bytes(out, disk, blocks, last, form) {
            Ok(()) => Ok((None, true)),
            Err(fault) => Err(fault),
        },
        FileForm::Listing => print_listing(alloc, out, disk, blocks, last),
    }
}
