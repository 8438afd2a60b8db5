//! The blocks of a file, and their bytes as they are printed.
ghost use Rattle.std.specs.Prelude.{◌≡◌, ◌≤◌, ◌-◌, IfErr, IfOk, OnErr, OnOk, drop, length, max, take};
ghost use Rattle.std.specs.Io.KnownBytes.{Appends};
ghost use Rattle.command_faults.specs.Outputs.{HandsPart};
ghost use Rattle.d64_image.specs.Images.{sector};
ghost use Rattle.d64_image.specs.Memory.{disk_image};
ghost use Rattle.disk_layout.specs.Records.{joined};
ghost use Rattle.file_rescues.specs.Bytes.{file_bytes};
ghost use Rattle.file_rescues.specs.Forms.{bytes_as};
ghost use Rattle.command_faults.specs.declared.faults.CommandFault.TheVariants as faults;
ghost use Rattle.file_rescues.specs.declared.forms.ByteForm.TheVariants as forms;

use crate::forms::ByteForm;
use arrayvec::ArrayVec;
use command_faults::{CommandFault, put};
use d64_image::{MemDisk, Place};
use line_text::{CharacterSet, Readable};
use std::alloc::Global;
use std::io::{self, Write};

/// Writes bytes as text that people read.
fn write_text<W: Write>(out: &mut W, set: CharacterSet, bytes: &[u8]) -> io::Result<()>
    ensures { OnOk result (Appends (W.contents out.old) (W.contents out.new) (bytes_as (forms.Text set) bytes.now)) }
{
    write!(out, "{}", Readable { set, bytes })
}

/// Room for the text of a block: its 254 bytes have four bytes each at most.
const TEXT: usize = 1024;

/// Prints the bytes of a block as text that people read. `File` if the output failed: then it has a first part of it.
fn print_text<W: Write>(out: &mut W, set: CharacterSet, bytes: &[u8]) -> Result<(), CommandFault>
    ensures ok { OnOk result (Appends (W.contents out.old) (W.contents out.new) (bytes_as (forms.Text set) bytes.now)) }
    ensures part { OnErr result (HandsPart (W.contents out.old) (W.contents out.new)
        (bytes_as (forms.Text set) bytes.now)) }
    ensures err { IfErr result (λ fault. fault ≡ faults.File) }
{
    let mut text: ArrayVec<u8, TEXT> = ArrayVec::new();
    if write_text(&mut text, set, bytes).is_err() {
        return Err(CommandFault::File);
    }
    put(out, text.as_slice())
}

/// Prints the bytes of a block in this form. `File` if the output failed: then it has a first part of what is printed.
fn print_as<W: Write>(out: &mut W, form: ByteForm, bytes: &[u8]) -> Result<(), CommandFault>
    ensures ok { OnOk result (Appends (W.contents out.old) (W.contents out.new) (bytes_as form bytes.now)) }
    ensures part { OnErr result (HandsPart (W.contents out.old) (W.contents out.new) (bytes_as form bytes.now)) }
    ensures err { IfErr result (λ fault. fault ≡ faults.File) }
{
    match form {
        ByteForm::Plain => put(out, bytes),
        ByteForm::Text(set) => print_text(out, set, bytes),
    }
}

/// Prints the bytes of a block up to the one with this index.
fn print_block<W: Write>(
    out: &mut W,
    disk: &MemDisk,
    place: Place,
    last: u8,
    form: ByteForm,
) -> Result<(), CommandFault>
    ensures ok { OnOk result (Appends (W.contents out.old) (W.contents out.new)
        (bytes_as form (take (max last 1 - 1) (drop 2 (sector (disk_image disk.now) place))))) }
    ensures part { OnErr result (HandsPart (W.contents out.old) (W.contents out.new)
        (bytes_as form (take (max last 1 - 1) (drop 2 (sector (disk_image disk.now) place))))) }
    ensures err { IfErr result (λ fault. fault ≡ faults.File) }
{
    let end = (last as usize).max(1) + 1;
    print_as(out, form, &disk.sector(place)[2..end])
}

/// Prints the bytes of blocks that others follow.
fn print_blocks<W: Write>(
    out: &mut W,
    disk: &MemDisk,
    places: &[Place],
    form: ByteForm,
) -> Result<(), CommandFault>
    ensures ok { OnOk result (Appends (W.contents out.old) (W.contents out.new)
        (bytes_as form (joined (disk_image disk.now) places.now))) }
    ensures part { OnErr result (HandsPart (W.contents out.old) (W.contents out.new)
        (bytes_as form (joined (disk_image disk.now) places.now))) }
    ensures err { IfErr result (λ fault. fault ≡ faults.File) }
{
    for &place in places {
        print_block(out, disk, place, 255, form)?;
    }
    Ok(())
}

/// Prints the bytes of a file with these blocks, up to the index `last` of the last one, in this form: of each but the last
/// one 254. `File` if the output failed: then it has a first part of what is printed.
pub fn print_bytes<W: Write>(
    out: &mut W,
    disk: &MemDisk,
    blocks: &[Place],
    last: u8,
    form: ByteForm,
) -> Result<(), CommandFault>
    ensures ok { OnOk result (Appends (W.contents out.old) (W.contents out.new)
        (bytes_as form (file_bytes (disk_image disk.now) blocks.now last))) }
    ensures part { OnErr result (HandsPart (W.contents out.old) (W.contents out.new)
        (bytes_as form (file_bytes (disk_image disk.now) blocks.now last))) }
    ensures err { IfErr result (λ fault. fault ≡ faults.File) }
{
    match blocks {
        [] => Ok(()),
        [front @ .., end] => {
            print_blocks(out, disk, front, form)?;
            print_block(out, disk, *end, last, form)
        }
    }
}

/// The bytes of a file with these blocks, up to the index `last` of the last one. `NoMemory` if there was none for them.
pub fn read_file(
    alloc: Global,
    disk: &MemDisk,
    blocks: &[Place],
    last: u8,
) -> Result<Vec<u8>, CommandFault>
    requires { length blocks.now ≤ 720 }
    ensures ok { IfOk result (λ bytes. bytes.items ≡ file_bytes (disk_image disk.now) blocks.now last) }
    ensures err { IfErr result (λ fault. fault ≡ faults.NoMemory) }
{
    let Ok(mut bytes) = Vec::with_capacity(alloc, 254 * blocks.len()) else {
        return Err(CommandFault::NoMemory);
    };
    match print_bytes(&mut bytes, disk, blocks, last, ByteForm::Plain) {
        Ok(()) => Ok(bytes),
        Err(_) => Err(CommandFault::NoMemory),
    }
}
