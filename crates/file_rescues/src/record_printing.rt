//! The records of a relative file, as they are printed, by the chain of its blocks.
ghost use Rattle.std.specs.Prelude.{◌≡◌, ◌≤◌, ◌⊎◌, IfErr, IfOk, IsTrue, OnErr, OnOk, length};
ghost use Rattle.std.specs.Io.KnownBytes.{Appends};
ghost use Rattle.command_faults.specs.Outputs.{HandsPart};
ghost use Rattle.d64_image.specs.Memory.{disk_image};
ghost use Rattle.disk_layout.specs.Layout.{record_length};
ghost use Rattle.file_rescues.specs.Bytes.{file_bytes};
ghost use Rattle.file_rescues.specs.Forms.{records_as};
ghost use Rattle.file_rescues.specs.Found.{has_records};
ghost use Rattle.file_rescues.specs.Printed.{AreRecordsTaken, IsRecordsFault, IsRecordsPart};
ghost use Rattle.file_rescues.specs.Records.{records_of};
ghost use Rattle.command_faults.specs.declared.faults.CommandFault.TheVariants as faults;

use crate::byte_printing::no_file;
use crate::chains::read_file;
use crate::finding::{Candidates, FoundFile, Kind, find_file};
use crate::forms::RecordForm;
use crate::piece_printing::print_pieces;
use arrayvec::ArrayVec;
use command_faults::{CommandFault, flush, load};
use d64_image::{MemDisk, Place};
use damaged_files::sound_cut;
use disk_layout::EntryView;
use layout_check::unsoundness;
use std::alloc::Global;
use std::io::Write;

/// Prints the records among the bytes of a file with these blocks. `File` if the output failed; or `NoMemory`, and then
/// nothing was printed.
pub(crate) fn print_reached<W: Write>(
    alloc: Global,
    disk: &MemDisk,
    file: FoundFile,
    blocks: &[Place],
    form: RecordForm,
    out: &mut W,
) -> Result<(), CommandFault>
    requires records { IsTrue (has_records file.slot) }
    requires few { length blocks.now ≤ 720 }
    ensures ok { OnOk result (Appends (W.contents out.old) (W.contents out.new)
        (records_as form (records_of (record_length file.slot) (file_bytes (disk_image disk.now) blocks.now file.last)))) }
    ensures part { OnErr result (HandsPart (W.contents out.old) (W.contents out.new)
        (records_as form (records_of (record_length file.slot) (file_bytes (disk_image disk.now) blocks.now file.last)))) }
    ensures err { IfErr result (λ fault. (fault ≡ faults.File) ⊎ ((fault ≡ faults.NoMemory) × (out.new ≡ out.old))) }
{
    let bytes = read_file(alloc, disk, blocks, file.last)?;
    let size = EntryView::new(&file.slot.bytes).record_length() as usize;
    print_pieces(out, form, bytes.as_slice(), size)
}

/// Prints the records of the first closed relative file of this name, one a line, record 1 first: its number, a
/// comma, and its bytes up to the last one that isn't 0, in this form. Returns the place where this file is cut short, if
/// it is (`find_cut` of `damaged_files`).
///
/// If the disk isn't sound, whole records are cut from the bytes that can be reached of the first such file with a record
/// length of 1 to 254, without side sectors. The error is then `Layout` with the first fault of what `bytes_image` judges of
/// that file, or with that of the disk if there is none.
///
/// Nothing was printed after `ImageSize`, `NoMemory` and `NoFile`, and after `Layout` if such a disk has no such file. After
/// `File` the output failed: it has a first part of what was to be printed.
pub fn records_image<W: Write>(
    alloc: Global,
    image: &[u8],
    name: &[u8],
    form: RecordForm,
    out: &mut W,
) -> Result<Option<Place>, CommandFault>
    ensures ok { IfOk result (AreRecordsTaken W.contents form image.now name.now out.old out.new) }
    ensures err { IfErr result (IsRecordsFault W.contents form image.now name.now out.old out.new) }
    ensures part { OnErr result (IsRecordsPart W.contents form image.now name.now out.old out.new) }
{
    let mut disk = load(alloc, image)?;
    let first = unsoundness(&mut disk);
    let mut blocks = ArrayVec::new();
    let kind = Kind::Records(Candidates::Closed);
    let Ok(file) = find_file(&disk, kind, name, &mut blocks) else {
        return Err(no_file(first));
    };
    print_reached(alloc, &disk, file, blocks.as_slice(), form, out)?;
    flush(out)?;
    match first {
        Some(fault) => Err(CommandFault::Layout(file.fault.unwrap_or(fault))),
        None => Ok(sound_cut(&mut disk, Some(file.number))),
    }
}
