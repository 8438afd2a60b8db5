//! The files that are made of an entry.
ghost use Rattle.std.specs.Prelude.{◌≡◌, ◌≤◌, IfErr, IfOk, OnOk, [], ◌∷◌, length, true};
ghost use Rattle.std.specs.List.{AllByRecursion};
ghost use Rattle.d64_image.specs.Memory.{disk_image};
ghost use Rattle.file_rescues.specs.rescue.Folders.{AddsFiles, AddsPart, StaysInside, new_file};
ghost use Rattle.file_rescues.specs.rescue.Rescues.{IsMakeFault, IsRescued, bytes_by, bytes_in, line_files, long_bytes, own_files};
ghost use Rattle.file_rescues.specs.rescue.Named.{first_name};
ghost use Rattle.file_rescues.specs.Found.{records_length};
ghost use Rattle.file_rescues.specs.Records.{records_of, records_text};
ghost use Rattle.damaged_files.specs.reached.Names.{name_of};
ghost use Rattle.geos_files.specs.Entries.{geos_entry};
ghost use Rattle.long_chains.specs.Sectors.{HasSector};
ghost use Rattle.line_text.specs.petscii.FileNames.{file_name_of};
ghost use Rattle.line_text.specs.declared.petscii.file_names.Ending.TheVariants as endings;
ghost use Rattle.command_faults.specs.declared.faults.CommandFault.TheVariants as faults;

use crate::chains::read_file;
use crate::finding::length_of_records;
use crate::forms::RecordForm;
use crate::long_files::read_long;
use crate::piece_printing::print_pieces;
use crate::rescue::folders::NewFolder;
use crate::rescue::geos::cvt_bytes;
use crate::rescue::long_cvt::long_cvt;
use crate::rescue::naming::first_name;
use crate::rescue::rescuing::Rescued;
use command_faults::CommandFault;
use d64_image::MemDisk;
use damaged_files::entry_name;
use geos_files::geos_entry;
use line_text::{Ending, file_name};
use std::alloc::Global;

/// Makes a file. `NoMemory` if the folder failed for want of memory, and `File` if it failed otherwise.
pub(crate) fn make<F: NewFolder>(
    folder: &mut F,
    name: &[u8],
    bytes: &[u8],
) -> Result<(), CommandFault>
    requires inside { StaysInside name.now }
    ensures ok { OnOk result
        (AddsFiles (F.files folder.old) (F.files folder.new) (new_file name.now bytes.now ∷ [])) }
    ensures err { IfErr result (λ fault. IsMakeFault fault
        × AddsPart (F.files folder.old) (F.files folder.new) (new_file name.now bytes.now ∷ [])) }
{
    match folder.make(name, bytes) {
        Ok(()) => Ok(()),
        Err(error) => Err(CommandFault::of_io(&error)),
    }
}

/// Makes the file with the bytes of entry `number`. `File` if the folder failed, or `NoMemory`.
fn make_first<F: NewFolder>(
    folder: &mut F,
    number: u8,
    file: &Rescued,
    bytes: &[u8],
) -> Result<(), CommandFault>
    ensures ok { OnOk result (AddsFiles (F.files folder.old) (F.files folder.new)
        (new_file (first_name number file.now.is_cvt file.now.slot) bytes.now ∷ [])) }
    ensures err { IfErr result (λ fault. IsMakeFault fault
        × AddsPart (F.files folder.old) (F.files folder.new)
        (new_file (first_name number file.now.is_cvt file.now.slot) bytes.now ∷ [])) }
{
    let name = first_name(number, file.is_cvt, &file.slot);
    make(folder, name.as_slice(), bytes)
}

/// Makes the file with the lines of the records of entry `number`. `File` if the folder failed, or `NoMemory`.
fn make_lines<F: NewFolder>(
    folder: &mut F,
    number: u8,
    file: &Rescued,
    bytes: &[u8],
) -> Result<(), CommandFault>
    ensures ok { OnOk result (AddsFiles (F.files folder.old) (F.files folder.new)
        (new_file (file_name_of number (name_of file.now.slot) endings.Records) bytes.now ∷ [])) }
    ensures err { IfErr result (λ fault. IsMakeFault fault
        × AddsPart (F.files folder.old) (F.files folder.new)
        (new_file (file_name_of number (name_of file.now.slot) endings.Records) bytes.now ∷ [])) }
{
    let name = file_name(number, entry_name(&file.slot), Ending::Records);
    make(folder, name.as_slice(), bytes)
}

/// The bytes of a file that can be reached on tracks 1 to 35; of one of GEOS those of its CVT. `NoMemory` if there was none for them.
fn reached_bytes(alloc: Global, disk: &MemDisk, file: &Rescued) -> Result<Vec<u8>, CommandFault>
    requires { length file.now.blocks.items ≤ 720 }
    ensures ok { IfOk result (λ bytes. bytes.items ≡ bytes_by (geos_entry file.now.slot) (disk_image disk.now) file.now) }
    ensures err { IfErr result (λ fault. fault ≡ faults.NoMemory) }
{
    match geos_entry(&file.slot) {
        Some(entry) => cvt_bytes(alloc, disk, &entry, file),
        None => read_file(alloc, disk, file.blocks.as_slice(), file.last),
    }
}

/// The bytes of a file with sectors past track 35; of one of GEOS those of its CVT. `NoMemory` if there was none for them.
fn whole_bytes(alloc: Global, image: &[u8], file: &Rescued) -> Result<Vec<u8>, CommandFault>
    requires inside { AllByRecursion (HasSector image.now) file.now.sectors.items }
    requires few { length file.now.sectors.items ≤ 802 }
    requires cvt { file.now.is_cvt ≡ true → length file.now.sectors.items ≤ 800 }
    requires pairs { length file.now.pairs.items ≤ 254 }
    ensures ok { IfOk result (λ bytes. bytes.items ≡ long_bytes image.now file.now) }
    ensures short { IfOk result (λ bytes. length bytes.items ≤ 203708) }
    ensures err { IfErr result (λ fault. fault ≡ faults.NoMemory) }
{
    if file.is_cvt {
        return long_cvt(alloc, image, file);
    }
    read_long(alloc, image, file.sectors.as_slice())
}

/// The bytes of a file, as far as it can be reached. `NoMemory` if there was none for them.
fn bytes_of(
    alloc: Global,
    image: &[u8],
    disk: &MemDisk,
    file: &Rescued,
) -> Result<Vec<u8>, CommandFault>
    requires { IsRescued image.now (disk_image disk.now) file.now }
    ensures ok { IfOk result (λ bytes. bytes.items ≡ bytes_in image.now (disk_image disk.now) file.now) }
    ensures short { IfOk result (λ bytes. length bytes.items ≤ 203708) }
    ensures err { IfErr result (λ fault. fault ≡ faults.NoMemory) }
{
    if file.is_long() {
        return whole_bytes(alloc, image, file);
    }
    reached_bytes(alloc, disk, file)
}

/// The lines of the records of `size` bytes among these bytes. `NoMemory` if there was none for them.
fn record_lines(alloc: Global, bytes: &[u8], size: u8) -> Result<Vec<u8>, CommandFault>
    requires low { 1 ≤ size }
    requires high { size ≤ 254 }
    requires short { length bytes.now ≤ 203708 }
    ensures ok { IfOk result (λ lines. lines.items ≡ records_text (records_of size bytes.now)) }
    ensures err { IfErr result (λ fault. fault ≡ faults.NoMemory) }
{
    let mut lines = Vec::new(alloc);
    match print_pieces(&mut lines, RecordForm::Lines, bytes, size as usize) {
        Ok(()) => Ok(lines),
        Err(_) => Err(CommandFault::NoMemory),
    }
}

/// Makes the file with the lines of the records among these bytes, if entry `number` has records. `File` if the folder
/// failed, or `NoMemory`.
fn make_records<F: NewFolder>(
    alloc: Global,
    folder: &mut F,
    number: u8,
    file: &Rescued,
    bytes: &[u8],
) -> Result<(), CommandFault>
    requires short { length bytes.now ≤ 203708 }
    ensures ok { OnOk result (AddsFiles (F.files folder.old) (F.files folder.new)
        (line_files number file.now bytes.now (records_length file.now.slot))) }
    ensures err { IfErr result (λ fault. IsMakeFault fault
        × AddsPart (F.files folder.old) (F.files folder.new)
        (line_files number file.now bytes.now (records_length file.now.slot))) }
{
    let Some(length) = length_of_records(&file.slot) else {
        return Ok(());
    };
    let lines = record_lines(alloc, bytes, length)?;
    make_lines(folder, number, file, lines.as_slice())
}

/// Makes the files that stand for entry `number`, and returns its bytes that can be reached: those of the first file. `File`
/// if the folder failed, or `NoMemory`: the folder then has a part of them.
pub(crate) fn make_files<F: NewFolder>(
    alloc: Global,
    image: &[u8],
    disk: &MemDisk,
    folder: &mut F,
    number: u8,
    file: &Rescued,
) -> Result<Vec<u8>, CommandFault>
    requires rescued { IsRescued image.now (disk_image disk.now) file.now }
    ensures ok { IfOk result (λ bytes. (bytes.items ≡ bytes_in image.now (disk_image disk.now) file.now)
        × AddsFiles (F.files folder.old) (F.files folder.new) (own_files image.now (disk_image disk.now) number file.now)) }
    ensures err { IfErr result (λ fault. IsMakeFault fault
        × AddsPart (F.files folder.old) (F.files folder.new) (own_files image.now (disk_image disk.now) number file.now)) }
{
    let bytes = bytes_of(alloc, image, disk, file)?;
    make_first(folder, number, file, bytes.as_slice())?;
    make_records(alloc, folder, number, file, bytes.as_slice())?;
    Ok(bytes)
}
