//! All files of an image, made in a folder.
ghost use Rattle.std.specs.Prelude.{◌≡◌, ◌≤◌, ◌++◌, List, IfErr, IfOk, length};
ghost use Rattle.std.specs.List.{AllByRecursion};
ghost use Rattle.d64_image.specs.Memory.{disk_image};
ghost use Rattle.d64_image.specs.declared.place.Place.{Place};
ghost use Rattle.file_rescues.specs.rescue.Errors.{errors_of};
ghost use Rattle.file_rescues.specs.rescue.Folders.{AddsFiles, AddsPart};
ghost use Rattle.file_rescues.specs.rescue.Index.{row_text};
ghost use Rattle.damaged_files.specs.reached.Owned.{CountsAll};
ghost use Rattle.file_rescues.specs.rescue.Rescues.{IsExtractFault, IsExtracted, IsMakeFault, IsRescued, all_files};
ghost use Rattle.file_rescues.specs.rescue.Rescues.{files_from, files_of, first_fault, row_of, rows_from};
ghost use Rattle.file_rescues.specs.rescue.Sharing.{first_past, owned};

use crate::rescue::art::is_art;
use crate::rescue::choices::Choice;
use crate::rescue::deleted::rescue_chosen;
use crate::rescue::errors::{Errors, misread_blocks, misread_past};
use crate::rescue::folders::NewFolder;
use crate::rescue::making::{make, make_files};
use crate::rescue::output::put;
use crate::rescue::past_sharing::{first_past, past_of};
use crate::rescue::rescuing::Rescued;
use crate::rescue::rows::{Line, Row};
use crate::rescue::scanning::add_chosen;
use crate::rescue::sharing::owners_of;
use arrayvec::ArrayVec;
use command_faults::{CommandFault, load};
use d64_image::{MemDisk, Place};
use damaged_files::{Owners, disk_in, read_so_far};
use disk_layout::Fault;
use sha2::{Digest, Sha256};
use std::alloc::Global;

/// The index's name.
const INDEX: &[u8] = b"index.csv";

/// What stands in its columns.
const HEADING: &str =
    "number,file,name,text,type,closed,locked,blocks,found,length,bytes,fault,shared,errors,sha256\n";

/// Makes the files of entry `number`, none of directory art, and returns its row of the index. `File` if the folder
/// failed, or `NoMemory`.
fn make_row<F: NewFolder>(
    alloc: Global,
    image: &[u8],
    disk: &MemDisk,
    folder: &mut F,
    owners: &Owners,
    number: u8,
    file: &Rescued,
) -> Result<Row, CommandFault>
    requires rescued { IsRescued image.now (disk_image disk.now) file.now }
    ensures row { IfOk result (λ row. (all : List Place) → CountsAll owners.now all
        → row ≡ row_of image.now (disk_image disk.now) all number file.now) }
    ensures ok { IfOk result (λ row. AddsFiles (F.files folder.old) (F.files folder.new)
        (files_of image.now (disk_image disk.now) number file.now)) }
    ensures err { IfErr result (λ fault. IsMakeFault fault
        × AddsPart (F.files folder.old) (F.files folder.new) (files_of image.now (disk_image disk.now) number file.now)) }
{
    if is_art(&file.slot) {
        return Ok(Row {
            number,
            slot: file.slot,
            is_cvt: false,
            blocks: 0,
            bytes: 0,
            fault: None,
            shared: None,
            hash: None,
        });
    }
    let bytes = make_files(alloc, image, disk, folder, number, file)?;
    Ok(Row {
        number,
        slot: file.slot,
        is_cvt: file.is_cvt,
        blocks: file.block_count(),
        bytes: bytes.len(),
        fault: file.fault,
        shared: owners.first_shared(file.blocks.as_slice()),
        hash: Some(Sha256::digest(bytes.as_slice())),
    })
}

/// Makes the files of entry `number`, and adds its row to the index. `File` if the folder failed, or `NoMemory`.
fn extract_entry<F: NewFolder>(
    alloc: Global,
    image: &[u8],
    disk: &MemDisk,
    folder: &mut F,
    owners: &Owners,
    shared: &[u16],
    number: u8,
    file: &Rescued,
    index: &mut Vec<u8>,
) -> Result<Row, CommandFault>
    requires rescued { IsRescued image.now (disk_image disk.now) file.now }
    ensures row { IfOk result (λ row. (all : List Place) → CountsAll owners.now all
        → row ≡ row_of image.now (disk_image disk.now) all number file.now) }
    ensures index { IfOk result (λ row. index.new.items
        ≡ index.old.items ++ row_text row (first_past shared.now file.now) (errors_of image.now file.now)) }
    ensures ok { IfOk result (λ row. AddsFiles (F.files folder.old) (F.files folder.new)
        (files_of image.now (disk_image disk.now) number file.now)) }
    ensures err { IfErr result (λ fault. IsMakeFault fault
        × AddsPart (F.files folder.old) (F.files folder.new) (files_of image.now (disk_image disk.now) number file.now)) }
{
    let row = make_row(alloc, image, disk, folder, owners, number, file)?;
    let past = first_past(shared, file);
    let blocks = misread_blocks(alloc, image, file)?;
    let sectors = misread_past(alloc, image, file)?;
    let errors = Errors {
        image,
        places: blocks.as_slice(),
        past: sectors.as_slice(),
    };
    put(index, Line { row, past, errors })?;
    Ok(row)
}

/// Makes the files of these entries, adds their rows to the index, and returns `before` or the first fault of theirs.
/// `File` if the folder failed, or `NoMemory`.
fn extract_entries<F: NewFolder>(
    alloc: Global,
    image: &[u8],
    disk: &MemDisk,
    folder: &mut F,
    owners: &Owners,
    shared: &[u16],
    files: &[Rescued],
    index: &mut Vec<u8>,
    before: Option<Fault>,
) -> Result<Option<Fault>, CommandFault>
    requires rescued { AllByRecursion (IsRescued image.now (disk_image disk.now)) files.now }
    requires few { length files.now ≤ 144 }
    ensures made { IfOk result (λ _. AddsFiles (F.files folder.old) (F.files folder.new)
        (files_from image.now (disk_image disk.now) 1 files.now)) }
    ensures rows { IfOk result (λ _. (all : List Place) → CountsAll owners.now all
        → index.new.items ≡ index.old.items ++ rows_from image.now (disk_image disk.now) all shared.now 1 files.now) }
    ensures told { IfOk result (λ fault. (all : List Place) → CountsAll owners.now all
        → fault ≡ first_fault image.now (disk_image disk.now) all 1 before files.now) }
    ensures err { IfErr result (λ fault. IsMakeFault fault
        × AddsPart (F.files folder.old) (F.files folder.new) (files_from image.now (disk_image disk.now) 1 files.now)) }
{
    let mut found = before;
    let mut number = 0;
    for file in files {
        number += 1;
        let row = extract_entry(
            alloc, image, disk, folder, owners, shared, number, file, index,
        )?;
        found = found.or(row.fault());
    }
    Ok(found)
}

/// Makes the files of all entries, and the index. `File` if the folder failed, or `NoMemory`.
fn extract_files<F: NewFolder>(
    alloc: Global,
    image: &[u8],
    disk: &MemDisk,
    folder: &mut F,
    sectors: &[Place],
    files: &[Rescued],
    found: Option<Fault>,
) -> Result<Option<Fault>, CommandFault>
    requires rescued { AllByRecursion (IsRescued image.now (disk_image disk.now)) files.now }
    requires few { length files.now ≤ 144 }
    ensures ok { IfOk result (λ fault. AddsFiles (F.files folder.old) (F.files folder.new)
        (all_files image.now (disk_image disk.now) sectors.now files.now)
        × (fault ≡ first_fault image.now (disk_image disk.now) (owned sectors.now files.now) 1 found files.now)) }
    ensures err { IfErr result (λ fault. IsMakeFault fault
        × AddsPart (F.files folder.old) (F.files folder.new) (all_files image.now (disk_image disk.now) sectors.now files.now)) }
{
    let owners = owners_of(sectors, files);
    let shared = past_of(files, 2);
    let mut index = Vec::new(alloc);
    put(&mut index, HEADING)?;
    let fault = extract_entries(
        alloc,
        image,
        disk,
        folder,
        &owners,
        shared.as_slice(),
        files,
        &mut index,
        found,
    )?;
    make(folder, INDEX, index.as_slice())?;
    Ok(fault)
}

/// Makes in a folder a file for each entry of the directory of the disk in an image of 35, 40 or 42 tracks, with what can be
/// reached of its bytes, and for each relative one also a file with the lines of its records. After them it makes `index.csv`,
/// with a line for each entry; its last columns are the file's blocks that a drive couldn't read when the image was made, by the
/// image's error bytes, and the SHA-256 of the file's bytes, in hexadecimal digits. A damaged directory or chain, a block that several have, and a file that isn't closed keep nothing back. Returns the
/// first of these faults, the directory's before those of the entries in their order: `BadLink`, `Loop`, `OwnedTwice` or
/// `Unclosed`. Directory art (`is_art`) has a line in the index, no file, and no fault.
///
/// If they are chosen, the entries of other sectors of track 18 come after those of the directory, by the numbers of
/// the sectors. These have a link as a directory sector has, slots that a drive may have written, and an entry.
///
/// If they are chosen, deleted entries come after all others: those with a name and a first block, of which no block that
/// can be reached is also the map's, the directory's or that of an entry that isn't deleted. `Unclosed` isn't returned for
/// them.
///
/// Each name is that of a file in the folder, and no two are equal (`names_stay_inside`). `ImageSize`: nothing was made.
/// `File` if the folder failed, or `NoMemory`: the folder has a prefix of the files, and perhaps a part of one more.
pub fn extract_image<F: NewFolder>(
    alloc: Global,
    choice: Choice,
    image: &[u8],
    folder: &mut F,
) -> Result<Option<Fault>, CommandFault>
    ensures ok { IfOk result (IsExtracted F.files choice image.now folder.old folder.new) }
    ensures err { IfErr result (IsExtractFault F.files choice image.now folder.old folder.new) }
{
    let disk = load(alloc, disk_in(image))?;
    let mut sectors = ArrayVec::new();
    let mut entries = ArrayVec::new();
    let found = read_so_far(&disk, &mut sectors, &mut entries);
    add_chosen(&disk, choice, &mut sectors);
    let files = rescue_chosen(alloc, image, &disk, choice, sectors.as_slice())?;
    extract_files(
        alloc,
        image,
        &disk,
        folder,
        sectors.as_slice(),
        files.as_slice(),
        found,
    )
}
