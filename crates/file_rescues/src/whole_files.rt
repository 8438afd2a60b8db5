//! A file all of which is there.
ghost use Rattle.std.specs.Prelude.{IfErr, IfOk};
ghost use Rattle.file_rescues.specs.Whole.{IsNoWholeFile, IsWholeFile};

use crate::byte_printing::{ended, no_file};
use crate::chains::read_file;
use crate::finding::{Candidates, Kind, find_file};
use arrayvec::ArrayVec;
use command_faults::{CommandFault, load};
use disk_layout::Slot;
use std::alloc::Global;

/// The entry and the bytes of the first closed file of this name, whatever its type is, if all of it is there.
///
/// `NoFile` if no closed file has the name. `Layout` if a fault is in the way, the one that `bytes_image` finds. `Short` if the
/// disk is sound and the file is cut short there (`find_cut` of `damaged_files`). `ImageSize`, `NoMemory`: the image wasn't read.
pub fn whole_file(alloc: Global, image: &[u8], name: &[u8]) -> Result<(Slot, Vec<u8>), CommandFault>
    ensures ok { IfOk result (λ found. IsWholeFile image.now name.now found.0 found.1.items) }
    ensures err { IfErr result (IsNoWholeFile image.now name.now) }
{
    let mut disk = load(alloc, image)?;
    let mut blocks = ArrayVec::new();
    let file = match find_file(&disk, Kind::Any(Candidates::Closed), name, &mut blocks) {
        Ok(file) => file,
        Err(ended) => return Err(no_file(ended)),
    };
    let bytes = read_file(alloc, &disk, blocks.as_slice(), file.last)?;
    match ended(&mut disk, &file) {
        Ok(None) => Ok((file.slot, bytes)),
        Ok(Some(place)) => Err(CommandFault::Short(place)),
        Err(fault) => Err(fault),
    }
}
