//! The file that is asked for, if it goes on past track 35 of an image that has more tracks.
ghost use Rattle.std.specs.Prelude.{◌≡◌, ◌-◌, IfErr, IfOk, MatchOption, length, slice_get};
ghost use Rattle.command_faults.specs.Faults.{IsLoadFault};
ghost use Rattle.damaged_files.specs.reached.Sizes.{disk_of};
ghost use Rattle.file_rescues.specs.Long.{IsFoundLong, IsNoLongFile};

use crate::finding::{Kind, find_file};
use crate::long_files::find_long;
use arrayvec::ArrayVec;
use command_faults::{CommandFault, load};
use d64_image::Place;
use damaged_files::disk_in;
use disk_layout::{Fault, Slot};
use long_chains::{MOST_SECTORS, has_more_tracks};
use std::alloc::Global;

/// A file that goes on past track 35.
#[derive(Clone, Copy)]
pub(crate) struct LongFile {
    /// Its entry.
    pub(crate) slot: Slot,
    /// The block where it leaves track 35, if it has one before.
    pub(crate) left: Option<Place>,
    /// Its chain aside, why it may not be whole.
    pub(crate) apart: Option<Fault>,
}

/// The last one of these blocks.
fn last_of(blocks: &[Place]) -> Option<Place>
    ensures { result ≡ slice_get blocks.now (length blocks.now - 1) }
{
    blocks.last().copied()
}

/// Finds the first file of this name and kind, if it goes on past track 35, and fills `chain` with its sectors. `NoMemory` or `ImageSize`:
/// the disk of the image wasn't loaded.
pub(crate) fn find_long_file(
    alloc: Global,
    image: &[u8],
    kind: Kind,
    name: &[u8],
    chain: &mut ArrayVec<u16, MOST_SECTORS>,
) -> Result<Option<LongFile>, CommandFault>
    ensures ok { IfOk result (λ found. MatchOption found (IsNoLongFile image.now kind name.now)
        (λ file. IsFoundLong image.now kind name.now chain.new.items file.apart file.slot file.left)) }
    ensures err { IfErr result (IsLoadFault (disk_of image.now)) }
{
    if !has_more_tracks(image) {
        return Ok(None);
    }
    let disk = load(alloc, disk_in(image))?;
    let mut blocks = ArrayVec::new();
    let Ok(file) = find_file(&disk, kind, name, &mut blocks) else {
        return Ok(None);
    };
    if !find_long(image, &file.slot, file.broken, chain) {
        return Ok(None);
    }
    Ok(Some(LongFile {
        slot: file.slot,
        left: last_of(blocks.as_slice()),
        apart: file.apart,
    }))
}
