//! Directory art at 18/0, the sector of the map, put aside while a disk is changed.
ghost use Rattle.std.specs.Prelude.{◌≡◌, ◌<◌, Contains, IfErr, IfOk, MatchOption};
ghost use Rattle.command_faults.specs.Faults.{IsLoadFault};
ghost use Rattle.std.specs.List.{list_any};
ghost use Rattle.d64_image.specs.Memory.{disk_image, sectors_in};
ghost use Rattle.disk_changes.specs.Art as art;
ghost use Rattle.disk_changes.specs.Art.{HasArt, HasNoArt, with_track, with_tracks};
ghost use Rattle.disk_layout.specs.declared.slot.Slot.{Slot};

use arrayvec::ArrayVec;
use command_faults::{CommandFault, load};
use d64_image::{MemDisk, Sectors};
use disk_layout::{Slot, read_directory};
use file_changes::overwrite;
use file_rescues::is_art;
use std::alloc::Global;

/// The byte of a slot that has the track of its first block.
const TRACK_AT: usize = 3;

/// The track of a first block that is none.
pub(crate) const NO_TRACK: u8 = 0;

/// The track of the map and the directory.
pub(crate) const MAP_TRACK: u8 = 18;

/// Room for the entries of a directory.
type Entries = ArrayVec<Slot, 144>;

/// Whether the entry is directory art whose first block is 18/0.
fn is_on_map(entry: &Slot) -> bool
    ensures { result ≡ art.is_on_map entry.now }
{
    is_art(entry) && entry.bytes[TRACK_AT] == MAP_TRACK
}

/// Whether one of these entries is.
fn has_art(entries: &[Slot]) -> bool
    ensures { result ≡ list_any art.is_on_map entries.now }
{
    entries.iter().any(|entry| is_on_map(entry))
}

/// The disk of an image, and the entries of its directory, if one of them is directory art at 18/0. An error is that of `load`.
pub(crate) fn disk_with_art(
    alloc: Global,
    image: &[u8],
) -> Result<Option<(MemDisk, Entries)>, CommandFault>
    ensures found { IfOk result (λ found. MatchOption found (HasNoArt image.now) (λ disk.
        HasArt image.now disk.1.items × (disk_image disk.0 ≡ sectors_in image.now))) }
    ensures err { IfErr result (IsLoadFault image.now) }
{
    let mut disk = load(alloc, image)?;
    let mut entries = ArrayVec::new();
    let Ok(()) = read_directory(&mut disk, &mut entries) else {
        return Ok(None);
    };
    if has_art(entries.as_slice()) {
        Ok(Some((disk, entries)))
    } else {
        Ok(None)
    }
}

/// Writes the track of an entry's first block, if it is directory art at 18/0.
fn put_track(disk: &mut MemDisk, entry: &Slot, track: u8)
    requires { entry.now.number < 8 }
    ensures { disk_image disk.new ≡ with_track track (disk_image disk.old) entry.now }
{
    if !is_on_map(entry) {
        return;
    }
    let mut bytes = *disk.sector(entry.sector);
    overwrite(&mut bytes, 32 * entry.number as usize + TRACK_AT, &[track]);
    let _ = disk.write(entry.sector, &bytes);
}

/// Writes it in each of these entries.
pub(crate) fn put_tracks(disk: &mut MemDisk, entries: &[Slot], track: u8)
    requires { (s : Slot) → Contains entries.now s → s.number < 8 }
    ensures { disk_image disk.new ≡ with_tracks track (disk_image disk.old) entries.now }
{
    for entry in entries {
        put_track(disk, entry, track);
    }
}
