//! A new file's sectors, and its entry.
ghost use Rattle.std.specs.Prelude.{◌≤◌, ◌<◌, ◌∷◌, [], length};
ghost use Rattle.d64_image.specs.History.{TellsFailure};
ghost use Rattle.disk_layout.specs.Layout.{Layout};
ghost use Rattle.rel_records.specs.Calls.{MakesFile, WritesAtMost};
ghost use Rattle.rel_records.specs.File.{IsLength};
ghost use Rattle.rel_records.specs.creation.NewFile.{
  AreApart,
  ChangesOnly,
  HasNewSectors,
  IsEntered,
  IsLinkedTo,
  IsNewDirectory,
};
ghost use Rattle.rel_records.specs.creation.Site.{IsSite, PutsEntry};

use crate::creation::site::Site;
use crate::growth::next_block::fresh_block;
use d64_image::{DeviceFault, Place, Sectors};
use disk_layout::{Bam, map_place, relative_entry, side_bytes};

/// Writes the map, the data block and the side sector: so far nobody owns the two.
fn write_sectors<D: Sectors>(
    disk: &mut D,
    map: &Bam,
    block: Place,
    side: Place,
    size: u8,
) -> Result<(), DeviceFault>
    requires size { IsLength size }
    requires apart { AreApart block side }
    ensures { WritesAtMost D.history disk.old disk.new 3 0
        (ChangesOnly (D.history.image disk.old) map.now.bytes (block ∷ side ∷ []))
        (HasNewSectors map.now.bytes block side size) result }
{
    disk.write(map_place(), &map.bytes)?;
    disk.write(block, &fresh_block(0, size))?;
    disk.write(side, &side_bytes(0, &[block], &[side], size))
}

/// Puts the entry, bytes 2 to 31 of a slot, into the slot with this number of a directory sector. The first slot keeps the
/// sector's link. In the others bytes 0 and 1 become 0.
fn set_entry(bytes: &mut [u8; 256], number: u8, entry: &[u8; 30])
    requires { number < 8 }
    ensures { IsEntered bytes.old bytes.new number entry.now }
{
    let at = 32 * number as usize;
    if number > 0 {
        bytes[at] = 0;
        bytes[at + 1] = 0;
    }
    bytes[at + 2..at + 32].copy_from_slice(entry);
}

/// A new directory sector after the directory's last, with the entry, bytes 2 to 31 of a slot, in its first slot.
fn directory_with(entry: &[u8; 30]) -> [u8; 256]
    ensures { IsNewDirectory result entry.now }
{
    let mut bytes = [0; 256];
    bytes[1] = 0xFF;
    set_entry(&mut bytes, 0, entry);
    bytes
}

/// Links a directory sector to another. Its other bytes stay.
fn link_to(bytes: &mut [u8; 256], place: Place)
    ensures { IsLinkedTo bytes.old bytes.new place }
{
    bytes[0] = place.track();
    bytes[1] = place.sector();
}

/// Writes a new file's entry, bytes 2 to 31 of a slot, where the site has it. A free slot gets it by one write. Without
/// one the new directory sector is written with it, and then the directory's last with the link to that. The last write
/// makes the file, whose other sectors are written before. A `DeviceFault` if the device failed: the file is there, or
/// it isn't.
pub fn write_entry<D: Sectors>(
    disk: &mut D,
    site: &Site,
    entry: &[u8; 30],
) -> Result<(), DeviceFault>
    requires { site.now.number < 8 }
    ensures { PutsEntry D.history disk.old disk.new site.now entry.now result }
{
    let mut last = site.bytes;
    match site.fresh {
        Some(fresh) => {
            link_to(&mut last, fresh);
            disk.write(fresh, &directory_with(entry))?;
            disk.write(site.place, &last)
        }
        None => {
            set_entry(&mut last, site.number, entry);
            disk.write(site.place, &last)
        }
    }
}

/// Writes a new file with its entry. The last write makes the file.
pub(crate) fn write_file<D: Sectors>(
    disk: &mut D,
    site: &Site,
    name: &[u8],
    size: u8,
) -> Result<(), DeviceFault>
    requires name { length name.now ≤ 16 }
    requires size { IsLength size }
    requires site { (l : Layout) × IsSite (D.history.image disk.old) l 2 site.now }
    ensures file { (l : Layout) → IsSite (D.history.image disk.old) l 2 site.now
        → MakesFile D.history disk.old disk.new l name.now size site.now result }
    ensures reads { D.history.reads disk.new ≤ D.history.reads disk.old }
    ensures failures { TellsFailure D.history disk.old disk.new result }
{
    let block = site.blocks[0];
    let side = site.blocks[1];
    write_sectors(disk, &site.map, block, side, size)?;
    write_entry(disk, site, &relative_entry(name, block, side, size, 2))
}
