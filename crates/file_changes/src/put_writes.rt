//! What is written for a new file: the map, its chain, and its entry, by which the file is there.
ghost use Rattle.std.specs.Prelude.{◌≡◌, ◌≤◌, ◌+◌, ◌<◌, Contains, length};
ghost use Rattle.d64_image.specs.History.{TellsFailure};
ghost use Rattle.disk_layout.specs.Chain.{EachOnce};
ghost use Rattle.disk_layout.specs.Directory.{map_place};
ghost use Rattle.disk_layout.specs.Layout.{Layout};
ghost use Rattle.file_changes.specs.PutWrites.{Fills, HasBlocks, PutsFile};
ghost use Rattle.file_changes.specs.Puts.{plain_entry, sectors_for};
ghost use Rattle.rel_records.specs.Calls.{WritesAtMost};
ghost use Rattle.rel_records.specs.creation.NewFile.{ChangesOnly};
ghost use Rattle.rel_records.specs.creation.Site.{IsSite};

use crate::file_type::FileType;
use crate::put_sectors::write_blocks;
use byteorder::{ByteOrder, LittleEndian};
use d64_image::{DeviceFault, Place, Sectors};
use disk_layout::{Bam, map_place, padded_name};
use rel_records::{Site, write_entry};

/// Bytes 2 to 31 of the slot of a closed file that isn't relative, with this first sector and number of sectors.
fn entry_of(kind: FileType, name: &[u8], first: Place, blocks: u16) -> [u8; 30]
    requires { length name.now ≤ 16 }
    ensures { result ≡ plain_entry kind name.now first blocks }
{
    let mut entry = [0; 30];
    LittleEndian::write_u16(&mut entry[28..30], blocks);
    entry[0] = kind.type_byte();
    entry[1] = first.track();
    entry[2] = first.sector();
    entry[3..19].copy_from_slice(&padded_name(name));
    entry
}

/// Writes the map and the chain: so far nobody owns these sectors.
fn write_sectors<D: Sectors>(
    disk: &mut D,
    map: &Bam,
    places: &[Place],
    content: &[u8],
) -> Result<(), DeviceFault>
    requires once { EachOnce places.now }
    requires count { Fills (length content.now) (length places.now) }
    requires apart { ¬ (Contains places.now map_place) }
    ensures { WritesAtMost D.history disk.old disk.new (length places.now + 1) 0
        (ChangesOnly (D.history.image disk.old) map.now.bytes places.now)
        (HasBlocks map.now.bytes places.now content.now) result }
{
    disk.write(map_place(), &map.bytes)?;
    write_blocks(disk, places, content)
}

/// Writes a new file of these data, one byte at least, with its entry. The last write makes the file.
pub(crate) fn write_file<D: Sectors>(
    disk: &mut D,
    site: &Site,
    name: &[u8],
    kind: FileType,
    content: &[u8],
) -> Result<(), DeviceFault>
    requires name { length name.now ≤ 16 }
    requires some { 0 < length content.now }
    requires site { (l : Layout) × IsSite (D.history.image disk.old) l (sectors_for (length content.now)) site.now }
    ensures file { (l : Layout) → IsSite (D.history.image disk.old) l (sectors_for (length content.now)) site.now
        → PutsFile D.history disk.old disk.new l name.now kind content.now result }
    ensures reads { D.history.reads disk.new ≤ D.history.reads disk.old }
    ensures failures { TellsFailure D.history disk.old disk.new result }
{
    write_sectors(disk, &site.map, site.blocks.as_slice(), content)?;
    let entry = entry_of(kind, name, site.blocks[0], site.blocks.len() as u16);
    write_entry(disk, site, &entry)
}
