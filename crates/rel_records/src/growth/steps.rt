//! A file takes one more data block: the sectors that are written for it.
ghost use Rattle.std.specs.Prelude.{◌≡◌, ◌≤◌, ◌<◌, ◌+◌, ◌-◌, ℕ, Some, if◌then◌else◌, length, slice_get};
ghost use Rattle.d64_image.specs.History.{TellsFailure};
ghost use Rattle.d64_image.specs.Images.{put};
ghost use Rattle.d64_image.specs.declared.place.Place.{Place};
ghost use Rattle.disk_layout.specs.Chain.{EachOnce};
ghost use Rattle.disk_layout.specs.Directory.{map_place};
ghost use Rattle.disk_layout.specs.Layout.{File, Layout, record_length};
ghost use Rattle.disk_layout.specs.Side.{side_sector};
ghost use Rattle.disk_layout.specs.View.{blocks_free};
ghost use Rattle.rel_records.specs.Calls.{GrowsBy, WritesAtMost};
ghost use Rattle.rel_records.specs.growth.Growth.{full};
ghost use Rattle.rel_records.specs.growth.Steps.{
  AreSidedFrom,
  HasBlockMore,
  IsAt,
  IsBefore,
  IsFilledUp,
  IsSideOr,
  IsSided,
  IsSidedInOrder,
  StandsAt,
  step_writes,
  taken_next,
};

use crate::growth::next_block::lay_out;
use crate::growth::step_parts::Growing;
use d64_image::{DeviceFault, Place, Sectors};
use disk_layout::{POINTERS, map_place, side_bytes};

/// Writes the side sector with this number, with its exact bytes.
fn write_side<D: Sectors>(
    disk: &mut D,
    number: u8,
    blocks: &[Place],
    sides: &[Place],
    size: u8,
) -> Result<(), DeviceFault>
    requires { number < length sides.now }
    ensures { WritesAtMost D.history disk.old disk.new 1 0
        (IsSideOr (D.history.image disk.old) number blocks.now sides.now size)
        (λ c. (q : Place) → slice_get sides.now number ≡ Some q
        → c ≡ put (D.history.image disk.old) q (side_sector number blocks.now sides.now size))
        result }
{
    let bytes = side_bytes(number, blocks, sides, size);
    disk.write(sides[number as usize], &bytes)
}

/// Writes the side sectors below this number, lowest first.
fn write_older<D: Sectors>(
    disk: &mut D,
    below: u8,
    blocks: &[Place],
    sides: &[Place],
    size: u8,
) -> Result<(), DeviceFault>
    requires below { below < length sides.now }
    requires once { EachOnce sides.now }
    ensures { WritesAtMost D.history disk.old disk.new below 0
        (IsSided (D.history.image disk.old) blocks.now sides.now size)
        (λ c. AreSidedFrom below (D.history.image disk.old) blocks.now sides.now size
        → AreSidedFrom 0 c blocks.now sides.now size) result }
{
    for number in 0..below {
        write_side(disk, number, blocks, sides, size)?;
    }
    Ok(())
}

/// Writes the last side sector. If it is new, writes the others too, lowest first, because each lists it.
fn write_sides<D: Sectors>(
    disk: &mut D,
    blocks: &[Place],
    sides: &[Place],
    size: u8,
    new: bool,
) -> Result<(), DeviceFault>
    requires some { 1 ≤ length sides.now }
    requires few { length sides.now ≤ 6 }
    requires once { EachOnce sides.now }
    ensures { WritesAtMost D.history disk.old disk.new (if new then (length sides.now) else 1) 0
        (IsSidedInOrder (D.history.image disk.old) blocks.now sides.now size)
        (λ c. AreSidedFrom (if new then 0 else (length sides.now - 1)) c blocks.now sides.now size) result }
{
    let last = sides.len() as u8 - 1;
    write_side(disk, last, blocks, sides, size)?;
    if new {
        write_older(disk, last, blocks, sides, size)
    } else {
        Ok(())
    }
}

/// Writes what comes before the link: the map, the fresh block, and the side sectors.
fn prepare<D: Sectors>(
    disk: &mut D,
    parts: &Growing,
    fresh: Place,
    block: &[u8; 256],
    new: bool,
) -> Result<(), DeviceFault>
    requires some { 1 ≤ length parts.now.sides.items }
    requires few { length parts.now.sides.items ≤ 6 }
    requires once { EachOnce parts.now.sides.items }
    ensures { WritesAtMost D.history disk.old disk.new (2 + (if new then (length parts.now.sides.items) else 1)) 0
        (IsBefore (D.history.image disk.old) parts.now fresh block.now)
        (λ c. AreSidedFrom (if new then 0 else (length parts.now.sides.items - 1)) c parts.now.blocks.items
        parts.now.sides.items
        parts.now.size
        × IsSided (put (put (D.history.image disk.old) map_place parts.now.map.bytes) fresh block.now)
        parts.now.blocks.items
        parts.now.sides.items parts.now.size c)
        result }
{
    disk.write(map_place(), &parts.map.bytes)?;
    disk.write(fresh, block)?;
    write_sides(
        disk,
        parts.blocks.as_slice(),
        parts.sides.as_slice(),
        parts.size,
        new,
    )
}

/// Gives the file one more data block, and one more side sector if its side sectors are full. Writes the map, the fresh
/// block and the side sectors; then the old last block with its link, which makes the file longer; and then the block
/// count.
pub(crate) fn add_block<D: Sectors>(disk: &mut D, parts: &mut Growing) -> Result<(), DeviceFault>
    requires at { StandsAt (D.history.image disk.old) parts.old }
    requires few { length parts.old.blocks.items < 720 }
    requires room { taken_next (length parts.old.blocks.items) ≤ blocks_free parts.old.map.bytes }
    ensures file { (l : Layout) → (n : ℕ) → (f : File) → IsAt (D.history.image disk.old) l n f parts.old → IsFilledUp f
        → GrowsBy D.history disk.old disk.new l n f (step_writes (length f.blocks))
        (full (record_length f.slot) (length f.blocks + 1) - full (record_length f.slot) (length f.blocks))
        (HasBlockMore (D.history.image disk.old) (D.history.image disk.new) l n f parts.old parts.new) result }
    ensures reads { D.history.reads disk.new ≤ D.history.reads disk.old }
    ensures failures { TellsFailure D.history disk.old disk.new result }
{
    let count = parts.blocks.len();
    let old = parts.last_place();
    let mut block = [0; 256];
    let fresh = lay_out(parts, &mut block);
    prepare(disk, parts, fresh, &block, count % POINTERS == 0)?;
    disk.write(old, &parts.last)?;
    disk.write(parts.sector, &parts.directory)?;
    parts.last = block;
    Ok(())
}
