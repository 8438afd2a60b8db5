//! A file's next data block, made in memory before anything is written.
ghost use Rattle.std.specs.Prelude.{◌≡◌, ◌≤◌, ◌<◌, List, length};
ghost use Rattle.d64_image.specs.Images.{IsSector};
ghost use Rattle.d64_image.specs.declared.place.Place.{Place};
ghost use Rattle.disk_layout.specs.Layout.{sides_for};
ghost use Rattle.disk_layout.specs.Map.{IsMapOf};
ghost use Rattle.disk_layout.specs.View.{blocks_free};
ghost use Rattle.rel_records.specs.File.{IsLength};
ghost use Rattle.rel_records.specs.growth.Next.{IsFresh, IsLaidOut, IsLinked, TakesPlaces};
ghost use Rattle.rel_records.specs.growth.Steps.{TakesNext, taken_next};

use crate::growth::step_parts::Growing;
use crate::sizes::{BLOCK, full_records, last_index};
use d64_image::Place;
use disk_layout::{Bam, POINTERS, fill, set_count};

/// Takes the next free sector for data: the one that `Bam::pick` names. At least one is free off track 18.
pub(crate) fn take_next(map: &mut Bam) -> Place
    requires some { 0 < blocks_free map.old.bytes }
    requires map { (owned : List Place) × IsMapOf map.old.bytes owned }
    ensures { TakesNext map.old.bytes map.new.bytes result }
{
    let place = map.pick().unwrap();
    map.take(place);
    place
}

/// Takes the sectors of the next block, and appends them to the lists: one for the block, and one for the next side
/// sector if the side sectors are full. Returns the block's place.
fn take_places(parts: &mut Growing) -> Place
    requires room { taken_next (length parts.old.blocks.items) ≤ blocks_free parts.old.map.bytes }
    requires map { (owned : List Place) × IsMapOf parts.old.map.bytes owned }
    requires few { length parts.old.blocks.items < 720 }
    requires sides { length parts.old.sides.items ≡ sides_for (length parts.old.blocks.items) }
    ensures places { TakesPlaces parts.old parts.new result }
    ensures last { parts.new.last ≡ parts.old.last }
    ensures directory { parts.new.directory ≡ parts.old.directory }
{
    let fresh = take_next(&mut parts.map);
    let full = parts.blocks.len() % POINTERS == 0;
    parts.blocks.push(fresh);
    if !full {
        return fresh;
    }
    let side = take_next(&mut parts.map);
    parts.sides.push(side);
    fresh
}

/// Makes these bytes those of the last block of a file that has `behind` blocks before it and all whole records that
/// fit.
fn make_fresh(bytes: &mut [u8; 256], behind: u16, length: u8)
    requires few { behind < 720 }
    requires length { IsLength length }
    ensures { IsFresh behind length bytes.new }
{
    bytes[0] = 0;
    bytes[1] = last_index(behind + 1, length);
    let at = BLOCK * behind as u32;
    fill(bytes, at, at, length, full_records(behind + 1, length));
}

/// The bytes of the last block of a file that has `behind` blocks before it and all whole records that fit.
pub(crate) fn fresh_block(behind: u16, length: u8) -> [u8; 256]
    requires few { behind < 720 }
    requires length { IsLength length }
    ensures { IsFresh behind length result }
{
    let mut bytes = [0; 256];
    make_fresh(&mut bytes, behind, length);
    bytes
}

/// Links the last of `blocks` data blocks to a fresh one after it, and begins in it the record that crosses into that.
fn link_block(bytes: &mut [u8; 256], fresh: Place, blocks: u16, length: u8)
    requires some { 1 ≤ blocks }
    requires few { blocks < 720 }
    requires length { IsLength length }
    ensures linked { IsLinked blocks length fresh bytes.old bytes.new }
    ensures sector { IsSector bytes.new }
{
    let from = full_records(blocks, length) * length as u32;
    let total = full_records(blocks + 1, length);
    fill(bytes, BLOCK * (blocks as u32 - 1), from, length, total);
    bytes[0] = fresh.track();
    bytes[1] = fresh.sector();
}

/// Makes the file's next block in memory. Takes its sectors, puts its bytes into `block`, and returns its place. The
/// old last block then links to it, and the bytes of the directory sector have the new block count.
pub(crate) fn lay_out(parts: &mut Growing, block: &mut [u8; 256]) -> Place
    requires room { taken_next (length parts.old.blocks.items) ≤ blocks_free parts.old.map.bytes }
    requires map { (owned : List Place) × IsMapOf parts.old.map.bytes owned }
    requires some { 1 ≤ length parts.old.blocks.items }
    requires few { length parts.old.blocks.items < 720 }
    requires sides { length parts.old.sides.items ≡ sides_for (length parts.old.blocks.items) }
    ensures laid_out { IsLaidOut parts.old parts.new result block.new }
    ensures sector { IsSector parts.new.last }
{
    let count = parts.blocks.len() as u16;
    let fresh = take_places(parts);
    link_block(&mut parts.last, fresh, count, parts.size);
    let owned = parts.blocks.len() + parts.sides.len();
    set_count(&mut parts.directory, parts.number, owned as u16);
    make_fresh(block, count, parts.size);
    fresh
}
