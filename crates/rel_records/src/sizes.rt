//! How many records, blocks and side sectors go with one another.
ghost use Rattle.std.specs.Prelude.{◌≡◌, ◌≤◌, ◌<◌, ◌+◌, ◌-◌, ◌*◌, ◌⊎◌, MatchOption};
ghost use Rattle.disk_layout.specs.Layout.{sides_for};
ghost use Rattle.rel_records.specs.File.{IsLength};
ghost use Rattle.rel_records.specs.growth.Growth as growth;

use disk_layout::{DATA, MOST_BLOCKS, POINTERS};

/// The bytes of data of a block, as bytes of a file are counted.
pub(crate) const BLOCK: u32 = DATA as u32;

/// The whole records of `length` bytes in `blocks` full blocks.
pub(crate) fn full_records(blocks: u16, length: u8) -> u32
    requires { 1 ≤ length }
    ensures { result ≡ growth.full length blocks }
{
    BLOCK * blocks as u32 / length as u32
}

/// The index of the last byte of the last whole record in the last of `blocks` full blocks.
pub(crate) fn last_index(blocks: u16, length: u8) -> u8
    requires blocks { 1 ≤ blocks }
    requires length { IsLength length }
    ensures { result + 254 * (blocks - 1) ≡ growth.full length blocks * length + 1 }
{
    (full_records(blocks, length) * length as u32 + 1 - BLOCK * (blocks as u32 - 1)) as u8
}

/// The side sectors of a file of `blocks` data blocks.
pub(crate) fn side_count(blocks: u16) -> u16
    requires { blocks ≤ 720 }
    ensures { result ≡ sides_for blocks }
{
    (blocks + POINTERS as u16 - 1) / POINTERS as u16
}

/// The number of data blocks that a file with records of this length, in bytes, needs for its record `number`. None if
/// `number` is past 65535 or would need more than 720 blocks: then no file can have it.
pub fn blocks_for(number: u32, length: u8) -> Option<u16>
    ensures { MatchOption result ((65535 < number) ⊎ (720 < growth.blocks_for length number))
        (λ n. (n ≡ growth.blocks_for length number) × (n ≤ 720) × (number ≤ 65535)) }
{
    if number > 65535 {
        return None;
    }
    let needed = (number * length as u32 + BLOCK - 1) / BLOCK;
    if needed > MOST_BLOCKS as u32 {
        return None;
    }
    Some(needed as u16)
}
