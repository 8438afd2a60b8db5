//! The chain of a new file: its sectors, each with the link to the next.
ghost use Rattle.std.specs.Prelude.{◌≡◌, ◌≤◌, ◌<◌, ◌*◌, ◌+◌, ◌∷◌, [], length, slice_get, take};
ghost use Rattle.disk_layout.specs.Side.{link_bytes, padded};
ghost use Rattle.disk_layout.specs.Chain.{EachOnce};
ghost use Rattle.file_changes.specs.PutWrites.{Fills, PutsBlock, SameBeside};
ghost use Rattle.file_changes.specs.Puts.{HoldsChain, chain_sector};
ghost use Rattle.rel_records.specs.Calls.{WritesAtMost};

use d64_image::{DeviceFault, Place, Sectors};
use disk_layout::DATA;

/// Bytes 0-1 of a sector of a chain that holds `used` bytes.
fn link(next: Option<Place>, used: u8) -> (u8, u8)
    requires { used ≤ 254 }
    ensures { result.0 ∷ result.1 ∷ [] ≡ link_bytes next (used + 1) }
{
    match next {
        Some(place) => (place.track(), place.sector()),
        None => (0, used + 1),
    }
}

/// The first 254 of these bytes, or all of them and then zeros.
fn padded_data(content: &[u8]) -> [u8; 254]
    ensures { result ≡ padded 254 (take 254 content.now) }
{
    let used = content.len().min(DATA);
    let mut bytes = [0; DATA];
    bytes[..used].copy_from_slice(&content[..used]);
    bytes
}

/// A sector of a chain: the first 254 of these bytes, and the link to the next sector or, without one, 0 and the index of
/// the last used byte.
fn chain_bytes(next: Option<Place>, content: &[u8]) -> [u8; 256]
    ensures { result ≡ chain_sector next (take 254 content.now) }
{
    let (track, sector) = link(next, content.len().min(DATA) as u8);
    let mut bytes = [0; 256];
    bytes[0] = track;
    bytes[1] = sector;
    bytes[2..].copy_from_slice(&padded_data(content));
    bytes
}

/// The sector after the one with this number, if it isn't the last.
fn next_of(places: &[Place], block: usize) -> Option<Place>
    requires { block < length places.now }
    ensures { result ≡ slice_get places.now (block + 1) }
{
    match places.get(block + 1) {
        Some(next) => Some(*next),
        None => None,
    }
}

/// Writes the sector with this number of the chain of these sectors, which holds these data.
fn write_block<D: Sectors>(
    disk: &mut D,
    places: &[Place],
    block: usize,
    content: &[u8],
) -> Result<(), DeviceFault>
    requires block { block < length places.now }
    requires content { 254 * block ≤ length content.now }
    ensures { PutsBlock D.history disk.old disk.new places.now block content.now result }
{
    let bytes = chain_bytes(next_of(places, block), &content[DATA * block..]);
    disk.write(places[block], &bytes)
}

/// Writes these data into the chain of these sectors, the last one first: so each links to one that is written.
pub(crate) fn write_blocks<D: Sectors>(
    disk: &mut D,
    places: &[Place],
    content: &[u8],
) -> Result<(), DeviceFault>
    requires once { EachOnce places.now }
    requires count { Fills (length content.now) (length places.now) }
    ensures { WritesAtMost D.history disk.old disk.new (length places.now) 0
        (SameBeside (D.history.image disk.old) places.now)
        (λ c. HoldsChain c places.now content.now × SameBeside (D.history.image disk.old) places.now c) result }
{
    let count = places.len();
    for written in 0..count {
        write_block(disk, places, count - 1 - written, content)?;
    }
    Ok(())
}
