//! The blocks of a commit, made of the sectors that were touched.
ghost use Rattle.std.specs.Prelude.{◌≡◌, ◌≤◌, ◌<◌, ◌+◌, [], IsTrue, ℕ, false, length, slice_index, slice_index_or, slice_set};
ghost use Rattle.d64_image.specs.Images.{Image};
ghost use Rattle.image_log.specs.Blocks.{IsCommit, brought, is_last, is_whole, pair_at, part, replayed, with_sectors, written};

use crate::blocks::{seal, set_pair};
use d64_image::SECTORS;

/// How many sectors a block has room for.
const PER: usize = 15;

/// Puts a sector's bytes in their place.
fn set_bytes(block: &mut [u8; 4096], at: usize, bytes: &[u8; 256])
    requires { at + 256 ≤ 4096 }
    ensures bytes { part block.new at 256 ≡ bytes.now }
    ensures before { (i : ℕ) → i < at → slice_index block.new i ≡ slice_index block.old i }
{
    block[at..at + 256].copy_from_slice(bytes);
}

/// Puts sector number k of a block in its place: its index, from 0 to 682, and its bytes.
fn set_sector(block: &mut [u8; 4096], k: usize, index: usize, bytes: &[u8; 256])
    requires room { k < 15 }
    requires small { index < 683 }
    ensures more { (image : Image) → with_sectors block.new (k + 1) image
        ≡ slice_set (with_sectors block.old k image) index bytes.now }
{
    set_pair(block, 16 + 2 * k, index);
    set_bytes(block, 64 + 256 * k, bytes);
}

/// Fills a block with the touched sectors from that index on, 15 at most. Returns how many it took, and the index of
/// the first one left, 683 if none is.
fn set_sectors(
    block: &mut [u8; 4096],
    now: &[[u8; 256]],
    touched: &[bool; SECTORS],
    from: usize,
) -> (usize, usize)
    requires sized { length now.now ≡ 683 }
    requires within { from ≤ 683 }
    ensures few { result.0 ≤ 15 }
    ensures upto { result.1 ≤ 683 }
    ensures full { result.1 < 683 → from + 15 ≤ result.1 }
    ensures brought { (image : Image) → with_sectors block.new result.0 (brought touched.now now.now from image)
        ≡ brought touched.now now.now result.1 image }
{
    let mut n = 0;
    for i in from..SECTORS {
        if touched[i] {
            if n == PER {
                return (n, i);
            }
            set_sector(block, n, i, &now[i]);
            n += 1;
        }
    }
    (n, SECTORS)
}

/// Puts in the block's header whether it is the last of its commit, how many sectors it has, and its place.
fn set_header(block: &mut [u8; 4096], last: bool, n: usize, place: usize)
    requires few { n ≤ 15 }
    requires place { place < 65536 }
    ensures last { is_last block.new ≡ last }
    ensures sectors { slice_index block.new 11 ≡ n }
    ensures place { pair_at block.new 12 ≡ place }
    ensures behind { (i : ℕ) → 16 ≤ i → slice_index block.new i ≡ slice_index block.old i }
{
    block[10] = if last { 2 } else { 1 };
    block[11] = n as u8;
    set_pair(block, 12, place);
}

/// Makes the block that stands at this place of the touched sectors from that index on. Returns the index of the first
/// one left, 683 if none is: then the block is the commit's last.
fn make_block(
    block: &mut [u8; 4096],
    now: &[[u8; 256]],
    touched: &[bool; SECTORS],
    from: usize,
    place: usize,
) -> usize
    requires sized { length now.now ≡ 683 }
    requires within { from ≤ 683 }
    requires place { place < 65536 }
    ensures upto { result ≤ 683 }
    ensures full { result < 683 → from + 15 ≤ result }
    ensures whole { IsTrue (is_whole place block.new) }
    ensures wide { length block.new ≡ 4096 }
    ensures last { result ≡ 683 → IsTrue (is_last block.new) }
    ensures more { result < 683 → is_last block.new ≡ false }
    ensures brought { (image : Image) → written block.new (brought touched.now now.now from image)
        ≡ brought touched.now now.now result image }
{
    *block = [0; 4096];
    let (n, upto) = set_sectors(block, now, touched, from);
    set_header(block, upto == SECTORS, n, place);
    seal(block);
    upto
}

/// Makes the blocks of a commit that stands from this place on, of the touched sectors. Returns how many there are, 46 at most.
/// The blocks of the room after these may have any bytes then. `now` has the 683 sectors as they are.
pub fn fill(
    room: &mut [[u8; 4096]],
    now: &[[u8; 256]],
    touched: &[bool; SECTORS],
    place: usize,
) -> usize
    requires room { length room.old ≡ 46 }
    requires sized { length now.now ≡ 683 }
    requires place { place ≤ 1024 }
    ensures few { result ≤ 46 }
    ensures room { length room.new ≡ 46 }
    ensures wide { (q : ℕ) → q < 46 → length (slice_index_or room.new q []) ≡ 4096 }
    ensures commit { IsCommit (λ q. slice_index_or room.new q []) place result }
    ensures brought { (image : Image) → replayed (λ q. slice_index_or room.new q []) image result
        ≡ brought touched.now now.now 683 image }
{
    let mut from = 0;
    for m in 0..46usize {
        from = make_block(&mut room[m], now, touched, from, place + m);
        if from == SECTORS {
            return m + 1;
        }
    }
    46
}
