//! Blocks of 4,096 bytes, each with its place, a digest, and a count of its zeros.
ghost use Rattle.std.specs.Prelude.{◌≡◌, ◌≤◌, ◌<◌, ◌+◌, ℕ, IsTrue, drop, length, slice_index, take, true};
ghost use Rattle.image_log.specs.Blocks.{counts, is_whole, matches, pair_at, part, zeros_in};
ghost use Rattle.sha2.specs.Sha256.{sha256};

use sha2::{Digest, Sha256};

/// How many bytes a block has.
pub const BLOCK: usize = 4096;

/// How many of these bytes are zero, from the third on.
fn count_zeros(block: &[u8; 4096]) -> usize
    ensures zeros { result ≡ zeros_in block.now 2 4094 }
    ensures few { result ≤ 4094 }
{
    let mut count = 0;
    for i in 0..BLOCK - 2 {
        if block[2 + i] == 0 {
            count += 1;
        }
    }
    count
}

/// The SHA-256 of the bytes after the block's count and digest.
fn digest(block: &[u8; 4096]) -> [u8; 32]
    ensures { result ≡ sha256 (drop 10 block.now) }
{
    Sha256::digest(&block[10..])
}

/// Whether the block has its own digest.
fn has_digest(block: &[u8; 4096]) -> bool
    ensures { result ≡ matches block.now }
{
    block[2..10] == digest(block)[..8]
}

/// Whether the block is whole, and stands at this place. The first two bytes say how many of the others are zero, bytes
/// 12 and 13 are the place, and the digest agrees.
pub(crate) fn is_whole_block(block: &[u8; 4096], place: usize) -> bool
    ensures { result ≡ is_whole place block.now }
{
    let said = block[0] as usize + 256 * block[1] as usize;
    let at = block[12] as usize + 256 * block[13] as usize;
    said == count_zeros(block) && at == place && has_digest(block)
}

/// Puts a number into two bytes, low byte first.
pub(crate) fn set_pair(block: &mut [u8; 4096], at: usize, number: usize)
    requires within { at + 2 ≤ 4096 }
    requires small { number < 65536 }
    ensures pair { pair_at block.new at ≡ number }
    ensures same { (i : ℕ) → i < at → slice_index block.new i ≡ slice_index block.old i }
    ensures behind { (i : ℕ) → at + 2 ≤ i → slice_index block.new i ≡ slice_index block.old i }
{
    block[at] = (number % 256) as u8;
    block[at + 1] = (number / 256) as u8;
}

/// Puts the first eight bytes of a digest in their place.
fn set_digest(block: &mut [u8; 4096], digest: &[u8; 32])
    ensures digest { part block.new 2 8 ≡ take 8 digest.now }
    ensures behind { drop 10 block.new ≡ drop 10 block.old }
{
    block[2..10].copy_from_slice(&digest[..8]);
}

/// Puts the digest and then the count of zeros into a block that has everything but these two.
pub(crate) fn seal(block: &mut [u8; 4096])
    ensures counts { counts block.new ≡ true }
    ensures matches { matches block.new ≡ true }
    ensures behind { drop 10 block.new ≡ drop 10 block.old }
{
    let digest = digest(block);
    set_digest(block, &digest);
    let zeros = count_zeros(block);
    set_pair(block, 0, zeros);
}
