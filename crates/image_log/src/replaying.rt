//! The images that the blocks of a log stand for.
ghost use Rattle.std.specs.Prelude.{◌≡◌, ◌≤◌, ◌⊎◌, IfErr, List, OnErr, OnOk, Some, length, true, ℕ};
ghost use Rattle.d64_image.specs.Images.{Image};
ghost use Rattle.image_log.specs.Blocks.{block_at, replayed, written};
ghost use Rattle.image_log.specs.Readers.{IsReadAs};
ghost use Rattle.image_log.specs.Recovered.{blank};
ghost use Rattle.image_log.specs.life.Faults.{IsMisfit};

use crate::life::judging::Misfit;
use crate::life::landing::LogFault;
use crate::log_blocks::read_blocks;
use crate::log_reader::LogReader;
use std::io;

/// How many sectors a block has room for.
const PER: usize = 15;

/// Puts the sectors of a block into the image.
fn copy_block(block: &[u8; 4096], image: &mut [[u8; 256]])
    ensures { image.new ≡ written block.now image.old }
{
    let count = (block[11] as usize).min(PER);
    for k in 0..count {
        let index = block[16 + 2 * k] as usize + 256 * block[17 + 2 * k] as usize;
        let mut sector = [0; 256];
        sector.copy_from_slice(&block[64 + 256 * k..320 + 256 * k]);
        if index < image.len() {
            image[index] = sector;
        }
    }
}

/// Puts zeros into every sector.
fn wipe(image: &mut [[u8; 256]])
    requires { length image.old ≡ 683 }
    ensures { image.new ≡ blank }
{
    for i in 0..image.len() {
        image[i] = [0; 256];
    }
}

/// Puts the sectors of the log's first n blocks into an image of zeros.
pub(crate) fn replay<L: LogReader>(log: &mut L, n: usize, image: &mut [[u8; 256]]) -> io::Result<()>
    requires within { n ≤ 1024 }
    requires sized { length image.old ≡ 683 }
    ensures sized { length image.new ≡ 683 }
    ensures ok { OnOk result ((f : List ℕ) → L.bytes log.old ≡ Some f → 4194304 ≤ length f
        → image.new ≡ replayed (block_at f) blank n) }
    ensures same { L.bytes log.new ≡ L.bytes log.old }
    ensures cause { OnErr result (L.has_failed log.new ≡ true) }
{
    wipe(image);
    for q in 0..n {
        let block = log.read_block(q)?;
        copy_block(&block, image);
    }
    Ok(())
}

/// The image that a log began with, and the one that its whole commits stand for. It takes a block of memory. An error, and
/// no disk's images, if it has no whole base, or is damaged before its end, or fails.
pub fn read_images<L: LogReader>(
    log: &mut L,
    base: &mut [[u8; 256]],
    shop: &mut [[u8; 256]],
) -> Result<(), LogFault>
    requires base { length base.old ≡ 683 }
    requires shop { length shop.old ≡ 683 }
    ensures base { length base.new ≡ 683 }
    ensures shop { length shop.new ≡ 683 }
    ensures ok { OnOk result ((f : List ℕ) → L.bytes log.old ≡ Some f → IsReadAs f base.new shop.new) }
    ensures refused { IfErr result (λ e. IsMisfit e → (f : List ℕ) → L.bytes log.old ≡ Some f
        → (base shop : Image) → IsReadAs f base shop → ⊥) }
    ensures same { L.bytes log.new ≡ L.bytes log.old }
    ensures cause { IfErr result (λ e. IsMisfit e ⊎ (L.has_failed log.new ≡ true)) }
{
    if !log.is_sized()? {
        return Err(Misfit::NoBase.into());
    }
    let blocks = read_blocks(log)?;
    let whole = blocks.count_whole();
    let first = blocks.count_first(whole);
    if first == 0 {
        return Err(Misfit::NoBase.into());
    }
    let end = blocks.count_committed(whole);
    if !blocks.ends_torn(end) {
        return Err(Misfit::Damaged.into());
    }
    replay(log, first, base)?;
    replay(log, end, shop)?;
    Ok(())
}
