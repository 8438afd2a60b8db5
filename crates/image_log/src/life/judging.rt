//! Whether a log is that of an image.
ghost use Rattle.std.specs.Prelude.{◌≡◌, ◌↔◌, ◌<◌, ◌⊎◌, ℕ, IfErr, IsTrue, List, OnErr, OnOk, Some, length, slice_index, true};
ghost use Rattle.d64_image.specs.Images.{Image};
ghost use Rattle.image_log.specs.Readers.{IsReadAs};
ghost use Rattle.image_log.specs.Recovered.{is_marked};
ghost use Rattle.image_log.specs.life.Faults.{IsMisfit};
ghost use Rattle.image_log.specs.life.Mixes.{IsMixOf};
ghost use Rattle.image_log.specs.life.Shops.{LogGives};

use crate::life::landing::LogFault;
use crate::log_reader::LogReader;
use crate::replaying::read_images;
use d64_image::SECTORS;
use thiserror::Error;

/// Why a log beside an image gives none.
#[derive(Clone, Copy, Debug, PartialEq, Eq, Error)]
pub enum Misfit {
    /// It isn't as long as a log, or its first commit isn't whole.
    #[error("it has no whole base")]
    NoBase,
    /// More stands after its whole commits than one torn commit can leave.
    #[error("it is damaged before its end")]
    Damaged,
    /// The image that it stands beside isn't its base; and the log isn't marked, or the image has a byte that is neither
    /// the base's nor that of the image that the log stands for.
    #[error("it is of another image")]
    Foreign,
}

/// Whether two images have the same sectors.
pub(crate) fn is_same(one: &[[u8; 256]], other: &[[u8; 256]]) -> bool
    ensures { IsTrue result ↔ (one.now ≡ other.now) }
{
    one == other
}

/// Whether each byte of a sector is as one of two others has it.
fn is_sector_of(sector: &[u8; 256], base: &[u8; 256], shop: &[u8; 256]) -> bool
    ensures { IsTrue result ↔ ((j : ℕ) → j < 256 → (slice_index sector.now j ≡ slice_index base.now j)
        ⊎ (slice_index sector.now j ≡ slice_index shop.now j)) }
{
    for j in 0..256usize {
        if sector[j] != base[j] && sector[j] != shop[j] {
            return false;
        }
    }
    true
}

/// Whether each byte of an image is as one of two others has it.
fn is_mix_of(image: &[[u8; 256]], base: &[[u8; 256]], shop: &[[u8; 256]]) -> bool
    requires image { length image.now ≡ 683 }
    requires base { length base.now ≡ 683 }
    requires shop { length shop.now ≡ 683 }
    ensures { IsTrue result ↔ IsMixOf base.now shop.now image.now }
{
    for i in 0..SECTORS {
        if !is_sector_of(&image[i], &base[i], &shop[i]) {
            return false;
        }
    }
    true
}

/// An error if a log gives no image beside this one, which neither is its base, nor a mix of that and the image that the
/// log stands for, if it is marked.
pub(crate) fn see_own(
    marked: bool,
    image: &[[u8; 256]],
    base: &[[u8; 256]],
    shop: &[[u8; 256]],
) -> Result<(), Misfit>
    requires image { length image.now ≡ 683 }
    requires base { length base.now ≡ 683 }
    requires shop { length shop.now ≡ 683 }
    ensures ok { OnOk result ((f : List ℕ) → marked ≡ is_marked f → IsReadAs f base.now shop.now
        → LogGives f image.now shop.now) }
    ensures err { OnErr result ((f : List ℕ) → marked ≡ is_marked f → IsReadAs f base.now shop.now
        → (given : Image) → LogGives f image.now given → ⊥) }
{
    if is_same(image, base) || (marked && is_mix_of(image, base, shop)) {
        return Ok(());
    }
    Err(Misfit::Foreign)
}

/// The image that a log gives which stands beside this IMAGE: that of its whole commits. A log with no whole base gives
/// none, and so does one that is damaged before its end, and a log of another image. `base` is room for the log's base. At
/// an error neither is a disk's image.
pub fn image_of_log<L: LogReader>(
    log: &mut L,
    image: &[[u8; 256]],
    base: &mut [[u8; 256]],
    shop: &mut [[u8; 256]],
) -> Result<(), LogFault>
    requires image { length image.now ≡ 683 }
    requires base { length base.old ≡ 683 }
    requires shop { length shop.old ≡ 683 }
    ensures base { length base.new ≡ 683 }
    ensures shop { length shop.new ≡ 683 }
    ensures ok { OnOk result ((f : List ℕ) → L.bytes log.old ≡ Some f → LogGives f image.now shop.new) }
    ensures refused { IfErr result (λ e. IsMisfit e → (f : List ℕ) → L.bytes log.old ≡ Some f
        → (given : Image) → LogGives f image.now given → ⊥) }
    // an error is returned only if it gives none, or after a failure of the log
    ensures cause { IfErr result (λ e. IsMisfit e ⊎ (L.has_failed log.new ≡ true)) }
{
    let marked = log.is_marked()?;
    read_images(log, base, shop)?;
    see_own(marked, image, base, shop)?;
    Ok(())
}
