//! STOCK made long enough for the record of a new card.
ghost use Rattle.std.specs.Prelude.{◌≤◌};
ghost use Rattle.host_session.specs.shop.Files.{Files, HasFiles};
ghost use Rattle.host_session.specs.shop.Growing.{HasGrown, HasGrownTo};
ghost use Rattle.host_session.specs.shop.Puts.{Puts};
ghost use Rattle.host_session.specs.shop.Selecting.{IsReady};
ghost use Rattle.rel_records.specs.growth.Growth.{growth_writes};

use crate::shop::shop_drive::{ShopDrive, ShopFile};
use d64_image::Sectors;
use drive_channels::Dead;

/// Grows STOCK so that it has the record of an item up to the top. If it doesn't reach that far yet, empty records are
/// added after its last one. No card, and nothing else on the disk, changes.
pub(crate) fn grow_stock<D: Sectors>(drive: &mut ShopDrive<D>, item: u16) -> Result<(), Dead>
    requires ready { IsReady D.history drive.old }
    requires fits { (f : Files) × HasFiles (D.history.image drive.old.disk) f × (1 ≤ item) × (item ≤ f.top) }
    // every image held, and the writes: none if the record is there
    ensures { Puts D.history drive.old drive.new result (HasFiles (D.history.image drive.old.disk))
        (λ f h. growth_writes h.stock_file item) HasGrown (λ f. HasGrownTo f item) }
{
    drive.select(ShopFile::Stock, item)?;
    drive.write(b"")
}
