//! Cards of version 1, written again as version 2.
ghost use Rattle.std.specs.Prelude.{◌≡◌, ◌≤◌, ◌-◌, false};
ghost use Rattle.host_session.specs.session.Settling.{HasClosedTable, HasNewTable};
ghost use Rattle.host_session.specs.shop.Puts.{Puts};
ghost use Rattle.host_session.specs.shop.Selecting.{IsReady};
ghost use Rattle.host_session.specs.shop.Shop.{IsShop, Shop, any_old, is_old};
ghost use Rattle.request_cards.specs.Tables.{nth};

use crate::shop::records::write_answer;
use crate::shop::shop_drive::ShopDrive;
use d64_image::Sectors;
use drive_channels::Dead;
use request_cards::RequestCard;

/// Writes the card of a till again, if it is of version 1.
fn migrate_till<D: Sectors>(
    drive: &mut ShopDrive<D>,
    till: u8,
    requests: &mut [Option<RequestCard>; 64],
) -> Result<(), Dead>
    requires ready { IsReady D.history drive.old }
    requires low { 1 ≤ till }
    requires high { till ≤ 64 }
    requires table { (s : Shop) × HasNewTable (D.history.image drive.old.disk) s requests.old (till - 1) }
    ensures puts { Puts D.history drive.old drive.new result
        (λ s. HasNewTable (D.history.image drive.old.disk) s requests.old (till - 1))
        (λ s h. 1) (λ s c. IsShop c s) (λ s i. HasNewTable i s requests.new till) }
    ensures quiet { is_old (nth requests.old till) ≡ false → (drive.new ≡ drive.old) × (requests.new ≡ requests.old) }
{
    let place = usize::from(till) - 1;
    let Some(card) = requests[place] else {
        return Ok(());
    };
    if card.version() != 1 {
        return Ok(());
    }
    let new = card.to_v2();
    write_answer(drive, till, &new.print())?;
    requests[place] = Some(new);
    Ok(())
}

/// Writes each card of version 1 again, of a till up to 64.
pub(crate) fn migrate<D: Sectors>(
    drive: &mut ShopDrive<D>,
    requests: &mut [Option<RequestCard>; 64],
) -> Result<(), Dead>
    requires ready { IsReady D.history drive.old }
    requires table { (s : Shop) × HasClosedTable (D.history.image drive.old.disk) s requests.old }
    ensures puts { Puts D.history drive.old drive.new result
        (λ s. HasClosedTable (D.history.image drive.old.disk) s requests.old)
        (λ s h. 64) (λ s c. IsShop c s) (λ s i. HasNewTable i s requests.new 64) }
    ensures quiet { any_old requests.old ≡ false → (drive.new ≡ drive.old) × (requests.new ≡ requests.old) }
{
    for place in 0..64u8 {
        migrate_till(drive, place + 1, requests)?;
    }
    Ok(())
}
