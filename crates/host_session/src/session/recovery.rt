//! The open intent that a power cut left, completed.
ghost use Rattle.std.specs.Prelude.{◌≡◌, IfNone};
ghost use Rattle.host_session.specs.session.Settling.{HasClosedTable, HasTable};
ghost use Rattle.host_session.specs.shop.LoadedShop.{IsIntentOf};
ghost use Rattle.host_session.specs.shop.Puts.{Puts};
ghost use Rattle.host_session.specs.shop.Selecting.{IsReady};
ghost use Rattle.host_session.specs.shop.Shop.{IsShop, Shop};

use crate::shop::completion::{answered, complete};
use crate::shop::intents::Intent;
use crate::shop::shop_drive::ShopDrive;
use d64_image::Sectors;
use drive_channels::Dead;
use request_cards::RequestCard;

/// Completes the open intent, if there is one, and answers it in the table of the tills' cards.
pub(crate) fn recover<D: Sectors>(
    drive: &mut ShopDrive<D>,
    intent: &Option<Intent>,
    requests: &mut [Option<RequestCard>; 64],
) -> Result<(), Dead>
    requires ready { IsReady D.history drive.old }
    requires table { (s : Shop) × HasTable (D.history.image drive.old.disk) s requests.old
        × IsIntentOf requests.old intent.now }
    // two cards in two parts each at most, and the answer
    ensures puts { Puts D.history drive.old drive.new result
        (λ s. HasTable (D.history.image drive.old.disk) s requests.old × IsIntentOf requests.old intent.now)
        (λ s p. 5) (λ s c. IsShop c s) (λ s i. HasClosedTable i s requests.new) }
    ensures quiet { IfNone intent.now ((drive.new ≡ drive.old) × (requests.new ≡ requests.old)) }
{
    let Some(open) = intent else {
        return Ok(());
    };
    complete(drive, open.till, &open.card)?;
    requests[usize::from(open.till) - 1] = Some(answered(&open.card));
    Ok(())
}
