//! A shop's disk brought to rest: repaired, without an open intent and without a card of version 1.
ghost use Rattle.std.specs.Prelude.{◌≡◌, IfNone, IfOk, false};
ghost use Rattle.host_session.specs.session.Mends.{Mends};
ghost use Rattle.host_session.specs.session.Settling.{HasNewTable, HasTable};
ghost use Rattle.host_session.specs.session.Standing.{IsStanding};
ghost use Rattle.host_session.specs.shop.Files.{Files, HasFiles};
ghost use Rattle.host_session.specs.shop.LoadedShop.{IsIntentOf, IsJudged};
ghost use Rattle.host_session.specs.shop.Puts.{Puts};
ghost use Rattle.host_session.specs.shop.Selecting.{IsReady};
ghost use Rattle.host_session.specs.shop.Shop.{IsSettled, IsShop, Shop, any_old};

use crate::faults::OpenFault;
use crate::session::migration::migrate;
use crate::session::recovery::recover;
use crate::session::starting::start;
use crate::shop::intents::Intent;
use crate::shop::judgment::LoadedShop;
use crate::shop::shop_drive::ShopDrive;
use d64_image::Sectors;
use drive_channels::Dead;
use request_cards::RequestCard;

/// Completes the open intent, and then writes each card of version 1 again.
fn bring_to_rest<D: Sectors>(
    drive: &mut ShopDrive<D>,
    intent: &Option<Intent>,
    requests: &mut [Option<RequestCard>; 64],
) -> Result<(), Dead>
    requires ready { IsReady D.history drive.old }
    requires table { (s : Shop) × HasTable (D.history.image drive.old.disk) s requests.old
        × IsIntentOf requests.old intent.now }
    ensures puts { Puts D.history drive.old drive.new result
        (λ s. HasTable (D.history.image drive.old.disk) s requests.old × IsIntentOf requests.old intent.now)
        (λ s p. 69) (λ s c. IsShop c s) (λ s i. HasNewTable i s requests.new 64) }
    ensures quiet { IfNone intent.now (any_old requests.old ≡ false → drive.new ≡ drive.old) }
{
    recover(drive, intent, requests)?;
    migrate(drive, requests)
}

/// Repairs a shop's disk that was checked, and brings it to rest. `found` then is as the disk has it at rest.
// Out of line, as `load_shop` is.
#[inline(never)]
pub(crate) fn settle<D: Sectors>(
    disk: D,
    found: &mut LoadedShop,
) -> Result<ShopDrive<D>, (OpenFault, D)>
    requires judged { (f : Files) × HasFiles (D.history.image disk) f × IsJudged f found.old }
    ensures mends { Mends D.history disk result (IsShop (D.history.image disk)) 952 (λ i. (s : Shop) × IsSettled i s)
        (λ s i. IsSettled i s) }
    ensures standing { IfOk result (λ x. IsStanding (D.history.image x.disk) false found.new.ledger) }
{
    let mut drive = start(disk)?;
    match bring_to_rest(&mut drive, &found.intent, &mut found.ledger.requests) {
        Ok(()) => Ok(drive),
        Err(Dead) => Err((OpenFault::Device, drive.into_disk())),
    }
}
