//! An open intent completed: its cards whole, and then its answer.
ghost use Rattle.std.specs.Prelude.{◌≡◌, ◌≤◌, ◌+◌, length};
ghost use Rattle.host_session.specs.session.Handling.{card_writes};
ghost use Rattle.host_session.specs.shop.Completing.{HasIntent, HasResults, IsCompleted, answered_card};
ghost use Rattle.host_session.specs.shop.Files.{Files, HasFiles};
ghost use Rattle.host_session.specs.shop.Putting.{HasCard, IsPuttingCard};
ghost use Rattle.host_session.specs.shop.Puts.{Puts};
ghost use Rattle.host_session.specs.shop.Selecting.{IsReady};
ghost use Rattle.host_session.specs.shop.Shop.{IsShop, results_of, shop_of};
ghost use Rattle.rel_records.specs.Written.{touched};
ghost use Rattle.request_cards.specs.CardTexts.{Card, IsCard, IsStock, card_text, stock_text};

use crate::shop::intents::new_quantities;
use crate::shop::records::{write_answer, write_card};
use crate::shop::shop_drive::ShopDrive;
use d64_image::Sectors;
use drive_channels::Dead;
use request_cards::{REQUEST_CARD_LENGTH, RequestCard, StockCard};

/// The card of an intent once it is answered, in version 2.
pub(crate) fn answered(card: &RequestCard) -> RequestCard
    requires fits { IsCard card.now }
    ensures { result ≡ answered_card card.now }
{
    if card.version() == 1 {
        card.to_v2().answered()
    } else {
        card.answered()
    }
}

/// Makes the text of a card of version 2 that of the same card with its intent answered.
pub(crate) fn mark_answered(text: &mut [u8; REQUEST_CARD_LENGTH])
    ensures { (c : Card) → c.version ≡ 2 → text.old ≡ card_text c → text.new ≡ card_text (answered_card c) }
{
    text[1] = b'A';
}

/// Writes the quantity on hand of an item whose record is there.
// In line, as all on the way to a device's write is: a return right after a system call is slow.
#[inline(always)]
fn write_quantity<D: Sectors>(
    drive: &mut ShopDrive<D>,
    item: u16,
    quantity: u32,
) -> Result<(), Dead>
    requires ready { IsReady D.history drive.old }
    requires there { (f : Files) × HasFiles (D.history.image drive.old.disk) f × (item ≤ length f.stock) }
    requires fits { IsStock (record { item = item; quantity = quantity }) }
    ensures { Puts D.history drive.old drive.new result (HasFiles (D.history.image drive.old.disk))
        (λ f h. touched 18 item 1)
        (λ f. IsPuttingCard f item (stock_text (record { item = item; quantity = quantity })))
        (λ f. HasCard f item (stock_text (record { item = item; quantity = quantity }))) }
{
    let card = StockCard::new(item, quantity).unwrap();
    write_card(drive, item, &card.print())
}

/// Writes the cards of an open intent's results, whole, whatever their records hold.
fn write_results<D: Sectors>(
    drive: &mut ShopDrive<D>,
    till: u8,
    card: &RequestCard,
) -> Result<(), Dead>
    requires ready { IsReady D.history drive.old }
    requires intent { (f : Files) × HasFiles (D.history.image drive.old.disk) f × HasIntent f till card.now }
    // every image held is the same shop's
    ensures { Puts D.history drive.old drive.new result
        (λ f. HasFiles (D.history.image drive.old.disk) f × HasIntent f till card.now)
        (λ f p. card_writes (results_of card.now.newest)) (λ f i. IsShop i (shop_of f)) (λ f. HasResults f card.now) }
{
    let new = new_quantities(till, card);
    let Some((item, quantity)) = new.first else {
        // a request that wasn't done has no open intent
        return Ok(());
    };
    let Some((to, to_quantity)) = new.second else {
        return write_quantity(drive, item, quantity);
    };
    write_quantity(drive, item, quantity)?;
    write_quantity(drive, to, to_quantity)
}

/// Completes an open intent: writes the cards of its results, and then its answer, which has this text.
// In line, as `write_quantity` is.
#[inline(always)]
pub(crate) fn complete_with<D: Sectors>(
    drive: &mut ShopDrive<D>,
    till: u8,
    card: &RequestCard,
    text: &[u8; REQUEST_CARD_LENGTH],
) -> Result<(), Dead>
    requires ready { IsReady D.history drive.old }
    requires intent { (f : Files) × HasFiles (D.history.image drive.old.disk) f × HasIntent f till card.now }
    requires text { text.now ≡ card_text (answered_card card.now) }
    // every image held is the same shop's
    ensures { Puts D.history drive.old drive.new result
        (λ f. HasFiles (D.history.image drive.old.disk) f × HasIntent f till card.now)
        (λ f p. card_writes (results_of card.now.newest) + 1) (λ f i. IsShop i (shop_of f))
        (λ f. IsCompleted f till card.now) }
{
    write_results(drive, till, card)?;
    write_answer(drive, till, text)
}

/// Completes an open intent of either version.
pub(crate) fn complete<D: Sectors>(
    drive: &mut ShopDrive<D>,
    till: u8,
    card: &RequestCard,
) -> Result<(), Dead>
    requires ready { IsReady D.history drive.old }
    requires intent { (f : Files) × HasFiles (D.history.image drive.old.disk) f × HasIntent f till card.now }
    // every image held is the same shop's
    ensures { Puts D.history drive.old drive.new result
        (λ f. HasFiles (D.history.image drive.old.disk) f × HasIntent f till card.now)
        (λ f p. card_writes (results_of card.now.newest) + 1) (λ f i. IsShop i (shop_of f))
        (λ f. IsCompleted f till card.now) }
{
    complete_with(drive, till, card, &answered(card).print())
}
