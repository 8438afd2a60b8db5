//! A till's next request, kept on the disk.
ghost use Rattle.std.specs.Prelude.{◌≡◌, ◌+◌, IsSome, false, is_none, true};
ghost use Rattle.host_session.specs.session.Handling.{card_writes, kept_writes};
ghost use Rattle.host_session.specs.session.Keeping.{HasItems, IsAfterCounted, IsKeeping, KeepsAnswer, KeepsOnward};
ghost use Rattle.host_session.specs.shop.Files.{Files, HasFiles};
ghost use Rattle.host_session.specs.shop.Selecting.{IsReady};
ghost use Rattle.host_session.specs.shop.Shop.{results_of, shop_of};
ghost use Rattle.rel_records.specs.growth.Growth.{growth_writes};

use crate::shop::completion::{complete_with, mark_answered};
use crate::shop::growth::grow_stock;
use crate::shop::records::write_answer;
use crate::shop::shop_drive::ShopDrive;
use d64_image::Sectors;
use drive_channels::Dead;
use request_cards::{Request, RequestCard};

/// Writes the card of an answer that changes no quantity.
fn write_refusal<D: Sectors>(
    drive: &mut ShopDrive<D>,
    request: &Request,
    card: &RequestCard,
) -> Result<(), Dead>
    requires ready { IsReady D.history drive.old }
    requires keeping { (f : Files) × HasFiles (D.history.image drive.old.disk) f × IsKeeping f request.now card.now }
    requires refused { card.now.pending ≡ false }
    ensures puts { KeepsAnswer D.history drive.old drive.new result request.now card.now
        (λ f p. 1) }
    ensures counted { IsAfterCounted D.history drive.old drive.new request.now card.now }
    ensures onward { KeepsOnward D.history drive.old drive.new request.now card.now }
{
    write_answer(drive, request.till(), &card.print())
}

/// Writes a request's intent, and completes it. The records of its items are there.
// In line, as all on the way to a device's write is: a return right after a system call is slow.
#[inline(always)]
fn write_intent<D: Sectors>(
    drive: &mut ShopDrive<D>,
    request: &Request,
    card: &RequestCard,
) -> Result<(), Dead>
    requires ready { IsReady D.history drive.old }
    requires keeping { (f : Files) × HasFiles (D.history.image drive.old.disk) f × IsKeeping f request.now card.now
        × HasItems f card.now }
    requires intent { card.now.pending ≡ true }
    ensures puts { KeepsAnswer D.history drive.old drive.new result request.now card.now
        (λ f p. 2 + card_writes (results_of card.now.newest)) }
    ensures counted { IsAfterCounted D.history drive.old drive.new request.now card.now }
    ensures onward { KeepsOnward D.history drive.old drive.new request.now card.now }
{
    let till = request.till();
    let mut text = card.print();
    write_answer(drive, till, &text)?;
    // the answer differs from its intent by one byte
    mark_answered(&mut text);
    complete_with(drive, till, card, &text)
}

/// Grows STOCK for the item of a first set, then writes the intent and completes it.
fn write_first_set<D: Sectors>(
    drive: &mut ShopDrive<D>,
    request: &Request,
    card: &RequestCard,
) -> Result<(), Dead>
    requires ready { IsReady D.history drive.old }
    requires keeping { (f : Files) × HasFiles (D.history.image drive.old.disk) f × IsKeeping f request.now card.now
        × (is_none ((shop_of f).state.ledger.cards request.now.body.item) ≡ true) }
    requires intent { card.now.pending ≡ true }
    ensures puts { KeepsAnswer D.history drive.old drive.new result request.now card.now
        (λ f p. growth_writes p.0.stock_file request.now.body.item + 2 + card_writes (results_of card.now.newest)) }
    ensures onward { KeepsOnward D.history drive.old drive.new request.now card.now }
{
    grow_stock(drive, request.item())?;
    write_intent(drive, request, card)
}

/// Keeps a till's next request with its answer. `on_hand` is what its item had before. If the answer changes no
/// quantity, only the till's card is written. Otherwise STOCK grows for an item that has no card, and then come the
/// intent, the item's card or both cards, and the answer.
pub(crate) fn store_answer<D: Sectors>(
    drive: &mut ShopDrive<D>,
    request: &Request,
    card: &RequestCard,
    on_hand: Option<u32>,
) -> Result<(), Dead>
    requires ready { IsReady D.history drive.old }
    requires keeping { (f : Files) × HasFiles (D.history.image drive.old.disk) f × IsKeeping f request.now card.now
        × (on_hand ≡ (shop_of f).state.ledger.cards request.now.body.item) }
    ensures puts { KeepsAnswer D.history drive.old drive.new result request.now card.now
        (λ f p. kept_writes p.0.stock_file request.now.body.item (results_of card.now.newest)) }
    // except for a set of an item without a card, the shop is the one after as soon as a write was counted
    ensures counted { IsSome on_hand → IsAfterCounted D.history drive.old drive.new request.now card.now }
    ensures refused { card.now.pending ≡ false → IsAfterCounted D.history drive.old drive.new request.now card.now }
    // the write of the till's card is the one that counts, and what was shown of it isn't taken back
    ensures onward { KeepsOnward D.history drive.old drive.new request.now card.now }
{
    if !card.pending() {
        return write_refusal(drive, request, card);
    }
    match on_hand {
        Some(_) => write_intent(drive, request, card),
        None => write_first_set(drive, request, card),
    }
}
