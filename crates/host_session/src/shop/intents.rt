//! Open intents among the tills' cards, and the new quantities that they give.
ghost use Rattle.std.specs.Prelude.{◌≡◌, ◌≤◌, ◌↔◌, ℕ, IfErr, IfNone, IfOk, IfSome, IsTrue, None, Contains, length};
ghost use Rattle.host_session.specs.shop.LoadedShop.{IsIntentOf, PassesRecords, given, listed, no_cards};
ghost use Rattle.host_session.specs.shop.Shop.{intents, items, overlaid, results_of};
ghost use Rattle.request_cards.specs.CardTexts.{IsCard};
ghost use Rattle.host_session.specs.declared.faults.OpenFault.TheVariants.{TwoIntents};

use crate::faults::OpenFault;
use request_cards::{Answer, RequestCard};

/// An open intent, and the till whose card it is on.
#[derive(Clone, Copy)]
pub struct Intent {
    pub(crate) till: u8,
    pub(crate) card: RequestCard,
}

/// The items to which an answer gives new quantities, with these; the second is the item that a move goes to.
#[derive(Clone, Copy)]
pub struct NewQuantities {
    pub(crate) first: Option<(u16, u32)>,
    pub(crate) second: Option<(u16, u32)>,
}

/// The new quantities that the answer of a till's card gives.
pub(crate) fn new_quantities(till: u8, card: &RequestCard) -> NewQuantities
    requires low { 1 ≤ till }
    requires high { till ≤ 64 }
    requires fits { IsCard card.now }
    ensures value { listed result ≡ results_of card.now.newest }
    ensures low { (item : ℕ) → Contains (items (listed result)) item → 1 ≤ item }
    ensures order { IfNone result.first (result.second ≡ None) }
{
    let request = card.request(till).unwrap();
    match card.answer() {
        Answer::Done(quantity) => NewQuantities {
            first: Some((request.item(), quantity)),
            second: None,
        },
        Answer::Moved(quantity, to_quantity) => NewQuantities {
            first: Some((request.item(), quantity)),
            second: Some((request.to().unwrap(), to_quantity)),
        },
        // any other answer leaves the cards as they are
        _ => NewQuantities {
            first: None,
            second: None,
        },
    }
}

/// The new quantities of the open intent, if there is one.
pub(crate) fn given_by(intent: &Option<Intent>) -> NewQuantities
    requires { IfSome intent.now (λ x. (1 ≤ x.till) × (x.till ≤ 64) × IsCard x.card) }
    ensures { listed result ≡ given intent.now }
{
    match intent {
        Some(open) => new_quantities(open.till, &open.card),
        None => NewQuantities {
            first: None,
            second: None,
        },
    }
}

/// Whether one of these items is past this number of records.
pub(crate) fn passes(new: &NewQuantities, count: u32) -> bool
    ensures { IsTrue result ↔ PassesRecords new.now count }
{
    new.first.is_some_and(|(item, _)| u32::from(item) > count)
        || new.second.is_some_and(|(item, _)| u32::from(item) > count)
}

/// The new quantity of an item, if it has one.
pub(crate) fn new_quantity(new: &NewQuantities, item: u16) -> Option<u32>
    ensures { result ≡ overlaid (listed new.now) no_cards item }
{
    if let Some((to, quantity)) = new.second
        && to == item
    {
        return Some(quantity);
    }
    if let Some((from, quantity)) = new.first
        && from == item
    {
        return Some(quantity);
    }
    None
}

/// The one open intent of the tills' cards, if one is open. Two are refused.
pub(crate) fn open_intent(requests: &[Option<RequestCard>; 64]) -> Result<Option<Intent>, OpenFault>
    ensures ok { IfOk result (IsIntentOf requests.now) }
    ensures err { IfErr result (λ fault. (fault ≡ TwoIntents) × (2 ≤ length (intents requests.now))) }
{
    let mut found = None;
    for (place, request) in requests.iter().enumerate() {
        if let Some(card) = request
            && card.pending()
        {
            if found.is_some() {
                return Err(OpenFault::TwoIntents);
            }
            found = Some(Intent {
                till: place as u8 + 1,
                card: *card,
            });
        }
    }
    Ok(found)
}
