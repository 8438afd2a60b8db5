//! What an image holds of a shop, as an object.
ghost use Rattle.std.specs.Prelude.{◌≡◌, ◌≢◌, ◌++◌, IfErr, IfOk, OnOk, false, map};
ghost use Rattle.command_faults.specs.declared.faults.CommandFault.TheVariants as faults;
ghost use Rattle.host_session.specs.shop.Shop.{IsShop, Shop};
ghost use Rattle.json_looks.specs.Objects.{IsObjectFault, IsObjectPrinted};
ghost use Rattle.json_looks.specs.Shops.{IsShown, card_data, card_item, card_items, shop_data, shop_with, till_item, till_items, told_data};
ghost use Rattle.serde_json.specs.View.{view};
ghost use Rattle.shop_commands.specs.Shops.{IsShowFault};

use crate::printing::print_object;
use command_faults::{CommandFault, load};
use d64_image::Sectors;
use host_session::Session;
use line_text::Text;
use request_cards::{Answer, Reply, Request, Word};
use serde_json::{Value, json};
use shop_commands::of_opening;
use std::alloc::{AllocError, Global};
use std::io::Write;

/// The last item that can have a card: the last record that a file can have.
const ITEMS: u16 = 10160;

/// How many tills a disk has at most.
const MOST_TILLS: u8 = 64;

/// The object of an item's card.
fn card_value(alloc: Global, item: u16, quantity: u32) -> Result<Value, AllocError>
    ensures { IfOk result (λ value. view value ≡ card_data item quantity) }
{
    json!(in alloc; {"item": item, "quantity": quantity})
}

/// Adds the object of an item's card, if the item has one.
fn add_card(
    alloc: Global,
    item: u16,
    quantity: Option<u32>,
    values: &mut Vec<Value>,
) -> Result<(), AllocError>
    ensures { OnOk result (map view values.new.items ≡ map view values.old.items ++ card_item item quantity) }
{
    if let Some(quantity) = quantity {
        values.push(card_value(alloc, item, quantity)?)?;
    }
    Ok(())
}

/// The objects of all cards, in the order of the items.
fn card_values<D: Sectors>(alloc: Global, session: &Session<D>) -> Result<Vec<Value>, AllocError>
    requires alive { session.now.dead ≡ false }
    ensures { (s : Shop) → IsShop (D.history.image session.now.disk) s
        → IfOk result (λ values. map view values.items ≡ card_items s.state 10160) }
{
    let mut values = Vec::new(alloc);
    for before in 0..ITEMS {
        let item = before + 1;
        let Ok(quantity) = session.card(item) else {
            // The session is alive.
            return Err(AllocError);
        };
        add_card(alloc, item, quantity, &mut values)?;
    }
    Ok(values)
}

/// The object of a request and the reply that the till got; null if there is none.
fn told_value(alloc: Global, told: Option<(Request, Answer)>) -> Result<Value, AllocError>
    ensures { IfOk result (λ value. view value ≡ told_data told) }
{
    let Some((request, answer)) = told else {
        return Ok(Value::Null);
    };
    let message = request.print();
    let reply = Reply::Told {
        till: request.till(),
        number: request.number(),
        word: Word::Kept(answer),
    };
    let reply = reply.print();
    let Ok(message) = format!(in alloc; "{}", Text(message.as_slice())) else {
        return Err(AllocError);
    };
    let Ok(reply) = format!(in alloc; "{}", Text(reply.as_slice())) else {
        return Err(AllocError);
    };
    json!(in alloc; {"message": message, "reply": reply})
}

/// Adds the object of a till, if it has made a request: its last one and the one before it, each with its reply.
fn add_till(
    alloc: Global,
    till: u8,
    kept: Option<(Request, Answer)>,
    prior: Option<(Request, Answer)>,
    values: &mut Vec<Value>,
) -> Result<(), AllocError>
    ensures { OnOk result (map view values.new.items ≡ map view values.old.items ++ till_item till kept prior) }
{
    let Some(told) = kept else {
        return Ok(());
    };
    let last = told_value(alloc, Some(told))?;
    let prior = told_value(alloc, prior)?;
    values.push(json!(in alloc; {"last": last, "prior": prior, "till": till})?)?;
    Ok(())
}

/// The objects of the tills that have made requests, in their order.
fn till_values<D: Sectors>(alloc: Global, session: &Session<D>) -> Result<Vec<Value>, AllocError>
    requires alive { session.now.dead ≡ false }
    ensures { (s : Shop) → IsShop (D.history.image session.now.disk) s
        → IfOk result (λ values. map view values.items ≡ till_items s.state 64) }
{
    let mut values = Vec::new(alloc);
    for before in 0..MOST_TILLS {
        let till = before + 1;
        let (Ok(kept), Ok(prior)) = (session.kept(till), session.prior(till)) else {
            // The session is alive.
            return Err(AllocError);
        };
        add_till(alloc, till, kept, prior, &mut values)?;
    }
    Ok(values)
}

/// The object of an image: how far new cards may go, and these cards and tills.
fn shop_of(
    alloc: Global,
    name: &str,
    top: u16,
    cards: Vec<Value>,
    tills: Vec<Value>,
) -> Result<Value, AllocError>
    ensures { IfOk result (λ value. view value ≡ shop_with name.now top (map view cards.items) (map view tills.items)) }
{
    json!(in alloc; {
        "cards": cards,
        "name": name,
        "refused": null,
        "tills": tills,
        "top": top
    })
}

/// The object of an image: how far new cards may go, the cards, and the last requests of the tills.
fn shop_value<D: Sectors>(
    alloc: Global,
    name: &str,
    session: &Session<D>,
) -> Result<Value, AllocError>
    requires alive { session.now.dead ≡ false }
    ensures { (s : Shop) → IsShop (D.history.image session.now.disk) s
        → IfOk result (λ value. view value ≡ shop_data name.now s.top s.state) }
{
    let cards = card_values(alloc, session)?;
    let tills = till_values(alloc, session)?;
    shop_of(alloc, name, session.top(), cards, tills)
}

/// Prints the object of an open shop.
fn print_shop<D: Sectors, W: Write>(
    alloc: Global,
    name: &str,
    session: &Session<D>,
    out: &mut W,
) -> Result<(), CommandFault>
    requires alive { session.now.dead ≡ false }
    requires is_shop { (s : Shop) × IsShop (D.history.image session.now.disk) s }
    ensures ok { (s : Shop) → IsShop (D.history.image session.now.disk) s
        → OnOk result (IsObjectPrinted W.contents (shop_data name.now s.top s.state) out.old out.new) }
    ensures err { IfErr result IsObjectFault }
    ensures untouched { IfErr result (λ fault. (fault ≢ faults.File) → out.new ≡ out.old) }
{
    let Ok(value) = shop_value(alloc, name, session) else {
        return Err(CommandFault::NoMemory);
    };
    print_object(alloc, &value, out)
}

/// Prints what the image of this name holds of a shop, as an object of JSON in a line: how far new cards may go, the cards in the
/// order of the items, and the last two requests of each till with the replies that it got. A copy of the image is opened in
/// memory, in which an open intent is completed. The image isn't written.
///
/// `ImageSize` if it hasn't the size of a disk. If it isn't a shop's, the first of these that holds: `Layout`, `NoStock`,
/// `NoRequests`, `BadRequestCard`, `TwoIntents`, `BadCard`. `NoMemory`: nothing was printed. `File` if the output failed, which
/// may then have a part.
// Out of line: a session is large, and a frame that has its room touches each page of it.
#[inline(never)]
pub fn shop_object<W: Write>(
    alloc: Global,
    name: &str,
    image: &[u8],
    out: &mut W,
) -> Result<(), CommandFault>
    // What is shown is the shop that the image is, at rest.
    ensures ok { OnOk result (IsShown W.contents name.now image.now out.old out.new) }
    ensures err { IfErr result (IsShowFault image.now) }
    // At a refusal something was printed only if the output failed.
    ensures untouched { IfErr result (λ fault. (fault ≢ faults.File) → out.new ≡ out.old) }
{
    let disk = load(alloc, image)?;
    match Session::open(disk) {
        Ok(session) => {
            let shown = print_shop(alloc, name, &session, out);
            let _ = session.close();
            shown
        }
        Err((fault, _)) => Err(of_opening(fault)),
    }
}
