//! A disk read and checked before anything is written to it.
ghost use Rattle.std.specs.Prelude.{◌≡◌, ◌≤◌, ◌⊎◌, IfErr, IfOk, None, OnErr, OnOk, Some, length, replicate};
ghost use Rattle.d64_image.specs.History.{Failed, OnlyReads};
ghost use Rattle.host_session.specs.declared.faults.OpenFault.TheVariants.{BadCard, BadRequestCard, Device};
ghost use Rattle.host_session.specs.session.Opening.{IsBadCard, IsBadTill, Refuses, TellsJudging};
ghost use Rattle.host_session.specs.shop.Files.{Files, HasFiles};
ghost use Rattle.host_session.specs.declared.shop.record_content.RecordContent.TheVariants as contents;
ghost use Rattle.host_session.specs.shop.Found.{AreFilesOf, TellsRecord};
ghost use Rattle.host_session.specs.shop.LoadedShop.{AreCards, AreTills, HasJudgedTills, IsIntentOf, IsJudged};
ghost use Rattle.host_session.specs.shop.LoadedShop.{IsJudgedItem, IsJudgedTill, IsNothing, JudgesRecord};
ghost use Rattle.rel_records.specs.reading.Kept.{IsKept};
ghost use Rattle.request_cards.specs.CardReading.{request_card_of, stock_card_of};
ghost use Rattle.request_cards.specs.CardTexts.{Card, IsCard};

use crate::faults::OpenFault;
use crate::shop::files::{LedgerFiles, find_files};
use crate::shop::intents::{
    Intent, NewQuantities, given_by, new_quantities, new_quantity, open_intent, passes,
};
use crate::shop::record_content::{RecordContent, read_item, read_till};
use arrayvec::ArrayVec;
use d64_image::Sectors;
use disk_layout::DATA;
use rel_records::{LastBlock, records};
use request_cards::{ITEMS, Ledger, RequestCard, StockCard};

/// What opening reads before it writes. It is large, so each step fills it in place.
#[derive(Drop)]
pub struct LoadedShop {
    /// What the files hold; the quantities are those once the open intent is completed.
    pub(crate) ledger: Ledger,
    /// The open intent, which is a card of the ledger.
    pub(crate) intent: Option<Intent>,
}

impl LoadedShop {
    /// Nothing was read yet.
    pub(crate) fn nothing() -> LoadedShop
        ensures { IsNothing result }
    {
        LoadedShop {
            ledger: Ledger::new(0, 0),
            intent: None,
        }
    }
}

/// The card of a till whose record holds this, if that is valid where STOCK has this many records. None past the last
/// record.
fn judged_till(
    read: Option<RecordContent<RequestCard>>,
    stock_records: u32,
    till: u8,
) -> Result<Option<Option<RequestCard>>, OpenFault>
    requires low { 1 ≤ till }
    requires high { till ≤ 64 }
    requires fits { (card : Card) → read ≡ Some (contents.Card card) → IsCard card }
    ensures ok { (f : Files) → TellsRecord request_card_of 127 f.requests till read → stock_records ≡ length f.stock
        → IfOk result (IsJudgedTill f till) }
    ensures fault { IfErr result (λ fault. fault ≡ BadRequestCard till) }
    ensures bad { (f : Files) → TellsRecord request_card_of 127 f.requests till read → stock_records ≡ length f.stock
        → OnErr result (IsBadTill f till) }
{
    let Some(held) = read else {
        return Ok(None);
    };
    match held {
        RecordContent::Empty => Ok(Some(None)),
        RecordContent::Card(card) => {
            if card.pending() && passes(&new_quantities(till, &card), stock_records) {
                return Err(OpenFault::BadRequestCard(till));
            }
            Ok(Some(Some(card)))
        }
        RecordContent::Other => Err(OpenFault::BadRequestCard(till)),
    }
}

/// Reads the record of a till, and judges it.
fn judge_till<D: Sectors>(
    disk: &mut D,
    files: &LedgerFiles,
    last: &mut LastBlock,
    text: &mut ArrayVec<u8, DATA>,
    till: u8,
) -> Result<Option<Option<RequestCard>>, OpenFault>
    requires of { (f : Files) × AreFilesOf (D.history.image disk.old) f files.now }
    requires kept { IsKept (D.history.image disk.old) files.now.requests last.old }
    requires low { 1 ≤ till }
    requires high { till ≤ 64 }
    ensures { JudgesRecord D.history disk.old disk.new files.now.requests last.new result
        (λ f. AreFilesOf (D.history.image disk.old) f files.now) (λ f. IsJudgedTill f till)
        (λ f fault. (fault ≡ Device) ⊎ ((fault ≡ BadRequestCard till) × IsBadTill f till)) }
{
    let read = read_till(disk, files, last, text, till)?;
    judged_till(read, records(&files.stock), till)
}

/// Reads the cards of all tills up to 64 into a table, and returns how many there are, or the lowest bad one.
fn read_tills<D: Sectors>(
    disk: &mut D,
    files: &LedgerFiles,
    requests: &mut [Option<RequestCard>; 64],
) -> Result<u8, OpenFault>
    requires of { (f : Files) × AreFilesOf (D.history.image disk.old) f files.now }
    requires none { requests.old ≡ replicate 64 None }
    ensures ok { (f : Files) → AreFilesOf (D.history.image disk.old) f files.now
        → IfOk result (λ count. AreTills f count requests.new) }
    ensures err { IfErr result (Refuses (Failed D.history disk.old disk.new) (D.history.image disk.old)) }
    ensures reads { OnlyReads D.history disk.old disk.new 192 }
    ensures failures { TellsJudging D.history disk.old disk.new result }
{
    let mut last = LastBlock::none();
    let mut text = ArrayVec::new();
    for place in 0..64u8 {
        match judge_till(disk, files, &mut last, &mut text, place + 1)? {
            Some(card) => requests[usize::from(place)] = card,
            None => return Ok(place),
        }
    }
    Ok(64)
}

/// The quantity on hand of an item whose record holds this, if that is valid, or if the item has one of these new
/// quantities. None past the last record.
fn judged_item(
    read: Option<RecordContent<StockCard>>,
    new: &NewQuantities,
    item: u16,
) -> Result<Option<Option<u32>>, OpenFault>
    ensures ok { (f : Files) → HasJudgedTills f new.now → TellsRecord stock_card_of 18 f.stock item read
        → IfOk result (IsJudgedItem f item) }
    ensures fault { IfErr result (λ fault. fault ≡ BadCard item) }
    ensures bad { (f : Files) → HasJudgedTills f new.now → TellsRecord stock_card_of 18 f.stock item read
        → OnErr result (IsBadCard f item) }
{
    let Some(held) = read else {
        return Ok(None);
    };
    let intended = new_quantity(new, item);
    if intended.is_some() {
        return Ok(Some(intended));
    }
    match held {
        RecordContent::Empty => Ok(Some(None)),
        RecordContent::Card(card) => {
            if card.item() != item {
                return Err(OpenFault::BadCard(item));
            }
            Ok(Some(Some(card.quantity())))
        }
        RecordContent::Other => Err(OpenFault::BadCard(item)),
    }
}

/// Reads the record of an item, and judges it.
fn judge_item<D: Sectors>(
    disk: &mut D,
    files: &LedgerFiles,
    last: &mut LastBlock,
    text: &mut ArrayVec<u8, DATA>,
    new: &NewQuantities,
    item: u16,
) -> Result<Option<Option<u32>>, OpenFault>
    requires of { (f : Files) × AreFilesOf (D.history.image disk.old) f files.now }
    requires kept { IsKept (D.history.image disk.old) files.now.stock last.old }
    requires low { 1 ≤ item }
    ensures { JudgesRecord D.history disk.old disk.new files.now.stock last.new result
        (λ f. AreFilesOf (D.history.image disk.old) f files.now × HasJudgedTills f new.now) (λ f. IsJudgedItem f item)
        (λ f fault. (fault ≡ Device) ⊎ ((fault ≡ BadCard item) × IsBadCard f item)) }
{
    let read = read_item(disk, files, last, text, item)?;
    judged_item(read, new, item)
}

/// Reads the quantities on hand of all items into a table. Returns the lowest bad card.
fn read_stock<D: Sectors>(
    disk: &mut D,
    files: &LedgerFiles,
    new: &NewQuantities,
    cards: &mut [Option<u32>; ITEMS],
) -> Result<(), OpenFault>
    requires of { (f : Files) × AreFilesOf (D.history.image disk.old) f files.now × HasJudgedTills f new.now }
    requires none { cards.old ≡ replicate 10160 None }
    ensures ok { (f : Files) → AreFilesOf (D.history.image disk.old) f files.now → HasJudgedTills f new.now
        → OnOk result (AreCards f cards.new) }
    ensures err { IfErr result (Refuses (Failed D.history disk.old disk.new) (D.history.image disk.old)) }
    ensures reads { OnlyReads D.history disk.old disk.new 30480 }
    ensures failures { TellsJudging D.history disk.old disk.new result }
{
    let mut last = LastBlock::none();
    let mut text = ArrayVec::new();
    for place in 0..ITEMS as u16 {
        match judge_item(disk, files, &mut last, &mut text, new, place + 1)? {
            Some(quantity) => cards[usize::from(place)] = quantity,
            None => return Ok(()),
        }
    }
    Ok(())
}

/// Reads the tills' cards into a table, and returns how many there are, and the open intent among them, if there is
/// one.
fn judge_tills<D: Sectors>(
    disk: &mut D,
    files: &LedgerFiles,
    requests: &mut [Option<RequestCard>; 64],
) -> Result<(u8, Option<Intent>), OpenFault>
    requires of { (f : Files) × AreFilesOf (D.history.image disk.old) f files.now }
    requires none { requests.old ≡ replicate 64 None }
    ensures ok { (f : Files) → AreFilesOf (D.history.image disk.old) f files.now
        → IfOk result (λ p. AreTills f p.0 requests.new × IsIntentOf requests.new p.1) }
    ensures err { IfErr result (Refuses (Failed D.history disk.old disk.new) (D.history.image disk.old)) }
    ensures reads { OnlyReads D.history disk.old disk.new 192 }
    ensures failures { TellsJudging D.history disk.old disk.new result }
{
    let count = read_tills(disk, files, requests)?;
    let intent = open_intent(requests)?;
    Ok((count, intent))
}

/// Reads a disk and checks it, in the order of `OpenFault`. Nothing is written.
// Out of line, as `settle` is: an opening is then so short that the compiler makes the tables once, in the session, and
// not a second time for a fault.
#[inline(never)]
pub(crate) fn load_shop<D: Sectors>(disk: &mut D, found: &mut LoadedShop) -> Result<(), OpenFault>
    requires nothing { IsNothing found.old }
    ensures ok { OnOk result ((f : Files) × HasFiles (D.history.image disk.old) f × IsJudged f found.new) }
    ensures err { IfErr result (Refuses (Failed D.history disk.old disk.new) (D.history.image disk.old)) }
    ensures reads { OnlyReads D.history disk.old disk.new 34190 }
    ensures failures { TellsJudging D.history disk.old disk.new result }
{
    let files = find_files(disk)?;
    let (tills, intent) = judge_tills(disk, &files, &mut found.ledger.requests)?;
    read_stock(disk, &files, &given_by(&intent), &mut found.ledger.cards)?;
    found.ledger.top = files.top;
    found.ledger.tills = tills;
    found.intent = intent;
    Ok(())
}
