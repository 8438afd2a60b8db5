//! The records of the two files, read and checked one by one.
ghost use Rattle.std.specs.Prelude.{◌≡◌, ◌≤◌, ◌↔◌, ℕ, IsTrue, List, Option, length, replicate};
ghost use Rattle.disk_layout.specs.Records.{empty_record};
ghost use Rattle.host_session.specs.declared.faults.OpenFault.TheVariants.{Device};
ghost use Rattle.host_session.specs.shop.Files.{Files};
ghost use Rattle.host_session.specs.shop.Found.{AreFilesOf, Tells, TellsRecord};
ghost use Rattle.host_session.specs.shop.LoadedShop.{JudgesRecord};
ghost use Rattle.rel_records.specs.reading.Kept.{IsKept};
ghost use Rattle.request_cards.specs.CardReading.{request_card_of, stock_card_of};

use crate::faults::OpenFault;
use crate::shop::files::LedgerFiles;
use arrayvec::ArrayVec;
use d64_image::Sectors;
use disk_layout::DATA;
use rel_records::{LastBlock, RelFault, read_next};
use request_cards::{REQUEST_CARD_LENGTH, RequestCard, STOCK_CARD_LENGTH, StockCard};

/// What a record holds.
#[derive(Clone, Copy)]
pub enum RecordContent<C> {
    /// Nothing yet: it is an empty record.
    Empty,
    /// A card.
    Card(C),
    /// Other bytes.
    Other,
}

/// Whether each byte is 0. Looks at all of them: for so few bytes that costs less than a branch at each.
fn are_zeros(bytes: &[u8]) -> bool
    ensures { IsTrue result ↔ (bytes.now ≡ replicate (length bytes.now) 0) }
{
    let mut all = true;
    for byte in bytes {
        all &= *byte == 0;
    }
    all
}

/// Whether the bytes are an empty record: FF, then zeros.
fn is_empty(bytes: &[u8]) -> bool
    ensures { IsTrue result ↔ ((1 ≤ length bytes.now) × (bytes.now ≡ empty_record (length bytes.now))) }
{
    match bytes.split_first() {
        Some((&first, rest)) => first == 0xFF && are_zeros(rest),
        None => false,
    }
}

/// The contents of bytes that were read as this card, or as none.
fn what_is_held<C>(card: Option<C>, bytes: &[u8]) -> RecordContent<C>
    requires some { 1 ≤ length bytes.now }
    ensures { (card_of : List ℕ → Option C) → card_of bytes.now ≡ card
        → Tells card_of (length bytes.now) bytes.now result }
{
    match card {
        Some(card) => RecordContent::Card(card),
        None if is_empty(bytes) => RecordContent::Empty,
        None => RecordContent::Other,
    }
}

/// The contents of a till's record. None past the last record. Nothing is written. `last` is the block of REQUESTS that
/// was read last, `text` is room for the record.
pub(crate) fn read_till<D: Sectors>(
    disk: &mut D,
    files: &LedgerFiles,
    last: &mut LastBlock,
    text: &mut ArrayVec<u8, DATA>,
    till: u8,
) -> Result<Option<RecordContent<RequestCard>>, OpenFault>
    requires of { (f : Files) × AreFilesOf (D.history.image disk.old) f files.now }
    requires kept { IsKept (D.history.image disk.old) files.now.requests last.old }
    requires low { 1 ≤ till }
    ensures { JudgesRecord D.history disk.old disk.new files.now.requests last.new result
        (λ f. AreFilesOf (D.history.image disk.old) f files.now)
        (λ f. TellsRecord request_card_of 127 f.requests till) (λ f fault. fault ≡ Device) }
{
    match read_next(disk, &files.requests, last, u32::from(till), text) {
        Ok(()) => {
            let bytes = text
                .as_slice()
                .first_chunk::<REQUEST_CARD_LENGTH>()
                .unwrap();
            Ok(Some(what_is_held(RequestCard::parse(bytes), bytes)))
        }
        Err(RelFault::NotPresent) => Ok(None),
        Err(_) => Err(OpenFault::Device),
    }
}

/// The contents of these bytes of a record of STOCK.
// In line: an opening calls it for each item.
#[inline(always)]
fn item_held(bytes: &[u8]) -> RecordContent<StockCard>
    requires { length bytes.now ≡ 18 }
    ensures { Tells stock_card_of 18 bytes.now result }
{
    let bytes = bytes.first_chunk::<STOCK_CARD_LENGTH>().unwrap();
    what_is_held(StockCard::parse(bytes), bytes)
}

/// The contents of an item's record, after it is read into `text`. None past the last record.
// Out of line: most records lie whole in the block that was read last.
#[inline(never)]
fn read_item_next<D: Sectors>(
    disk: &mut D,
    files: &LedgerFiles,
    last: &mut LastBlock,
    text: &mut ArrayVec<u8, DATA>,
    item: u16,
) -> Result<Option<RecordContent<StockCard>>, OpenFault>
    requires of { (f : Files) × AreFilesOf (D.history.image disk.old) f files.now }
    requires kept { IsKept (D.history.image disk.old) files.now.stock last.old }
    requires low { 1 ≤ item }
    ensures { JudgesRecord D.history disk.old disk.new files.now.stock last.new result
        (λ f. AreFilesOf (D.history.image disk.old) f files.now)
        (λ f. TellsRecord stock_card_of 18 f.stock item) (λ f fault. fault ≡ Device) }
{
    match read_next(disk, &files.stock, last, u32::from(item), text) {
        Ok(()) => Ok(Some(item_held(text.as_slice()))),
        Err(RelFault::NotPresent) => Ok(None),
        Err(_) => Err(OpenFault::Device),
    }
}

/// The contents of an item's record. None past the last record. Nothing is written. `last` is the block of STOCK that
/// was read last, which has most records; `text` is room for a record that goes on in another block.
#[inline(always)]
pub(crate) fn read_item<D: Sectors>(
    disk: &mut D,
    files: &LedgerFiles,
    last: &mut LastBlock,
    text: &mut ArrayVec<u8, DATA>,
    item: u16,
) -> Result<Option<RecordContent<StockCard>>, OpenFault>
    requires of { (f : Files) × AreFilesOf (D.history.image disk.old) f files.now }
    requires kept { IsKept (D.history.image disk.old) files.now.stock last.old }
    requires low { 1 ≤ item }
    ensures { JudgesRecord D.history disk.old disk.new files.now.stock last.new result
        (λ f. AreFilesOf (D.history.image disk.old) f files.now)
        (λ f. TellsRecord stock_card_of 18 f.stock item) (λ f fault. fault ≡ Device) }
{
    match last.record(&files.stock, u32::from(item)) {
        Some(bytes) => Ok(Some(item_held(bytes))),
        None => read_item_next(disk, files, last, text, item),
    }
}
