//! Entries of the directory by their names.
ghost use Rattle.std.specs.Prelude.{◌≡◌, ◌↔◌, ℕ, IsTrue, Some, slice_get};
ghost use Rattle.disk_layout.specs.declared.slot.Slot.{Slot};
ghost use Rattle.disk_layout.specs.Listed.{IsStock, NeverGrows, is_plain};

use disk_layout::{EntryView, REQUESTS_LENGTH, REQUESTS_NAME, STOCK_LENGTH, STOCK_NAME, Slot};

/// Whether the slot is that of a shop's `STOCK`.
fn is_stock(slot: &Slot) -> bool
    ensures { IsTrue result ↔ IsStock slot.now }
{
    let entry = EntryView::new(&slot.bytes);
    entry.is_relative() && entry.record_length() == STOCK_LENGTH && entry.has_name(STOCK_NAME)
}

/// Whether one of these slots is that of a shop's `STOCK`.
pub(crate) fn has_stock(slots: &[Slot]) -> bool
    ensures { IsTrue result ↔ ((k : ℕ) × (s : Slot) × (slice_get slots.now k ≡ Some s) × IsStock s) }
{
    for slot in slots {
        if is_stock(slot) {
            return true;
        }
    }
    false
}

/// Whether the file of this slot never grows, on a shop's disk or not.
pub(crate) fn never_grows(slot: &Slot, shop: bool) -> bool
    ensures { IsTrue result ↔ NeverGrows (IsTrue shop) slot.now }
{
    let entry = EntryView::new(&slot.bytes);
    shop && entry.record_length() == REQUESTS_LENGTH && entry.has_name(REQUESTS_NAME)
}

/// Whether the slot is that of a closed SEQ, PRG or USR, locked or not.
pub(crate) fn is_plain(slot: &Slot) -> bool
    ensures { result ≡ is_plain slot.now }
{
    matches!(EntryView::new(&slot.bytes).type_byte(), 129..=131 | 193..=195)
}
