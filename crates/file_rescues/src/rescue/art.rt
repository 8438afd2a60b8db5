//! Directory art.
ghost use Rattle.std.specs.Prelude.{◌≡◌};
ghost use Rattle.file_rescues.specs.rescue.Art as art;

use disk_layout::{EntryView, Slot};

/// Whether the first block of the entry is none, or 18/0.
fn starts_nowhere(slot: &Slot) -> bool
    ensures { result ≡ art.starts_nowhere slot.now }
{
    slot.bytes[3] == 0 || (slot.bytes[3] == 18 && slot.bytes[4] == 0)
}

/// Whether the entry is directory art, which shows a line in a listing: a DEL, closed or locked, that counts no blocks and
/// whose first block is none, or 18/0.
pub fn is_art(slot: &Slot) -> bool
    ensures { result ≡ art.is_art slot.now }
{
    let entry = EntryView::new(&slot.bytes);
    let kind = entry.type_byte();
    (kind == 128 || kind == 192) && (entry.block_count() == 0 && starts_nowhere(slot))
}
