//! The files of a shop, found on the disk of an image before one of them is changed.
ghost use Rattle.std.specs.Prelude.{◌≡◌, ◌↔◌, ℕ, IfErr, IfOk, IsTrue, Some, slice_get};
ghost use Rattle.disk_layout.specs.Rest.{slot_name};
ghost use Rattle.disk_layout.specs.declared.slot.Slot.{Slot};
ghost use Rattle.file_changes.specs.Entries.{HasName};
ghost use Rattle.command_faults.specs.Faults.{IsLoadFault};
ghost use Rattle.disk_changes.specs.ShopFiles.{HasShopFile, IsNamedShopSlot, IsRelativeOf, IsShopSlot};

use arrayvec::ArrayVec;
use command_faults::{CommandFault, load};
use disk_layout::{
    EntryView, REQUESTS_LENGTH, REQUESTS_NAME, STOCK_LENGTH, STOCK_NAME, Slot, read_directory,
};
use std::alloc::Global;

/// Whether the slot has this name.
fn has_name(slot: &Slot, name: &[u8]) -> bool
    ensures { IsTrue result ↔ HasName (slot_name name.now) slot.now }
{
    EntryView::new(&slot.bytes).has_name(name)
}

/// Whether the slot is that of a closed relative file of this name, with records of `length` bytes.
fn is_relative_of(slot: &Slot, name: &[u8], length: u8) -> bool
    ensures { IsTrue result ↔ IsRelativeOf name.now length slot.now }
{
    let entry = EntryView::new(&slot.bytes);
    entry.is_relative() && entry.record_length() == length && has_name(slot, name)
}

/// Whether the slot is that of one of a shop's two files.
fn is_shop_slot(slot: &Slot) -> bool
    ensures { IsTrue result ↔ IsShopSlot slot.now }
{
    is_relative_of(slot, STOCK_NAME, STOCK_LENGTH)
        || is_relative_of(slot, REQUESTS_NAME, REQUESTS_LENGTH)
}

/// Whether the slot has this name and is that of one of a shop's two files.
fn is_named_shop_slot(slot: &Slot, name: &[u8]) -> bool
    ensures { IsTrue result ↔ IsNamedShopSlot name.now slot.now }
{
    has_name(slot, name) && is_shop_slot(slot)
}

/// Whether one of these slots has the name and is that of one of a shop's files.
fn has_shop_slot(slots: &[Slot], name: &[u8]) -> bool
    ensures { IsTrue result ↔ ((k : ℕ) × (s : Slot) × (slice_get slots.now k ≡ Some s)
        × IsNamedShopSlot name.now s) }
{
    for slot in slots {
        if is_named_shop_slot(slot, name) {
            return true;
        }
    }
    false
}

/// Whether an entry of the image's directory has this name and is that of one of a shop's two files: `STOCK`, with records of
/// 18 bytes, or `REQUESTS`, with records of 127. False also if the image has no directory.
///
/// The error is `ImageSize` if the image hasn't 174,848 bytes, and `NoMemory` if there was none for as many.
pub fn has_shop_file(alloc: Global, image: &[u8], name: &[u8]) -> Result<bool, CommandFault>
    ensures ok { IfOk result (λ has. IsTrue has ↔ HasShopFile image.now name.now) }
    ensures err { IfErr result (IsLoadFault image.now) }
{
    let mut disk = load(alloc, image)?;
    let mut slots = ArrayVec::new();
    match read_directory(&mut disk, &mut slots) {
        Ok(()) => Ok(has_shop_slot(slots.as_slice(), name)),
        Err(_) => Ok(false),
    }
}
