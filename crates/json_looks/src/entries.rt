//! Entries of the directory, as objects.
ghost use Rattle.std.specs.Int.{bit_at};
ghost use Rattle.std.specs.Prelude.{◌≡◌, ◌%◌, IfOk, map, nat_eq, nat_le, string_bytes};
ghost use Rattle.damaged_files.specs.reached.Names.{name_of};
ghost use Rattle.damaged_files.specs.reached.Types.{type_name as name_of_type};
ghost use Rattle.disk_layout.specs.Directory.{type_byte};
ghost use Rattle.disk_layout.specs.Layout.{count_field};
ghost use Rattle.json_looks.specs.Entries.{entry_data, record_length_of};
ghost use Rattle.line_text.specs.bytes.Texts.{text_of};
ghost use Rattle.serde_json.specs.View.{view};

use crate::geos_types::geos_value;
use damaged_files::{entry_name, type_name};
use disk_layout::{EntryView, Slot};
use line_text::Text;
use serde_json::{Value, json};
use std::alloc::{AllocError, Global};

/// The record length of a relative file, closed or not.
fn record_length(slot: &Slot) -> Option<u8>
    ensures { result ≡ record_length_of slot.now }
{
    let entry = EntryView::new(&slot.bytes);
    if entry.type_byte() % 64 == 4 {
        Some(entry.record_length())
    } else {
        None
    }
}

/// Whether the entry is closed.
fn is_closed(slot: &Slot) -> bool
    ensures { result ≡ nat_le 128 (type_byte slot.now) }
{
    slot.bytes[2] >= 128
}

/// Whether the entry is locked.
fn is_locked(slot: &Slot) -> bool
    ensures { result ≡ nat_eq (bit_at (type_byte slot.now) 6) 1 }
{
    (slot.bytes[2] >> 6) & 1 == 1
}

/// The entry's block count as stored.
fn block_count(slot: &Slot) -> u16
    ensures { result ≡ count_field slot.now }
{
    EntryView::new(&slot.bytes).block_count()
}

/// The name of the entry's type, closed or not.
fn kind_name(slot: &Slot) -> &'static str
    ensures { result.now ≡ name_of_type (type_byte slot.now % 64) }
{
    type_name(slot.bytes[2] % 64)
}

/// The name of an entry, as it can be typed.
pub(crate) fn typed_name(alloc: Global, slot: &Slot) -> Result<String, AllocError>
    ensures { IfOk result (λ name. string_bytes name ≡ text_of (name_of slot.now)) }
{
    match format!(in alloc; "{}", Text(entry_name(slot))) {
        Ok(name) => Ok(name),
        Err(_) => Err(AllocError),
    }
}

/// The object of an entry: its name, its type, and what its bytes say.
pub(crate) fn entry_value(alloc: Global, slot: &Slot) -> Result<Value, AllocError>
    ensures { IfOk result (λ value. view value ≡ entry_data slot.now) }
{
    let name = typed_name(alloc, slot)?;
    let geos = geos_value(alloc, slot)?;
    json!(in alloc; {
        "blocks": block_count(slot),
        "closed": is_closed(slot),
        "geos": geos,
        "locked": is_locked(slot),
        "name": name,
        "record_length": record_length(slot),
        "sector": slot.bytes[4],
        "track": slot.bytes[3],
        "type": kind_name(slot)
    })
}

/// The objects of these entries.
pub(crate) fn entry_values(alloc: Global, slots: &[Slot]) -> Result<Vec<Value>, AllocError>
    ensures { IfOk result (λ values. map view values.items ≡ map entry_data slots.now) }
{
    let mut values = Vec::new(alloc);
    for slot in slots {
        values.push(entry_value(alloc, slot)?)?;
    }
    Ok(values)
}
