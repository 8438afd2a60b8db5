//! What an entry says of a file of GEOS, as an object.
ghost use Rattle.std.specs.Prelude.{◌≡◌, IfOk};
ghost use Rattle.json_looks.specs.Entries.{geos_data};
ghost use Rattle.serde_json.specs.View.{view};

use disk_layout::Slot;
use geos_files::{geos_entry, geos_type_name, structure_name};
use serde_json::{Value, json};
use std::alloc::{AllocError, Global};

/// What the entry says of its file of GEOS; null if it isn't the entry of one.
pub(crate) fn geos_value(alloc: Global, slot: &Slot) -> Result<Value, AllocError>
    ensures { IfOk result (λ value. view value ≡ geos_data slot.now) }
{
    let Some(entry) = geos_entry(slot) else {
        return Ok(Value::Null);
    };
    let kind = slot.bytes[24];
    json!(in alloc; {
        "structure": structure_name(entry.has_records),
        "type": kind,
        "type_name": geos_type_name(kind)
    })
}
