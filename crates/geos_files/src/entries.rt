//! Entries of files of GEOS.
ghost use Rattle.std.specs.Prelude.{◌≡◌, ◌≢◌, IfSome};
ghost use Rattle.geos_files.specs.Entries as entries;

use d64_image::Place;
use disk_layout::{EntryView, Slot};

/// What the entry of a file of GEOS says of its file.
#[derive(Clone, Copy, Debug, PartialEq, Eq)]
pub struct GeosEntry {
    /// The info block: the icon, the name of the program, and more.
    pub info: Place,
    /// The first block of the file, or the block that has the records' first blocks.
    pub first: Place,
    /// Whether the file has records (VLIR), each with a chain of its own.
    pub has_records: bool,
}

/// Whether the entry is closed and of a type that GEOS writes: SEQ, PRG or USR, locked or not.
fn is_plain(slot: &Slot) -> bool
    ensures { result ≡ entries.is_closed_plain slot.now }
{
    matches!(EntryView::new(&slot.bytes).type_byte(), 129..=131 | 193..=195)
}

/// Whether the two bytes that GEOS adds are ones that it has: the structure in byte 23, 0 or 1, and the type in byte 24, from
/// 1 to 15.
fn has_geos_type(slot: &Slot) -> bool
    ensures { result ≡ entries.has_geos_type slot.now }
{
    slot.bytes[23] <= 1 && 1 <= slot.bytes[24] && slot.bytes[24] <= 15
}

/// Whether the entry names one block as the first one and as the info block.
fn names_one_block(slot: &Slot) -> bool
    ensures { result ≡ entries.names_one_block slot.now }
{
    slot.bytes[21] == slot.bytes[3] && slot.bytes[22] == slot.bytes[4]
}

/// Whether the entry's type and its bytes 21 to 24 are those of a file of GEOS, whose info block isn't its first block.
pub(crate) fn is_like_geos(slot: &Slot) -> bool
    ensures { result ≡ entries.is_like_geos slot.now }
{
    is_plain(slot) && (has_geos_type(slot) && !names_one_block(slot))
}

/// An entry that names these blocks, if it names both.
fn naming_both(info: Option<Place>, first: Option<Place>, has_records: bool) -> Option<GeosEntry>
    ensures { result ≡ entries.naming_both has_records info first }
{
    let Some(info) = info else {
        return None;
    };
    let Some(first) = first else {
        return None;
    };
    Some(GeosEntry {
        info,
        first,
        has_records,
    })
}

/// What the entry says of its file, if it is one of GEOS: a closed SEQ, PRG or USR that names two blocks of the disk, the
/// info block in bytes 21 and 22 and the first block in bytes 3 and 4, and that has a structure (byte 23) and a type (byte 24)
/// which GEOS has. None of any other entry.
pub fn geos_entry(slot: &Slot) -> Option<GeosEntry>
    ensures entry { result ≡ entries.geos_entry slot.now }
    ensures apart { IfSome result (λ entry. entry.info ≢ entry.first) }
{
    if !is_like_geos(slot) {
        return None;
    }
    let entry = EntryView::new(&slot.bytes);
    let has_records = entry.record_length() == 1;
    naming_both(entry.first_side(), entry.first_block(), has_records)
}
