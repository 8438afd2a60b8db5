//! Files of GEOS, by their entries.
ghost use Rattle.std.specs.Prelude.{◌≡◌, ◌↔◌, ℕ, IsTrue, Some, slice_get};
ghost use Rattle.d64_image.specs.Memory.{disk_image};
ghost use Rattle.disk_layout.specs.declared.slot.Slot as entries;
ghost use Rattle.damaged_files.specs.cut.Geos.{HasGeosEntry, IsGeosEntry};

use crate::cut::cuts::read_facts;
use crate::cut::names::is_plain;
use arrayvec::ArrayVec;
use d64_image::MemDisk;
use disk_layout::{EntryView, Slot};

/// The byte of a slot that has the type that GEOS gives a file. 0 if it isn't one of GEOS.
const GEOS_TYPE_AT: usize = 24;

/// Whether the entry is that of a file of GEOS.
fn is_geos_entry(slot: &Slot) -> bool
    ensures { IsTrue result ↔ IsGeosEntry slot.now }
{
    let entry = EntryView::new(&slot.bytes);
    let typed = entry.record_length() == 1 || slot.bytes[GEOS_TYPE_AT] != 0;
    is_plain(slot) && entry.first_side().is_some() && typed
}

/// Whether one of these entries is that of a file of GEOS.
fn has_such(slots: &[Slot]) -> bool
    ensures { IsTrue result ↔ ((k : ℕ) × (s : entries.Slot) × (slice_get slots.now k ≡ Some s) × IsGeosEntry s) }
{
    for slot in slots {
        if is_geos_entry(slot) {
            return true;
        }
    }
    false
}

/// Whether a file of the disk is one of GEOS by its entry, as on a disk that GEOS hasn't marked as its own. False also if the
/// disk isn't sound.
///
/// Nothing is written, and no memory is allocated. It takes about 20 KB of the stack.
pub fn has_geos_entry(disk: &mut MemDisk) -> bool
    ensures found { IsTrue result ↔ HasGeosEntry (disk_image disk.old) }
    ensures same { disk_image disk.new ≡ disk_image disk.old }
{
    let mut slots = ArrayVec::new();
    match read_facts(disk, &mut slots) {
        Ok(_) => has_such(slots.as_slice()),
        Err(_) => false,
    }
}
