//! Whether the first file of a name is cut short.
ghost use Rattle.std.specs.Prelude.{◌≡◌, ◌↔◌, IsTrue, MatchOption};
ghost use Rattle.d64_image.specs.Memory.{disk_image};
ghost use Rattle.d64_image.specs.declared.place.Place as places;
ghost use Rattle.damaged_files.specs.cut.OfName.{HasNoneOfName, IsCutNamed, IsFirstOfName, IsOfName};

use crate::cut::cuts::read_facts;
use crate::cut::tails::cut_of;
use arrayvec::ArrayVec;
use d64_image::{MemDisk, Place};
use disk_layout::{EntryView, Slot};

/// Whether the entry has this name.
fn is_of_name(slot: &Slot, name: &[u8]) -> bool
    ensures { IsTrue result ↔ IsOfName name.now slot.now }
{
    EntryView::new(&slot.bytes).has_name(name)
}

/// The first of these entries that has the name.
fn first_of(slots: &[Slot], name: &[u8]) -> Option<Slot>
    ensures { MatchOption result (HasNoneOfName slots.now name.now) (IsFirstOfName slots.now name.now) }
{
    for slot in slots {
        if is_of_name(slot, name) {
            return Some(*slot);
        }
    }
    None
}

/// The sector where the first file of this name ends, if it is cut short there. None also if no file has the name, or if the disk
/// isn't sound.
///
/// Nothing is written, and no memory is allocated. It takes about 20 KB of the stack.
pub fn cut_named(disk: &mut MemDisk, name: &[u8]) -> Option<Place>
    ensures told { MatchOption result ((p : places.Place) → ¬ (IsCutNamed (disk_image disk.old) name.now p))
        (IsCutNamed (disk_image disk.old) name.now) }
    ensures same { disk_image disk.new ≡ disk_image disk.old }
{
    let mut slots = ArrayVec::new();
    let Ok(facts) = read_facts(disk, &mut slots) else {
        return None;
    };
    let slot = first_of(slots.as_slice(), name)?;
    cut_of(disk, &slot, facts)
}
