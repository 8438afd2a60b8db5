//! What a slot of the directory says of a relative file.
ghost use Rattle.std.specs.Prelude.{◌≡◌, ◌≤◌, IsTrue, MatchOption};
ghost use Rattle.disk_layout.specs.Chain.{Names, NamesNone};
ghost use Rattle.disk_layout.specs.Directory.{type_byte};
ghost use Rattle.disk_layout.specs.Layout.{is_rel};

use d64_image::Place;
use disk_layout::{EntryView, Slot};

/// Whether the slot is relative.
pub(crate) fn is_relative(slot: &Slot) -> bool
    ensures relative { result ≡ is_rel slot.now }
    ensures closed { IsTrue result → 128 ≤ type_byte slot.now }
{
    EntryView::new(&slot.bytes).is_relative()
}

/// The first side sector that the slot names; None if its bytes 21 and 22 name no place of the disk.
pub(crate) fn first_side(slot: &Slot) -> Option<Place>
    ensures { MatchOption result (NamesNone slot.now.bytes 21) (λ first. Names slot.now.bytes 21 first) }
{
    EntryView::new(&slot.bytes).first_side()
}
