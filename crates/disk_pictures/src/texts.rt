//! What is printed of a disk beside its sectors.
ghost use Rattle.std.specs.Prelude.{◌≡◌, ◌≤◌, IfSome, None, Some, if◌then◌else◌};
ghost use Rattle.disk_layout.specs.Layout.{record_length};
ghost use Rattle.disk_pictures.specs.Drawings.{file_in};
ghost use Rattle.disk_pictures.specs.Texts.{has_records, records_in};
ghost use Rattle.disk_pictures.specs.Texts.{is_fault_at as fault_at};

use crate::drawn_file::DrawnFile;
use d64_image::Place;
use disk_layout::{DATA, EntryView, Fault};

/// Whether the fault that was found is at this place.
pub(crate) fn is_fault_at(found: Option<Fault>, place: Place) -> bool
    ensures { result ≡ fault_at found place }
{
    match found {
        None => false,
        Some(fault) => place == fault.place(),
    }
}

impl DrawnFile {
    /// Whether its record length and its number of records are printed: it is relative, and has a length and a block.
    fn has_records(&self) -> bool
        ensures { result ≡ has_records (file_in self.now) }
    {
        let entry = EntryView::new(&self.slot.bytes);
        entry.is_relative() && !self.blocks.is_empty() && entry.record_length() != 0
    }

    /// Its record length and how many whole records its blocks have, if these are printed.
    pub(crate) fn records(&self) -> Option<(u8, usize)>
        ensures value { result ≡ (if has_records (file_in self.now)
            then Some (record_length self.now.slot, records_in (file_in self.now)) else None) }
        ensures few { IfSome result (λ records. records.1 ≤ 182880) }
    {
        if !self.has_records() {
            return None;
        }
        let length = EntryView::new(&self.slot.bytes).record_length();
        let bytes = DATA * self.blocks.len().saturating_sub(1) + (self.last as usize).max(1) - 1;
        Some((length, bytes / length as usize))
    }
}
