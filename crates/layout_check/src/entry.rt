//! What a used slot of the directory shows by itself: its type and its record length.
ghost use Rattle.std.specs.Prelude.{IfErr, OnOk};
ghost use Rattle.layout_check.specs.Entry.{IsProper, IsShown};

use disk_layout::{EntryView, Fault, Slot};

/// Checks the type of a used slot, and for a relative entry its record length, which is 1 to 254.
pub(crate) fn judge_entry(slot: &Slot) -> Result<(), Fault>
    ensures ok { OnOk result (IsProper slot.now) }
    ensures err { IfErr result (IsShown slot.now) }
{
    let entry = EntryView::new(&slot.bytes);
    match entry.type_byte() {
        // bit 7, closed, is clear
        0..=127 => return Err(Fault::Unclosed(slot.sector)),
        // DEL, SEQ, PRG, USR and REL; then the same with bit 6, locked
        128..=132 | 192..=196 => {}
        _ => return Err(Fault::BadType(slot.sector)),
    }
    if entry.is_relative() && matches!(entry.record_length(), 0 | 255) {
        return Err(Fault::BadLength(slot.sector));
    }
    Ok(())
}
