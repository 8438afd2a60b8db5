//! Records stored from their lines in a relative file.
ghost use Rattle.std.specs.Prelude.{◌≡◌, ◌≢◌, ◌≤◌, ℕ, List, IfErr, IfSome, IsNone, OnErr, OnOk, length, slice_index};
ghost use Rattle.std.specs.Io.KnownBytes.{Appends};
ghost use Rattle.line_text.specs.bytes.Lines.{IsLineOf};
ghost use Rattle.line_text.specs.bytes.Texts.{record_line};
ghost use Rattle.command_faults.specs.Outputs.{HandsPart};
ghost use Rattle.disk_changes.specs.lines.Stores.{
  AreLinesOf,
  CanStore,
  NewRecord,
  TellsLast,
  greatest,
  if_last,
  last_ones,
  new_record,
};
ghost use Rattle.disk_changes.specs.lines.Storing.{StoresLines, StoresOne};
ghost use Rattle.command_faults.specs.declared.faults.CommandFault.TheVariants as faults;
ghost use Rattle.rel_records.specs.File.{IsOf, OfItsFile, length_of, records_in};
ghost use Rattle.rel_records.specs.Usable.{IsUsable};
ghost use Rattle.line_text.specs.scripts.Lines.{lines};

use crate::lines::last_lines::LastLines;
use arrayvec::ArrayVec;
use command_faults::{CommandFault, put};
use d64_image::Sectors;
use disk_layout::DATA;
use line_text::{LINE_ROOM, append_line, next_line, read_line, trim};
use rel_records::{RelFile, read_record, write_record};
use std::io::Write;

/// Stores a record that is there, if it differs: the bytes, and zeros after them. Returns whether it differed.
fn store_record<D: Sectors>(
    disk: &mut D,
    file: &mut RelFile,
    number: u32,
    bytes: &[u8],
) -> Result<bool, CommandFault>
    requires usable { IsUsable (D.history.image disk.old) }
    requires of { IsOf (D.history.image disk.old) file.old }
    requires low { 1 ≤ number }
    requires high { number ≤ records_in file.old }
    requires short { length bytes.now ≤ length_of file.old }
    ensures { OfItsFile (D.history.image disk.old) file.old (λ l n f.
        StoresOne D.history disk.old disk.new l n f file.old file.new (new_record number bytes.now) result) }
{
    let mut old = ArrayVec::new();
    if read_record(disk, file, number, &mut old).is_err() {
        return Err(CommandFault::Device);
    }
    if trim(old.as_slice()) == trim(bytes) {
        return Ok(false);
    }
    if write_record(disk, file, number, 1, bytes).is_err() {
        return Err(CommandFault::Device);
    }
    Ok(true)
}

/// Prints the line of a record. `File` if the output failed: then it has a first part of it.
fn print_record<W: Write>(
    out: &mut W,
    number: u32,
    bytes: &ArrayVec<u8, DATA>,
) -> Result<(), CommandFault>
    ensures ok { OnOk result (Appends (W.contents out.old) (W.contents out.new) (record_line number bytes.now.items)) }
    ensures part { OnErr result (HandsPart (W.contents out.old) (W.contents out.new)
        (record_line number bytes.now.items)) }
    ensures err { IfErr result (λ fault. fault ≡ faults.File) }
{
    let mut room = [0; LINE_ROOM];
    let end = append_line(number, bytes, &mut room, 0);
    put(out, &room[..end])
}

/// The number of the record that the line at this place is of, and in `bytes` its bytes, if it is the last line of that
/// record.
fn read_last(
    line: &[u8],
    place: usize,
    last: &LastLines,
    bytes: &mut ArrayVec<u8, DATA>,
) -> Option<u32>
    ensures found { IfSome result (λ n. (1 ≤ n) × (n ≤ 182880) × IsLineOf line.now n bytes.new.items
        × (slice_index last.now.places.items n ≡ place)) }
    ensures none { IsNone result → (h L : ℕ) (x : NewRecord) → L ≤ 254 → IsLineOf line.now x.number x.bytes
        → CanStore L h x
        → slice_index last.now.places.items x.number ≢ place }
{
    let number = read_line(line, bytes)?;
    if !last.is_last(number, place) {
        return None;
    }
    Some(number)
}

/// Stores the record that the line at this place is of, which is there, if it is the last line of that record. Prints its
/// line if the record changed. `bytes` is room for it.
fn store_line<D: Sectors, W: Write>(
    disk: &mut D,
    file: &mut RelFile,
    line: &[u8],
    place: usize,
    last: &LastLines,
    bytes: &mut ArrayVec<u8, DATA>,
    out: &mut W,
) -> Result<(), CommandFault>
    requires usable { IsUsable (D.history.image disk.old) }
    requires of { IsOf (D.history.image disk.old) file.old }
    requires line { (h : ℕ) × (x : NewRecord) × IsLineOf line.now x.number x.bytes × CanStore (length_of file.old) h x
        × (x.number ≤ records_in file.old) }
    ensures { OfItsFile (D.history.image disk.old) file.old (λ l n f.
        (h : ℕ) (x : NewRecord) → IsLineOf line.now x.number x.bytes → CanStore (length_of file.old) h x
        → x.number ≤ records_in file.old
        → StoresLines D.history W.contents disk.old disk.new out.old out.new l n f file.old file.new
        (if_last last.now.places.items place x) result) }
{
    let Some(number) = read_last(line, place, last, bytes) else {
        return Ok(());
    };
    if !store_record(disk, file, number, bytes.as_slice())? {
        return Ok(());
    }
    print_record(out, number, bytes)
}

/// Stores the records of the text's lines, which are all there, in order, of each record its last line, and prints the
/// lines of those that were otherwise.
pub(crate) fn store_lines<D: Sectors, W: Write>(
    disk: &mut D,
    file: &mut RelFile,
    text: &[u8],
    last: &LastLines,
    out: &mut W,
) -> Result<(), CommandFault>
    requires usable { IsUsable (D.history.image disk.old) }
    requires of { IsOf (D.history.image disk.old) file.old }
    requires lines { (h : ℕ) × (xs : List NewRecord) × AreLinesOf (length_of file.old) h (lines text.now) xs
        × (greatest xs ≤ records_in file.old) × TellsLast last.now.places.items xs }
    ensures { OfItsFile (D.history.image disk.old) file.old (λ l n f.
        (h : ℕ) (xs : List NewRecord) → AreLinesOf (length_of file.old) h (lines text.now) xs
        → greatest xs ≤ records_in file.old → TellsLast last.now.places.items xs
        → StoresLines D.history W.contents disk.old disk.new out.old out.new l n f file.old file.new
        (last_ones xs) result) }
{
    let mut place = 0;
    let mut bytes = ArrayVec::new();
    let mut rest = text;
    while let Some((line, more)) = next_line(rest) {
        place += 1;
        store_line(disk, file, line, place, last, &mut bytes, out)?;
        rest = more;
    }
    Ok(())
}
