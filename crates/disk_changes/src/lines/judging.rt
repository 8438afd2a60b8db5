//! Lines of records, checked before any is stored.
ghost use Rattle.std.specs.Prelude.{◌≡◌, ◌↔◌, ◌≤◌, length, [], ℕ, List, IfErr, IfOk, IfSome, IsNone, IsTrue};
ghost use Rattle.line_text.specs.bytes.Lines.{IsLineOf};
ghost use Rattle.line_text.specs.bytes.Texts.{AreBytes};
ghost use Rattle.disk_changes.specs.lines.Stores.{AreLinesOf, CanHave, CanStore, IsFirstBad, NewRecord, TellsLast};
ghost use Rattle.disk_changes.specs.lines.Stores.{greatest, new_record};
ghost use Rattle.command_faults.specs.declared.faults.CommandFault.TheVariants as faults;
ghost use Rattle.rel_records.specs.File.{length_of, records_in};
ghost use Rattle.line_text.specs.scripts.Lines.{lines};

use crate::lines::last_lines::LastLines;
use arrayvec::ArrayVec;
use command_faults::CommandFault;
use disk_layout::DATA;
use line_text::{next_line, read_line};
use rel_records::{RelFile, blocks_for, has_records};

/// Whether the file has this record, or can have it.
fn can_have(file: &RelFile, number: u32) -> bool
    ensures { IsTrue result ↔ CanHave (length_of file.now) (records_in file.now) number }
{
    has_records(file, number) || blocks_for(number, file.length()).is_some()
}

/// Whether a record of the file has room for these bytes, each of which is below 256.
fn has_room(file: &RelFile, bytes: &[u8]) -> bool
    ensures room { IsTrue result ↔ (length bytes.now ≤ length_of file.now) }
    ensures bytes { AreBytes bytes.now }
{
    bytes.len() <= file.length() as usize
}

/// The number of the record that the line is of, if the file has this record or can have it, and its bytes fit. `bytes`
/// is room for them.
fn number_of(line: &[u8], file: &RelFile, bytes: &mut ArrayVec<u8, DATA>) -> Option<u32>
    ensures found { IfSome result (λ number. (bs : List ℕ) × IsLineOf line.now number bs
        × CanStore (length_of file.now) (records_in file.now) (new_record number bs)) }
    ensures none { IsNone result → (x : NewRecord) → CanStore (length_of file.now) (records_in file.now) x
        → ¬ (IsLineOf line.now x.number x.bytes) }
{
    let number = read_line(line, bytes)?;
    if !has_room(file, bytes.as_slice()) {
        return None;
    }
    if !can_have(file, number) {
        return None;
    }
    Some(number)
}

/// Checks the lines of the text, and returns the greatest of their numbers, 0 if there is no line. For each record the
/// last line is counted in `last`, in which there was none before. `BadLine` for the first line that is of no record that
/// the file has or can have.
pub(crate) fn check_lines(
    text: &[u8],
    file: &RelFile,
    last: &mut LastLines,
) -> Result<u32, CommandFault>
    requires { TellsLast last.old.places.items [] }
    ensures ok { IfOk result (λ most. (xs : List NewRecord)
        × AreLinesOf (length_of file.now) (records_in file.now) (lines text.now) xs × (most ≡ greatest xs)
        × TellsLast last.new.places.items xs) }
    ensures err { IfErr result (λ fault. (k : ℕ) × (fault ≡ faults.RecordsLine k)
        × IsFirstBad (length_of file.now) (records_in file.now) (lines text.now) k) }
{
    let mut most = 0;
    let mut count = 0;
    let mut bytes = ArrayVec::new();
    let mut rest = text;
    while let Some((line, more)) = next_line(rest) {
        count += 1;
        let Some(number) = number_of(line, file, &mut bytes) else {
            return Err(CommandFault::RecordsLine(count));
        };
        last.count(number, count);
        if number > most {
            most = number;
        }
        rest = more;
    }
    Ok(most)
}
