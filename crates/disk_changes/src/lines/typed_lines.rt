//! Lines of records that are typed in the characters of a set, made lines of records.
ghost use Rattle.std.specs.Prelude.{◌≡◌, ◌≤◌, ◌++◌, ◌∷◌, ◌-◌, [], IfOk, OnOk, get_or, vec_items};
ghost use Rattle.d64_image.specs.Memory.{disk_image};
ghost use Rattle.disk_changes.specs.lines.TypedLines.{AreMadeOf, IsMadeOf, IsPushed, Pushes};
ghost use Rattle.disk_layout.specs.Records.{records};
ghost use Rattle.line_text.specs.bytes.Texts.{record_line};
ghost use Rattle.line_text.specs.scripts.Lines.{lines};
ghost use Rattle.rel_records.specs.File.{IsOf, OfItsFile};

use arrayvec::ArrayVec;
use d64_image::MemDisk;
use disk_layout::DATA;
use line_text::{
    CharacterSet, LINE_ROOM, append_line, next_line, read_typed, reads_as, text_line, trim,
};
use rel_records::{RelFile, read_record};
use std::alloc::{AllocError, Global};

/// Puts the bytes of a record into `old`, none if the file has no record of this number.
fn read_old(disk: &mut MemDisk, file: &RelFile, number: u32, old: &mut ArrayVec<u8, DATA>)
    requires of { IsOf (disk_image disk.old) file.now }
    requires low { 1 ≤ number }
    ensures same { disk_image disk.new ≡ disk_image disk.old }
    ensures old { OfItsFile (disk_image disk.old) file.now (λ l n f.
        old.new.items ≡ get_or (records (disk_image disk.old) f) (number - 1) []) }
{
    if read_record(disk, file, number, old).is_err() {
        old.clear();
    }
}

/// Appends the line of a record.
fn push_record(
    number: u32,
    bytes: &ArrayVec<u8, DATA>,
    plain: &mut Vec<u8>,
) -> Result<(), AllocError>
    ensures { OnOk result (vec_items plain.new ≡ vec_items plain.old ++ record_line number bytes.now.items) }
{
    let mut room = [0; LINE_ROOM];
    let end = append_line(number, bytes, &mut room, 0);
    plain.extend_from_slice(&room[..end])
}

/// Appends an empty line.
fn push_end(plain: &mut Vec<u8>) -> Result<(), AllocError>
    ensures { OnOk result (vec_items plain.new ≡ vec_items plain.old ++ 10 ∷ []) }
{
    plain.push(b'\n')?;
    Ok(())
}

/// Appends the line of a record that has these bytes, as this text leaves it; an empty line if the text leaves it none.
fn push_left(
    set: CharacterSet,
    number: u32,
    old: &ArrayVec<u8, DATA>,
    text: &[u8],
    plain: &mut Vec<u8>,
) -> Result<(), AllocError>
    ensures { OnOk result (IsPushed set number old.now.items text.now (vec_items plain.old) (vec_items plain.new)) }
{
    if reads_as(set, trim(old.as_slice()), text) {
        return push_record(number, old, plain);
    }
    let mut bytes = ArrayVec::new();
    if read_typed(set, text, &mut bytes) {
        return push_record(number, &bytes, plain);
    }
    push_end(plain)
}

/// Appends the line of the record that a line is of, as the line leaves the record; an empty line if it leaves none. `old` is room
/// for the record.
fn push_line(
    set: CharacterSet,
    line: &[u8],
    disk: &mut MemDisk,
    file: &RelFile,
    old: &mut ArrayVec<u8, DATA>,
    plain: &mut Vec<u8>,
) -> Result<(), AllocError>
    requires { IsOf (disk_image disk.old) file.now }
    ensures same { disk_image disk.new ≡ disk_image disk.old }
    ensures ok { OfItsFile (disk_image disk.old) file.now (λ l n f. OnOk result (Pushes (vec_items plain.old) (vec_items plain.new)
        (IsMadeOf set (records (disk_image disk.old) f) line.now))) }
{
    let Some((number, text)) = text_line(line) else {
        return push_end(plain);
    };
    read_old(disk, file, number, old);
    push_left(set, number, old, text, plain)
}

/// The lines of a text that is typed in the characters of this set, over the records of a file, as lines that `store_image` reads. A
/// line that reads as its record reads already, as `records_image` shows it, gives the record as it is. Any other line gives the bytes
/// that a keyboard gives for its text. A line that gives none is an empty line, which `store_image` refuses with its number. The disk
/// is only read.
pub(crate) fn typed_lines(
    alloc: Global,
    set: CharacterSet,
    text: &[u8],
    disk: &mut MemDisk,
    file: &RelFile,
) -> Result<Vec<u8>, AllocError>
    requires { IsOf (disk_image disk.old) file.now }
    ensures { OfItsFile (disk_image disk.old) file.now (λ l n f. IfOk result (λ plain.
        AreMadeOf set (records (disk_image disk.old) f) (lines text.now) (vec_items plain))) }
{
    let mut plain = Vec::new(alloc);
    let mut old = ArrayVec::new();
    let mut rest = text;
    while let Some((line, more)) = next_line(rest) {
        push_line(set, line, disk, file, &mut old, &mut plain)?;
        rest = more;
    }
    Ok(plain)
}
