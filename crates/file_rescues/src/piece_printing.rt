//! The records among the bytes of a relative file, as they are printed.
ghost use Rattle.std.specs.Prelude.{◌≡◌, ◌≤◌, ◌+◌, IfErr, IfOk, OnErr, OnOk, length, take};
ghost use Rattle.std.specs.Io.KnownBytes.{Appends};
ghost use Rattle.command_faults.specs.Outputs.{HandsOn, HandsPart};
ghost use Rattle.command_faults.specs.declared.faults.CommandFault.TheVariants as faults;
ghost use Rattle.file_rescues.specs.Forms.{form_line, form_lines_to, records_as};
ghost use Rattle.file_rescues.specs.Records.{records_of, records_text};

use crate::forms::RecordForm;
use crate::line_printing::print_form_line;
use arrayvec::ArrayVec;
use command_faults::{CommandFault, put};
use disk_layout::DATA;
use line_text::{LINE_ROOM, append_line};
use std::io::Write;

/// Puts the bytes of a record into this room, in place of what it had.
fn refill(room: &mut ArrayVec<u8, DATA>, bytes: &[u8])
    requires { length bytes.now ≤ 254 }
    ensures { room.new.items ≡ bytes.now }
{
    room.clear();
    let _ = room.try_extend_from_slice(bytes);
}

/// Prints the line of a record.
fn print_piece<W: Write>(
    out: &mut W,
    form: RecordForm,
    number: u32,
    piece: &[u8],
) -> Result<(), CommandFault>
    requires { length piece.now ≤ 254 }
    ensures ok { OnOk result (Appends (W.contents out.old) (W.contents out.new) (form_line form number piece.now)) }
    ensures part { OnErr result (HandsPart (W.contents out.old) (W.contents out.new)
        (form_line form number piece.now)) }
    ensures err { IfErr result (λ fault. fault ≡ faults.File) }
{
    let mut bytes = ArrayVec::new();
    refill(&mut bytes, piece);
    print_form_line(out, form, number, &bytes)
}

/// Prints a line in this form for each whole record of `size` bytes, record 1 first, one after another.
fn print_each<W: Write>(
    out: &mut W,
    form: RecordForm,
    bytes: &[u8],
    size: usize,
) -> Result<(), CommandFault>
    requires low { 1 ≤ size }
    requires high { size ≤ 254 }
    requires short { length bytes.now ≤ 203708 }
    ensures ok { OnOk result (Appends (W.contents out.old) (W.contents out.new)
        (form_lines_to form (records_of size bytes.now) (length (records_of size bytes.now)))) }
    ensures part { OnErr result (HandsPart (W.contents out.old) (W.contents out.new)
        (form_lines_to form (records_of size bytes.now) (length (records_of size bytes.now)))) }
    ensures err { IfErr result (λ fault. fault ≡ faults.File) }
{
    let count = (bytes.len() / size) as u32;
    for before in 0..count {
        let start = before as usize * size;
        print_piece(out, form, before + 1, &bytes[start..start + size])?;
    }
    Ok(())
}

/// The room where lines are gathered, so that many are handed on at once.
const ROOM: usize = 4096;

/// Passes the first `used` bytes of the room on, if the longest line may find no room after them. Returns how many of its
/// bytes still count.
fn hand_on<W: Write>(out: &mut W, room: &[u8; ROOM], used: usize) -> Result<usize, CommandFault>
    requires { used ≤ 4096 }
    ensures room { IfOk result (λ start. start + 776 ≤ 4096) }
    ensures ok { IfOk result (λ start. HandsOn (W.contents out.old) (W.contents out.new) (take used room.now)
        (take start room.now)) }
    ensures part { OnErr result (HandsPart (W.contents out.old) (W.contents out.new) (take used room.now)) }
    ensures err { IfErr result (λ fault. fault ≡ faults.File) }
{
    if used <= ROOM - LINE_ROOM {
        return Ok(used);
    }
    put(out, &room[..used])?;
    Ok(0)
}

/// Prints the plain line of each whole record of `size` bytes, record 1 first. Lines are gathered, so that many are handed
/// on at once.
fn print_gathered<W: Write>(out: &mut W, bytes: &[u8], size: usize) -> Result<(), CommandFault>
    requires low { 1 ≤ size }
    requires high { size ≤ 254 }
    requires short { length bytes.now ≤ 203708 }
    ensures ok { OnOk result (Appends (W.contents out.old) (W.contents out.new)
        (records_text (records_of size bytes.now))) }
    ensures part { OnErr result (HandsPart (W.contents out.old) (W.contents out.new)
        (records_text (records_of size bytes.now))) }
    ensures err { IfErr result (λ fault. fault ≡ faults.File) }
{
    let count = (bytes.len() / size) as u32;
    let mut record = ArrayVec::new();
    let mut room = [0; ROOM];
    let mut end = 0;
    for before in 0..count {
        let start = hand_on(out, &room, end)?;
        let from = before as usize * size;
        refill(&mut record, &bytes[from..from + size]);
        end = append_line(before + 1, &record, &mut room, start);
    }
    put(out, &room[..end])
}

/// Prints a line in this form for each whole record of `size` bytes, record 1 first. `File` if the output failed: then it
/// has a first part of them.
pub fn print_pieces<W: Write>(
    out: &mut W,
    form: RecordForm,
    bytes: &[u8],
    size: usize,
) -> Result<(), CommandFault>
    requires low { 1 ≤ size }
    requires high { size ≤ 254 }
    requires short { length bytes.now ≤ 203708 }
    ensures ok { OnOk result (Appends (W.contents out.old) (W.contents out.new)
        (records_as form (records_of size bytes.now))) }
    ensures part { OnErr result (HandsPart (W.contents out.old) (W.contents out.new)
        (records_as form (records_of size bytes.now))) }
    ensures err { IfErr result (λ fault. fault ≡ faults.File) }
{
    match form {
        RecordForm::Lines => print_gathered(out, bytes, size),
        RecordForm::Text(_) => print_each(out, form, bytes, size),
        RecordForm::Columns(_) => print_each(out, form, bytes, size),
    }
}
