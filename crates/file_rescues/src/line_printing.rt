//! The line of a record, printed in a form.
ghost use Rattle.std.specs.Prelude.{◌≡◌, IfErr, OnErr, OnOk};
ghost use Rattle.std.specs.Io.KnownBytes.{Appends};
ghost use Rattle.command_faults.specs.Outputs.{HandsPart};
ghost use Rattle.file_rescues.specs.Forms as forms;
ghost use Rattle.command_faults.specs.declared.faults.CommandFault.TheVariants as faults;

use crate::forms::{ColumnForm, RecordForm};
use arrayvec::ArrayVec;
use command_faults::{CommandFault, put};
use disk_layout::DATA;
use line_text::{CharacterSet, Quoted, trim, write_fields, write_line, write_pieces};
use std::io::{self, Write};

/// Writes the line of a record as people read it.
fn write_text_line<W: Write>(
    out: &mut W,
    set: CharacterSet,
    number: u32,
    bytes: &[u8],
) -> io::Result<()>
    ensures { OnOk result (Appends (W.contents out.old) (W.contents out.new) (forms.text_line set number bytes.now)) }
{
    let bytes = trim(bytes);
    writeln!(out, "{number},{}", Quoted { set, bytes })
}

/// Writes a record as columns.
fn write_columns<W: Write>(out: &mut W, form: ColumnForm, bytes: &[u8]) -> io::Result<()>
    ensures { OnOk result (Appends (W.contents out.old) (W.contents out.new) (forms.columns_as form bytes.now)) }
{
    match form {
        ColumnForm::Fields => write_fields(out, trim(bytes)),
        ColumnForm::At(positions) => write_pieces(out, positions.as_slice(), bytes),
    }
}

/// Writes the line of a record with several columns.
fn write_columns_line<W: Write>(
    out: &mut W,
    form: ColumnForm,
    number: u32,
    bytes: &[u8],
) -> io::Result<()>
    ensures { OnOk result (Appends (W.contents out.old) (W.contents out.new)
        (forms.columns_line form number bytes.now)) }
{
    write!(out, "{number},")?;
    write_columns(out, form, bytes)?;
    out.write_all(b"\n")
}

/// Writes the line of a record in this form.
fn write_form_line<W: Write>(
    out: &mut W,
    form: RecordForm,
    number: u32,
    bytes: &ArrayVec<u8, DATA>,
) -> io::Result<()>
    ensures { OnOk result (Appends (W.contents out.old) (W.contents out.new)
        (forms.form_line form number bytes.now.items)) }
{
    match form {
        RecordForm::Lines => write_line(out, number, bytes),
        RecordForm::Text(set) => write_text_line(out, set, number, bytes.as_slice()),
        RecordForm::Columns(columns) => write_columns_line(out, columns, number, bytes.as_slice()),
    }
}

/// More bytes than the longest line has: ten digits, and 254 columns of a byte each, of six bytes.
const LINE: usize = 2048;

/// Prints the line of a record in this form. `File` if the output failed: then it has a first part of it.
pub(crate) fn print_form_line<W: Write>(
    out: &mut W,
    form: RecordForm,
    number: u32,
    bytes: &ArrayVec<u8, DATA>,
) -> Result<(), CommandFault>
    ensures ok { OnOk result (Appends (W.contents out.old) (W.contents out.new)
        (forms.form_line form number bytes.now.items)) }
    ensures part { OnErr result (HandsPart (W.contents out.old) (W.contents out.new)
        (forms.form_line form number bytes.now.items)) }
    ensures err { IfErr result (λ fault. fault ≡ faults.File) }
{
    let mut line: ArrayVec<u8, LINE> = ArrayVec::new();
    if write_form_line(&mut line, form, number, bytes).is_err() {
        return Err(CommandFault::File);
    }
    put(out, line.as_slice())
}
