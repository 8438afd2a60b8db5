//! Lines with several columns, made lines of records.
ghost use Rattle.std.specs.Prelude.{◌≡◌, ◌++◌, IfOk, OnOk, vec_items};
ghost use Rattle.disk_changes.specs.lines.ColumnLines.{one_column, plain_line, plain_text};
ghost use Rattle.disk_changes.specs.lines.ColumnLines as lines;

use file_rescues::ColumnForm;
use line_text::{next_line, push_columns, push_pieces};
use std::alloc::{AllocError, Global};

/// Appends the text of the record that has these columns.
fn push_record(form: ColumnForm, columns: &[u8], text: &mut Vec<u8>) -> Result<(), AllocError>
    ensures { OnOk result (vec_items text.new ≡ vec_items text.old ++ lines.record_text form columns.now) }
{
    match form {
        ColumnForm::Fields => push_columns(columns, text),
        ColumnForm::At(positions) => push_pieces(positions.as_slice(), columns, text),
    }
}

/// Appends what stands after the number of a line: one column for these.
fn push_column(form: ColumnForm, columns: &[u8], text: &mut Vec<u8>) -> Result<(), AllocError>
    ensures { OnOk result (vec_items text.new ≡ vec_items text.old ++ one_column form columns.now) }
{
    text.extend_from_slice(b",\"")?;
    push_record(form, columns, text)?;
    text.extend_from_slice(b"\"")
}

/// Appends a line with one column for those after its number.
fn push_line(form: ColumnForm, line: &[u8], text: &mut Vec<u8>) -> Result<(), AllocError>
    ensures { OnOk result (vec_items text.new ≡ vec_items text.old ++ plain_line form line.now) }
{
    let mut rest = line;
    while let [byte, behind @ ..] = rest {
        if *byte == b',' {
            return push_column(form, behind, text);
        }
        text.push(*byte)?;
        rest = behind;
    }
    Ok(())
}

/// The lines of a text with several columns (`RecordForm::Columns`), or as a spreadsheet saves them, as lines that
/// `store_image` reads. Each is of the record that the line is of, with all its bytes in one column. A line that has no
/// such columns gives one that `store_image` refuses, so that it is refused with its number.
pub fn plain_lines(alloc: Global, form: ColumnForm, text: &[u8]) -> Result<Vec<u8>, AllocError>
    ensures { IfOk result (λ plain. vec_items plain ≡ plain_text form text.now) }
{
    let mut plain = Vec::new(alloc);
    let mut rest = text;
    while let Some((line, more)) = next_line(rest) {
        push_line(form, line, &mut plain)?;
        plain.push(b'\n')?;
        rest = more;
    }
    Ok(plain)
}
