//! Columns read as the text of one record, however long it is.
ghost use Rattle.std.specs.Prelude.{◌≡◌, ◌≤◌, ◌++◌, OnOk, length, vec_items};
ghost use Rattle.line_text.specs.columns.Columns as columns;
ghost use Rattle.line_text.specs.columns.Columns.{
  columns_text,
  fields_text,
  given,
  given_at_end,
  marked_text,
};

use crate::columns::placing::without_marks;
use std::alloc::AllocError;

/// The state of a column.
#[derive(Clone, Copy, Debug, PartialEq, Eq)]
pub enum Column {
    /// At its beginning.
    Start,
    /// In a column without quotation marks.
    Plain,
    /// Between its quotation marks.
    Quoted,
    /// After the second one.
    Closed,
}

impl Column {
    ghost use Rattle.line_text.specs.columns.Columns.{next_column};

    /// The state after this byte.
    fn after(self, byte: u8) -> Column
        ensures { result ≡ next_column self byte }
    {
        match (self, byte) {
            (Column::Start, b'"') => Column::Quoted,
            (Column::Quoted, b'"') => Column::Closed,
            (Column::Quoted, _) => Column::Quoted,
            (_, b',') => Column::Start,
            _ => Column::Plain,
        }
    }
}

/// The text of a carriage return.
const RETURN: &[u8] = b"\\0d";

/// Appends what this byte of a column gives of the text.
fn push_given(text: &mut Vec<u8>, column: Column, byte: u8) -> Result<(), AllocError>
    ensures { OnOk result (vec_items text.new ≡ vec_items text.old ++ given column byte) }
{
    match (column, byte) {
        (Column::Start | Column::Quoted, b'"') => Ok(()),
        (Column::Quoted, _) => text.extend_from_slice(&[byte]),
        (_, b',') => text.extend_from_slice(RETURN),
        (Column::Closed, _) => text.extend_from_slice(&[b'"', byte]),
        _ => text.extend_from_slice(&[byte]),
    }
}

/// Appends what the end of the columns gives of the text.
fn push_end(text: &mut Vec<u8>, column: Column) -> Result<(), AllocError>
    ensures { OnOk result (vec_items text.new ≡ vec_items text.old ++ given_at_end column) }
{
    match column {
        Column::Quoted => text.extend_from_slice(b"\""),
        _ => Ok(()),
    }
}

/// Appends the text of the fields that these columns are.
fn push_fields(line: &[u8], text: &mut Vec<u8>) -> Result<(), AllocError>
    ensures { OnOk result (vec_items text.new ≡ vec_items text.old ++ fields_text Column.Start line.now) }
{
    let mut column = Column::Start;
    for &byte in line {
        push_given(text, column, byte)?;
        column = column.after(byte);
    }
    push_end(text, column)
}

/// Whether the byte is a comma, or is none.
fn is_one(commas: bool, byte: u8) -> bool
    ensures { result ≡ columns.is_one commas byte }
{
    if commas { byte == b',' } else { byte != b',' }
}

/// How many bytes stand before the commas at the end of a line, or before those at its end that are none.
fn end_before(commas: bool, line: &[u8]) -> usize
    ensures high { result ≤ length line.now }
    ensures is { result ≡ columns.end_before commas line.now }
{
    let mut end = line.len();
    while end > 0 && is_one(commas, line[end - 1]) {
        end -= 1;
    }
    end
}

/// Appends the text of the record with these columns before its last one.
fn push_marked(columns: &[u8], mark: &[u8], text: &mut Vec<u8>) -> Result<(), AllocError>
    ensures { OnOk result (vec_items text.new ≡ vec_items text.old ++ marked_text columns.now mark.now) }
{
    match mark {
        [b'\\', b'.'] => {
            push_fields(columns, text)?;
            text.extend_from_slice(RETURN)
        }
        [b'\\', b'-'] => push_fields(columns, text),
        _ => text.extend_from_slice(b"\""),
    }
}

/// Appends the text, as `write_text` writes it, of the record that these columns stand for: its fields, each with a
/// carriage return at its end, and a last column, `\.`, or `\-` if none ends the last field. The line is passed without
/// its number, the comma after that, and its end. A column may stand between quotation marks or not, but one that has a
/// comma stands between them. Commas at the end of the line, as of empty columns that a spreadsheet adds, change nothing.
///
/// For bytes that no columns give, and if the last column is missing, the text is one that no bytes have. An error leaves
/// a part of the text.
pub fn push_columns(line: &[u8], text: &mut Vec<u8>) -> Result<(), AllocError>
    ensures { OnOk result (vec_items text.new ≡ vec_items text.old ++ columns_text line.now) }
{
    let line = &line[..end_before(true, line)];
    let start = end_before(false, line);
    if start == 0 {
        return text.extend_from_slice(b"\"");
    }
    push_marked(&line[..start - 1], without_marks(&line[start..]), text)
}
