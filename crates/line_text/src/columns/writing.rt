//! Records written as columns.
ghost use Rattle.std.specs.Prelude.{◌≡◌, OnOk};
ghost use Rattle.std.specs.Io.KnownBytes.{Appends};
ghost use Rattle.line_text.specs.columns.Columns.{columns_of, fields_of, is_ended, mark_of};
ghost use Rattle.line_text.specs.columns.Columns as columns;

use crate::bytes::writing::write_text;
use std::io::{self, Write};

/// A record's bytes without the carriage return that ends its last field, and whether one does.
fn split_end(bytes: &[u8]) -> (&[u8], bool)
    ensures fields { result.0.now ≡ fields_of bytes.now }
    ensures ended { result.1 ≡ is_ended bytes.now }
{
    match bytes {
        [fields @ .., b'\r'] => (fields, true),
        _ => (bytes, false),
    }
}

/// The last column: whether a carriage return ends the last field.
fn mark(ended: bool) -> &'static [u8]
    ensures { result.now ≡ mark_of ended }
{
    if ended { b"\\." } else { b"\\-" }
}

/// Writes one byte of the fields.
fn write_piece<W: Write>(out: &mut W, byte: u8) -> io::Result<()>
    ensures { OnOk result (Appends (W.contents out.old) (W.contents out.new) (columns.piece byte)) }
{
    if byte == b'\r' {
        return out.write_all(b"\",\"");
    }
    write_text(out, &[byte])
}

/// Writes a record as columns of a file of comma-separated values (RFC 4180), without the zeros at its end. Each field,
/// which a carriage return ends, stands between quotation marks, in the text of `write_text`, which has no mark itself. A
/// last column, which is no text of bytes, says whether a carriage return ends the last field: `\.`, or `\-` if none
/// does. The caller writes the number of the record and the end of the line.
///
/// `push_columns` gives the record's text back (`columns_come_back`). An error is the writer's, which may then have a
/// part.
pub fn write_fields<W: Write>(out: &mut W, bytes: &[u8]) -> io::Result<()>
    ensures { OnOk result (Appends (W.contents out.old) (W.contents out.new) (columns_of bytes.now)) }
{
    let (fields, ended) = split_end(bytes);
    out.write_all(b"\"")?;
    for &byte in fields {
        write_piece(out, byte)?;
    }
    out.write_all(b"\",")?;
    out.write_all(mark(ended))
}
