//! Records cut at fixed positions, written as columns.
ghost use Rattle.std.specs.Prelude.{◌≡◌, ◌-◌, OnOk, drop, slice_range};
ghost use Rattle.std.specs.Io.KnownBytes.{Appends};
ghost use Rattle.line_text.specs.bytes.Texts.{trimmed};
ghost use Rattle.line_text.specs.columns.Columns.{quoted};
ghost use Rattle.line_text.specs.columns.Pieces.{piece_columns};

use crate::bytes::trimming::trim;
use crate::bytes::writing::write_text;
use std::io::{self, Write};

/// The bytes from this one on, which counts from 0. None if the record has fewer.
fn bytes_from(bytes: &[u8], start: usize) -> &[u8]
    ensures { result.now ≡ drop start bytes.now }
{
    &bytes[start.min(bytes.len())..]
}

/// The bytes between two positions, as far as the record has them.
fn bytes_between(bytes: &[u8], start: u8, next: u8) -> &[u8]
    ensures { result.now ≡ slice_range bytes.now (start - 1) (next - 1) }
{
    let start = usize::from(start).saturating_sub(1);
    let next = usize::from(next).saturating_sub(1);
    let rest = bytes_from(bytes, start);
    &rest[..next.saturating_sub(start).min(rest.len())]
}

/// Writes a piece as a column, without the zeros at its end.
fn write_column<W: Write>(out: &mut W, piece: &[u8]) -> io::Result<()>
    ensures { OnOk result (Appends (W.contents out.old) (W.contents out.new) (quoted (trimmed piece.now))) }
{
    out.write_all(b"\"")?;
    write_text(out, trim(piece))?;
    out.write_all(b"\"")
}

/// Writes a record as columns: the bytes from each of these positions up to the next one, without the zeros at their end.
/// The positions count from 1. Where the record has ended, a column is empty. Each column is the text of `write_text`
/// between quotation marks. The caller writes the number of the record and the end of the line.
///
/// `push_pieces` gives the record's text back (`positions_come_back`). An error is the writer's, which may then have a
/// part.
pub fn write_pieces<W: Write>(out: &mut W, starts: &[u8], bytes: &[u8]) -> io::Result<()>
    ensures { OnOk result (Appends (W.contents out.old) (W.contents out.new) (piece_columns starts.now bytes.now)) }
{
    let mut rest = starts;
    while let [start, next, ..] = rest {
        write_column(out, bytes_between(bytes, *start, *next))?;
        out.write_all(b",")?;
        rest = &rest[1..];
    }
    match rest {
        [start, ..] => write_column(
            out,
            bytes_from(bytes, usize::from(*start).saturating_sub(1)),
        ),
        [] => Ok(()),
    }
}
