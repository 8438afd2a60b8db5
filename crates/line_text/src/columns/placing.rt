//! Columns read as the pieces of one record, each at its position.
ghost use Rattle.std.specs.Prelude.{◌≡◌, ◌≤◌, ◌-◌, ◌+◌, ◌++◌, ◌∷◌, [], IfOk, OnOk, false, if◌then◌else◌, length};
ghost use Rattle.std.specs.Prelude.{nat_eq, replicate, vec_items};
ghost use Rattle.line_text.specs.bytes.Texts.{text_of};
ghost use Rattle.line_text.specs.columns.Marks as marks;
ghost use Rattle.line_text.specs.columns.Pieces as pieces;
ghost use Rattle.line_text.specs.columns.Pieces.{byte_count, columns_after, cut, end_after, pieces_text, placed};

use std::alloc::AllocError;

/// Appends a quotation mark, which stands for a column that has no place: no text of bytes has one.
fn push_mark(text: &mut Vec<u8>) -> Result<(), AllocError>
    ensures { OnOk result (vec_items text.new ≡ vec_items text.old ++ 34 ∷ []) }
{
    text.extend_from_slice(b"\"")
}

/// Whether the byte ends a column: it is a comma, and no quotation mark is open.
fn ends_column(marked: bool, byte: u8) -> bool
    ensures { result ≡ pieces.ends_column marked byte }
{
    !marked && byte == b','
}

/// Whether a mark is open after the byte.
fn toggled(marked: bool, byte: u8) -> bool
    ensures { result ≡ pieces.toggled marked byte }
{
    if byte == b'"' { !marked } else { marked }
}

/// The first column of a line, with its marks, and the line after its comma, if there is one.
fn first_column(line: &[u8]) -> (&[u8], Option<&[u8]>)
    ensures { cut false line.now ≡ result.0.now ∷ columns_after result.1 }
{
    let mut marked = false;
    for (end, &byte) in line.iter().enumerate() {
        if ends_column(marked, byte) {
            return (&line[..end], Some(&line[end + 1..]));
        }
        marked = toggled(marked, byte);
    }
    (line, None)
}

/// A column without its quotation marks, if it has them at both ends.
pub(crate) fn without_marks(column: &[u8]) -> &[u8]
    ensures { result.now ≡ marks.without_marks column.now }
{
    match column {
        [b'"', inner @ .., b'"'] => inner,
        _ => column,
    }
}

/// How many digits stand after a byte of a text.
fn digits_after(byte: u8) -> usize
    ensures { result ≡ (if nat_eq byte 92 then 2 else 0) }
{
    if byte == b'\\' { 2 } else { 0 }
}

/// How many bytes a text stands for: a backslash and two digits are one. More than a record has if it ends within one.
fn count_bytes(text: &[u8]) -> usize
    ensures count { result ≡ byte_count 0 text.now }
    ensures high { result ≤ length text.now + 255 }
{
    let mut count = 0;
    let mut digits: usize = 0;
    for &byte in text {
        if digits > 0 {
            digits -= 1;
        } else {
            count += 1;
            digits = digits_after(byte);
        }
    }
    if digits > 0 { count + 255 } else { count }
}

/// Appends the text of so many zeros.
fn push_zeros(text: &mut Vec<u8>, count: usize) -> Result<(), AllocError>
    ensures { OnOk result (vec_items text.new ≡ vec_items text.old ++ text_of (replicate count 0)) }
{
    for _ in 0..count {
        text.extend_from_slice(b"\\00")?;
    }
    Ok(())
}

/// Appends the text of a piece, after the zeros up to its position; `end` bytes of the record stand before. Returns how
/// many there are then. An empty piece adds nothing.
fn push_piece(text: &mut Vec<u8>, end: usize, start: u8, piece: &[u8]) -> Result<usize, AllocError>
    ensures after { IfOk result (λ after. after ≡ end_after end start piece.now) }
    ensures text { OnOk result (vec_items text.new ≡ vec_items text.old ++ placed end start piece.now) }
{
    if piece.is_empty() {
        return Ok(end);
    }
    let before = usize::from(start).saturating_sub(1);
    push_zeros(text, before.saturating_sub(end))?;
    text.extend_from_slice(piece)?;
    Ok(before + count_bytes(piece))
}

/// Appends what the end of a line gives: nothing, if the next piece begins after these bytes or if there is none.
fn end_line(text: &mut Vec<u8>, end: usize, starts: &[u8]) -> Result<(), AllocError>
    ensures { OnOk result (vec_items text.new ≡ vec_items text.old ++ pieces.joined_at end starts.now []) }
{
    let [start, ..] = starts else {
        return Ok(());
    };
    if end >= usize::from(*start) {
        return push_mark(text);
    }
    Ok(())
}

/// Appends the text, as `write_text` writes it, of the record whose pieces at these positions are these columns. A column
/// may stand between quotation marks or not, but one that has a comma stands between them. The line is passed without its
/// number, the comma after that, and its end. If it has fewer columns than there are positions, the record ends there.
///
/// If it has more columns, or a piece goes beyond the next position, the text is one that no bytes have. So it is if the
/// text of a piece is none of bytes. An error leaves a part of the text.
pub fn push_pieces(starts: &[u8], line: &[u8], text: &mut Vec<u8>) -> Result<(), AllocError>
    ensures { OnOk result (vec_items text.new ≡ vec_items text.old ++ pieces_text starts.now line.now) }
{
    let mut positions = starts;
    let mut rest = Some(line);
    let mut end = 0;
    while let Some(columns) = rest {
        let [start, more @ ..] = positions else {
            return push_mark(text);
        };
        if end >= usize::from(*start) {
            return push_mark(text);
        }
        let (column, behind) = first_column(columns);
        end = push_piece(text, end, *start, without_marks(column))?;
        positions = more;
        rest = behind;
    }
    end_line(text, end, positions)
}
