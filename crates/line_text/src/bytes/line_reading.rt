//! Records read from lines: a number, a comma, and the text of the bytes, with or without its quotation marks.
ghost use Rattle.std.specs.Prelude.{◌≡◌, ◌⊎◌, ◌<◌, ◌≤◌, ℕ, List, IfSome, IsFalse, IsNone, IsTrue, false, length, true};
ghost use Rattle.line_text.specs.bytes.Lines as lines;
ghost use Rattle.line_text.specs.bytes.Lines.{IsLineOf, IsQuoted};
ghost use Rattle.line_text.specs.bytes.Texts.{AreBytes};

use crate::bytes::reading::{MOST_BYTES, fill_from};
use crate::digits::number_before_comma;
use arrayvec::ArrayVec;

/// The greatest number that a line can have: the 720 blocks that a file's side sectors can name would have 182,880
/// records of one byte. A disk of 35 tracks has room for 167,132.
pub(crate) const LAST_RECORD: u32 = 182_880;

/// The bytes between quotation marks, if there are two at the ends. Otherwise all bytes.
fn unquoted(text: &[u8]) -> &[u8]
    ensures { IsQuoted text.now result.now
        ⊎ ((result.now ≡ text.now) × ((inner : List ℕ) → ¬ (IsQuoted text.now inner))) }
{
    match text {
        [b'"', inner @ .., b'"'] => inner,
        _ => text,
    }
}

/// Whether the text has a comma.
fn has_comma(text: &[u8]) -> bool
    ensures { result ≡ lines.has_comma text.now }
{
    text.contains(&b',')
}

/// Whether the text is one column: it had quotation marks, so that `inner` is shorter, or it has no comma.
fn is_one_column(text: &[u8], inner: &[u8]) -> bool
    ensures yes { IsTrue result → (length inner.now < length text.now) ⊎ (lines.has_comma text.now ≡ false) }
    ensures no { IsFalse result → (length text.now ≤ length inner.now) × (lines.has_comma text.now ≡ true) }
{
    inner.len() < text.len() || !has_comma(text)
}

/// Returns the number of a record's line, which is passed without its end, and puts the record's bytes into `bytes`.
/// The two quotation marks may be left out, as spreadsheets do, and the bytes may end in zeros.
///
/// None if the line is of no record; `bytes` may then hold anything. A record's line begins with a number of 1 to
/// 182,880, without leading zeros, and a comma. The text of at most 254 bytes follows. Without quotation marks the text
/// may not have a comma: it would be several columns.
pub fn read_line(line: &[u8], bytes: &mut ArrayVec<u8, MOST_BYTES>) -> Option<u32>
    ensures found { IfSome result (λ n. (1 ≤ n) × (n ≤ 182880) × IsLineOf line.now n bytes.new.items) }
    ensures none { IsNone result → (n : ℕ) → (bs : List ℕ) → 1 ≤ n → n ≤ 182880 → AreBytes bs → length bs ≤ 254
        → ¬ (IsLineOf line.now n bs) }
{
    let (number, text) = number_before_comma(line, 1, LAST_RECORD)?;
    let inner = unquoted(text);
    if !is_one_column(text, inner) {
        return None;
    }
    if !fill_from(inner, bytes) {
        return None;
    }
    Some(number)
}
