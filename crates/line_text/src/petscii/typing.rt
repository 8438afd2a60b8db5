//! Text of PETSCII that is typed, as the bytes that a keyboard gives for the text, and lines of records that have such text.
ghost use Rattle.std.specs.Prelude.{◌≡◌, ◌≢◌, ◌⊎◌, ◌↔◌, ◌<◌, ◌≤◌, ◌++◌, ℕ, List, IsFalse, IsTrue, MatchOption, length, true};
ghost use Rattle.line_text.specs.bytes.Lines.{IsQuoted};
ghost use Rattle.line_text.specs.petscii.Quoted.{one_line, quoted_byte};
ghost use Rattle.line_text.specs.petscii.Typing as typing;
ghost use Rattle.line_text.specs.petscii.Typing.{IsTextLine, IsTyped};

use crate::bytes::line_reading::LAST_RECORD;
use crate::bytes::reading::MOST_BYTES;
use crate::digits::number_before_comma;
use crate::petscii::characters::{CharacterSet, character};
use crate::petscii::reading::hex_digit;
use arrayvec::ArrayVec;

/// One more than the greatest byte that a keyboard gives.
const TYPED_END: u8 = 0xE0;

/// Whether a keyboard gives the byte. The others show the same characters as bytes that it gives.
fn is_typed(byte: u8) -> bool
    ensures { result ≡ typing.is_typed byte }
{
    matches!(byte, 0..=0x5F | 0x80..=0xDF)
}

/// What comes after this front of the text, if the text begins so.
fn behind<'a>(text: &'a [u8], front: &[u8]) -> Option<&'a [u8]>
    ensures { MatchOption result ((rest : List ℕ) → text.now ≢ front.now ++ rest) (λ rest. text.now ≡ front.now ++ rest.now) }
{
    if text.len() < front.len() {
        return None;
    }
    let (head, rest) = text.split_at(front.len());
    if head == front { Some(rest) } else { None }
}

/// What comes after the text of this byte, if it is at the front.
fn behind_byte<'a>(set: CharacterSet, byte: u8, text: &'a [u8]) -> Option<&'a [u8]>
    ensures { MatchOption result ((rest : List ℕ) → text.now ≢ quoted_byte set byte ++ rest)
        (λ rest. text.now ≡ quoted_byte set byte ++ rest.now) }
{
    if byte == b'"' {
        return behind(text, b"\"\"");
    }
    match character(set, byte) {
        Some(shown) => behind(text, shown.encode_utf8(&mut [0; 4]).as_bytes()),
        None => behind(
            text,
            &[
                b'\\',
                hex_digit(byte / 16) as u8,
                hex_digit(byte % 16) as u8,
            ],
        ),
    }
}

/// The byte of a keyboard whose text is at the front, and what comes after that.
fn first_typed(set: CharacterSet, text: &[u8]) -> Option<(u8, &[u8])>
    ensures { MatchOption result
        ((b : ℕ) (rest : List ℕ) → typing.is_typed b ≡ true → text.now ≢ quoted_byte set b ++ rest)
        (λ p. (typing.is_typed p.0 ≡ true) × (text.now ≡ quoted_byte set p.0 ++ p.1.now)) }
{
    for byte in 0..TYPED_END {
        if !is_typed(byte) {
            continue;
        }
        if let Some(rest) = behind_byte(set, byte, text) {
            return Some((byte, rest));
        }
    }
    None
}

/// Whether `OneLine` shows these bytes as this text.
pub fn reads_as(set: CharacterSet, bytes: &[u8], text: &[u8]) -> bool
    ensures { IsTrue result ↔ (text.now ≡ one_line set bytes.now) }
{
    let mut rest = text;
    for &byte in bytes {
        let Some(behind) = behind_byte(set, byte, rest) else {
            return false;
        };
        rest = behind;
    }
    rest.is_empty()
}

/// Fills `bytes` with those of a keyboard that `OneLine` shows as this text, and returns whether there are any and they are at most
/// 254. Each character has one such byte. If there are none, `bytes` may hold anything.
pub fn read_typed(set: CharacterSet, text: &[u8], bytes: &mut ArrayVec<u8, MOST_BYTES>) -> bool
    ensures found { IsTrue result → IsTyped set text.now bytes.new.items }
    ensures none { IsFalse result → (bs : List ℕ) → length bs ≤ 254 → ¬ (IsTyped set text.now bs) }
{
    bytes.clear();
    let mut rest = text;
    while !rest.is_empty() {
        let Some((byte, behind)) = first_typed(set, rest) else {
            return false;
        };
        if bytes.try_push(byte).is_err() {
            return false;
        }
        rest = behind;
    }
    true
}

/// The text between quotation marks, or a text that needs none: it has neither a comma nor a mark.
fn unmarked(text: &[u8]) -> Option<&[u8]>
    ensures { MatchOption result
        (((inner : List ℕ) → ¬ (IsQuoted text.now inner)) × ¬ (typing.IsBare text.now))
        (λ inner. IsQuoted text.now inner.now ⊎ ((inner.now ≡ text.now) × typing.IsBare text.now)) }
{
    match text {
        [b'"', inner @ .., b'"'] => Some(inner),
        _ if text.contains(&b',') || text.contains(&b'"') => None,
        _ => Some(text),
    }
}

/// The number of a record's line, which is passed without its end, and the text of the record. None if the line has no number of 1
/// to 182,880 without leading zeros and a comma, or if the text after that has no marks around it, and a comma or a mark in it.
pub fn text_line(line: &[u8]) -> Option<(u32, &[u8])>
    ensures { MatchOption result
        ((n : ℕ) (text : List ℕ) → 1 ≤ n → n ≤ 182880 → ¬ (IsTextLine line.now n text))
        (λ p. (1 ≤ p.0) × (p.0 ≤ 182880) × IsTextLine line.now p.0 p.1.now) }
{
    let (number, text) = number_before_comma(line, 1, LAST_RECORD)?;
    Some((number, unmarked(text)?))
}
