//! Texts read back into bytes.
ghost use Rattle.std.specs.Prelude.{◌≡◌, ◌≢◌, ◌<◌, ◌≤◌, ◌++◌, ◌∷◌, [], ℕ, List, IsFalse, IsNone, IsTrue, IfSome};
ghost use Rattle.std.specs.Prelude.{MatchOption, length};
ghost use Rattle.line_text.specs.bytes.Texts.{AreBytes, byte_text, text_of};
ghost use Rattle.line_text.specs.bytes.Texts.{digit as digit_of};

use crate::bytes::writing::{digit, is_plain};
use arrayvec::ArrayVec;

/// The greatest number of bytes that a text is read to: as many as a record has.
pub const MOST_BYTES: usize = 254;

/// The number below 16 that has this digit.
// Computed from the digit's bits, since a processor can't guess whether it is a letter.
fn hex_value(byte: u8) -> Option<u8>
    ensures { MatchOption result ((n : ℕ) → n < 16 → digit_of n ≢ byte) (λ n. (n < 16) × (digit_of n ≡ byte)) }
{
    let number = byte % 16 + 9 * (byte / 64);
    if number < 16 && digit(number) == byte {
        Some(number)
    } else {
        None
    }
}

/// The byte that is written as a backslash and these two digits.
fn escaped(high: u8, low: u8) -> Option<u8>
    ensures { MatchOption result
        ((b : ℕ) (rest : List ℕ) → b < 256 → 92 ∷ high ∷ low ∷ rest ≢ byte_text b ++ rest)
        (λ b. byte_text b ≡ 92 ∷ high ∷ low ∷ []) }
{
    let byte = 16 * hex_value(high)? + hex_value(low)?;
    if is_plain(byte) { None } else { Some(byte) }
}

/// The byte whose text is at the front, and the bytes after that.
fn first_byte(text: &[u8]) -> Option<(u8, &[u8])>
    ensures { MatchOption result
        ((b : ℕ) (rest : List ℕ) → b < 256 → text.now ≢ byte_text b ++ rest)
        (λ p. text.now ≡ byte_text p.0 ++ p.1.now) }
{
    match text {
        [b'\\', high, low, rest @ ..] => Some((escaped(*high, *low)?, rest)),
        [byte, rest @ ..] if is_plain(*byte) => Some((*byte, rest)),
        _ => None,
    }
}

/// Fills `bytes` with those that have this text, and returns whether there are any and they are at most 254.
pub(crate) fn fill_from(text: &[u8], bytes: &mut ArrayVec<u8, MOST_BYTES>) -> bool
    ensures found { IsTrue result → text.now ≡ text_of bytes.new.items }
    ensures none { IsFalse result → (bs : List ℕ) → AreBytes bs → length bs ≤ 254 → text.now ≢ text_of bs }
{
    bytes.clear();
    let mut rest = text;
    while !rest.is_empty() {
        let Some((byte, behind)) = first_byte(rest) else {
            return false;
        };
        if bytes.try_push(byte).is_err() {
            return false;
        }
        rest = behind;
    }
    true
}

/// The bytes that have this text. None if there are none, or more than 254.
pub fn read_text(text: &[u8]) -> Option<ArrayVec<u8, MOST_BYTES>>
    ensures found { IfSome result (λ bytes. text.now ≡ text_of bytes.items) }
    ensures none { IsNone result → (bytes : List ℕ) → AreBytes bytes → length bytes ≤ 254 → text.now ≢ text_of bytes }
{
    let mut bytes = ArrayVec::new();
    if fill_from(text, &mut bytes) {
        Some(bytes)
    } else {
        None
    }
}
