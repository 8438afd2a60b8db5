//! Texts put into a buffer, one after another.
ghost use Rattle.std.specs.Prelude.{◌≡◌, ◌≤◌, ◌+◌, ◌*◌, ◌/◌, ◌%◌, ◌++◌, ◌∷◌, [], decimal, length, take};
ghost use Rattle.line_text.specs.bytes.Texts.{byte_text, text_of};
ghost use Rattle.line_text.specs.bytes.Texts.{digit as digit_of};

use crate::bytes::writing::{digit, is_plain};
use itoa::write_digits;

/// Puts the bytes from `start` on, and returns where they end.
#[inline(always)]
pub(crate) fn append_behind(text: &[u8], room: &mut [u8], start: usize) -> usize
    requires { start + length text.now ≤ length room.old }
    ensures end { result ≡ start + length text.now }
    ensures written { take result room.new ≡ take start room.old ++ text.now }
{
    let end = start + text.len();
    room[start..end].copy_from_slice(text);
    end
}

/// How many digits the number has.
fn count_digits(number: u32) -> usize
    ensures digits { result ≡ length (decimal number) }
    ensures few { result ≤ 10 }
{
    match number {
        0..=9 => 1,
        10..=99 => 2,
        100..=999 => 3,
        1_000..=9_999 => 4,
        10_000..=99_999 => 5,
        100_000..=999_999 => 6,
        1_000_000..=9_999_999 => 7,
        10_000_000..=99_999_999 => 8,
        100_000_000..=999_999_999 => 9,
        _ => 10,
    }
}

/// Puts the number's digits, ten at most, from `start` on, and returns where they end.
#[inline(always)]
pub(crate) fn append_number(number: u32, room: &mut [u8], start: usize) -> usize
    requires { start + 10 ≤ length room.old }
    ensures end { (start ≤ result) × (result ≤ start + 10) }
    ensures written { take result room.new ≡ take start room.old ++ decimal number }
{
    let end = start + count_digits(number);
    write_digits(u64::from(number), room, end);
    end
}

/// The first byte of a byte's text, and how many this has: one, or two digits more.
fn text_start(byte: u8) -> (u8, usize)
    ensures text { take result.1 (result.0 ∷ digit_of (byte / 16) ∷ digit_of (byte % 16) ∷ []) ≡ byte_text byte }
    ensures count { result.1 ≤ 3 }
{
    if is_plain(byte) {
        (byte, 1)
    } else {
        (b'\\', 3)
    }
}

/// Puts a byte as text, three bytes at most, from `start` on, and returns where it ends.
// Without a branch, which the processor would have to guess: three bytes are put, of which one counts or all do.
#[inline(always)]
fn append_byte(byte: u8, room: &mut [u8], start: usize) -> usize
    requires { start + 3 ≤ length room.old }
    ensures end { (start ≤ result) × (result ≤ start + 3) }
    ensures written { take result room.new ≡ take start room.old ++ byte_text byte }
{
    let (first, count) = text_start(byte);
    append_behind(&[first, digit(byte / 16), digit(byte % 16)], room, start);
    start + count
}

/// Puts bytes as text from `start` on, and returns where it ends.
pub(crate) fn append_text(bytes: &[u8], room: &mut [u8], start: usize) -> usize
    requires { start + 3 * length bytes.now ≤ length room.old }
    ensures end { (start ≤ result) × (result ≤ start + 3 * length bytes.now) }
    ensures written { take result room.new ≡ take start room.old ++ text_of bytes.now }
{
    let mut end = start;
    let mut rest = bytes;
    while let [byte, behind @ ..] = rest {
        end = append_byte(*byte, room, end);
        rest = behind;
    }
    end
}
