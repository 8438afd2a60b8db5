//! Bytes written as text.
ghost use Rattle.std.specs.Prelude.{◌≡◌, ◌<◌, ◌≤◌, ℕ, IfOk, OnOk, length, slice_index, slice_range, true};
ghost use Rattle.std.specs.Io.KnownBytes.{Appends};
ghost use Rattle.line_text.specs.bytes.Texts.{byte_text, text_of};
ghost use Rattle.line_text.specs.bytes.Texts.{digit as digit_of, is_plain as plain};

use std::io::{self, Write};

/// Whether the text of the byte is the byte itself.
pub(crate) fn is_plain(byte: u8) -> bool
    ensures { result ≡ plain byte }
{
    (32..=126).contains(&byte) & (byte != b'"') & (byte != b'\\')
}

/// The digit of a number below 16.
pub(crate) fn digit(number: u8) -> u8
    requires { number < 16 }
    ensures { result ≡ digit_of number }
{
    if number < 10 {
        b'0' + number
    } else {
        b'a' + (number - 10)
    }
}

/// Writes a byte as text.
fn write_byte<W: Write>(out: &mut W, byte: u8) -> io::Result<()>
    ensures { OnOk result (Appends (W.contents out.old) (W.contents out.new) (byte_text byte)) }
{
    if is_plain(byte) {
        return out.write_all(&[byte]);
    }
    out.write_all(&[b'\\', digit(byte / 16), digit(byte % 16)])
}

/// The end of the plain bytes from `start` on.
fn plain_end(bytes: &[u8], start: usize) -> usize
    requires { start ≤ length bytes.now }
    ensures low { start ≤ result }
    ensures high { result ≤ length bytes.now }
    ensures plain { (i : ℕ) → start ≤ i → i < result → plain (slice_index bytes.now i) ≡ true }
{
    for i in start..bytes.len() {
        if !is_plain(bytes[i]) {
            return i;
        }
    }
    bytes.len()
}

/// Writes as text the plain bytes from `start` on, or one byte if it isn't plain. Returns the index of the next byte.
fn write_run<W: Write>(out: &mut W, bytes: &[u8], start: usize) -> io::Result<usize>
    requires { start < length bytes.now }
    ensures ok { IfOk result (λ end. (start < end) × (end ≤ length bytes.now)
        × Appends (W.contents out.old) (W.contents out.new) (text_of (slice_range bytes.now start end))) }
{
    let end = plain_end(bytes, start);
    if end == start {
        write_byte(out, bytes[start])?;
        return Ok(start + 1);
    }
    out.write_all(&bytes[start..end])?;
    Ok(end)
}

/// Writes these bytes as text. A byte outside $20 to $7E, a quotation mark and a backslash become a backslash and two
/// digits of `0-9a-f`; any other byte is written as it is. An error is the writer's, which may have taken a part of the
/// text.
pub fn write_text<W: Write>(out: &mut W, bytes: &[u8]) -> io::Result<()>
    ensures { OnOk result (Appends (W.contents out.old) (W.contents out.new) (text_of bytes.now)) }
{
    let mut start = 0;
    while start < bytes.len() {
        start = write_run(out, bytes, start)?;
    }
    Ok(())
}
