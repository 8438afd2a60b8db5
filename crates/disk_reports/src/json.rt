//! Strings of JSON.
ghost use Rattle.std.specs.Prelude.{◌≡◌, ◌<◌, ◌++◌, OnOk, codes, flat_map};
ghost use Rattle.std.specs.Io.KnownBytes.{Appends};
ghost use Rattle.line_text.specs.bytes.Texts.{digit as digit_of};
ghost use Rattle.disk_reports.specs.Json.{digits, json_char, json_string};
ghost use Rattle.disk_reports.specs.Objects.{typed};

use arrayvec::ArrayVec;
use line_text::write_text;
use std::io::{self, Write};

/// The digit of a number below 16.
fn digit(number: u8) -> u8
    requires { number < 16 }
    ensures { result ≡ digit_of number }
{
    if number < 10 {
        b'0' + number
    } else {
        b'a' + (number - 10)
    }
}

/// Writes a byte by its number.
pub(crate) fn print_control<W: Write>(out: &mut W, byte: u8) -> io::Result<()>
    ensures { OnOk result (Appends (W.contents out.old) (W.contents out.new) (codes "\\u00" ++ digits byte)) }
{
    let (high, low) = (digit(byte / 16), digit(byte % 16));
    out.write_all(&[b'\\', b'u', b'0', b'0', high, low])
}

/// Writes a byte of a string, with an escape if it needs one.
fn print_char<W: Write>(out: &mut W, byte: u8) -> io::Result<()>
    ensures { OnOk result (Appends (W.contents out.old) (W.contents out.new) (json_char byte)) }
{
    if byte == b'"' || byte == b'\\' {
        return out.write_all(&[b'\\', byte]);
    }
    if byte < 32 || byte == 127 {
        return print_control(out, byte);
    }
    out.write_all(&[byte])
}

/// Writes the bytes of a string.
fn print_chars<W: Write>(out: &mut W, bytes: &[u8]) -> io::Result<()>
    ensures { OnOk result (Appends (W.contents out.old) (W.contents out.new) (flat_map json_char bytes.now)) }
{
    for &byte in bytes {
        print_char(out, byte)?;
    }
    Ok(())
}

/// Writes these bytes as a string of JSON (RFC 8259): between quotation marks, with escapes for the quotation mark, the
/// backslash, 7F and the bytes below 20. The bytes of a text in UTF-8 give JSON's text in UTF-8. An error is the
/// writer's, which may then have a part.
pub(crate) fn print_string<W: Write>(out: &mut W, bytes: &[u8]) -> io::Result<()>
    ensures { OnOk result (Appends (W.contents out.old) (W.contents out.new) (json_string bytes.now)) }
{
    out.write_all(b"\"")?;
    print_chars(out, bytes)?;
    out.write_all(b"\"")
}

/// Writes the two digits of a byte.
fn print_digits<W: Write>(out: &mut W, byte: u8) -> io::Result<()>
    ensures { OnOk result (Appends (W.contents out.old) (W.contents out.new) (digits byte)) }
{
    out.write_all(&[digit(byte / 16), digit(byte % 16)])
}

/// Writes bytes in hexadecimal digits.
pub(crate) fn print_hex<W: Write>(out: &mut W, bytes: &[u8]) -> io::Result<()>
    ensures { OnOk result (Appends (W.contents out.old) (W.contents out.new) (flat_map digits bytes.now)) }
{
    for &byte in bytes {
        print_digits(out, byte)?;
    }
    Ok(())
}

/// Writes as a string the text that can be typed for a name on the disk.
pub(crate) fn print_typed<W: Write>(out: &mut W, name: &[u8]) -> io::Result<()>
    ensures { OnOk result (Appends (W.contents out.old) (W.contents out.new) (typed name.now)) }
{
    // sixteen bytes of three characters each
    let mut text = ArrayVec::<u8, 48>::new();
    write_text(&mut text, name)?;
    print_string(out, text.as_slice())
}
