//! The bytes of a sector in hexadecimal digits, with their characters beside them.
ghost use Rattle.std.specs.Prelude.{◌≡◌, ◌<◌, IfErr, OnOk, Some, flat_map};
ghost use Rattle.std.specs.Io.KnownBytes.{Appends};
ghost use Rattle.line_text.specs.petscii.Characters.{hex_digit as digit_of};
ghost use Rattle.disk_pictures.specs.Views.{byte_sign, bytes_line, bytes_text, code_text};
ghost use Rattle.command_faults.specs.declared.faults.CommandFault.TheVariants as faults;

use command_faults::{CommandFault, print_text};
use line_text::{CharacterSet, character};
use std::fmt::{self, Display, Formatter};
use std::io::Write;

/// How many bytes stand in a line.
const WIDTH: usize = 16;

/// The digit of a number below 16: `0-9a-f`.
fn hex_digit(number: u8) -> char
    requires { number < 16 }
    ensures { result ≡ digit_of number }
{
    if number < 10 {
        char::from(b'0' + number)
    } else {
        char::from(b'a' + (number - 10))
    }
}

/// A byte in two digits, after a blank.
#[derive(Clone, Copy)]
struct Code(u8);

impl Display for Code {
    ghost output = { λ code. Some (code_text code.0) };

    fn fmt<W: fmt::Write>(&self, f: &mut Formatter<W>) -> fmt::Result {
        let (high, low) = (hex_digit(self.0 / 16), hex_digit(self.0 % 16));
        write!(f, " {high}{low}")
    }
}

/// The character of a byte; a full stop stands for a control code.
#[derive(Clone, Copy)]
struct Sign(u8);

impl Display for Sign {
    ghost output = { λ sign. Some (byte_sign sign.0) };

    fn fmt<W: fmt::Write>(&self, f: &mut Formatter<W>) -> fmt::Result {
        match character(CharacterSet::Graphics, self.0) {
            Some(shown) => f.write_char(shown),
            None => f.write_str("."),
        }
    }
}

/// Bytes, each in two digits.
#[derive(Clone, Copy)]
struct Codes<'a>(&'a [u8]);

impl Display for Codes<'_> {
    ghost output = { λ codes. Some (flat_map code_text codes.0.now) };

    fn fmt<W: fmt::Write>(&self, f: &mut Formatter<W>) -> fmt::Result {
        for &byte in self.0 {
            write!(f, "{}", Code(byte))?;
        }
        Ok(())
    }
}

/// Bytes, each as its character.
#[derive(Clone, Copy)]
struct Signs<'a>(&'a [u8]);

impl Display for Signs<'_> {
    ghost output = { λ signs. Some (flat_map byte_sign signs.0.now) };

    fn fmt<W: fmt::Write>(&self, f: &mut Formatter<W>) -> fmt::Result {
        for &byte in self.0 {
            write!(f, "{}", Sign(byte))?;
        }
        Ok(())
    }
}

/// The line with this number of bytes of a sector.
#[derive(Clone, Copy)]
struct BytesLine<'a> {
    number: u8,
    bytes: &'a [u8],
}

impl Display for BytesLine<'_> {
    ghost output = { λ line. Some (bytes_line line.number line.bytes.now) };

    fn fmt<W: fmt::Write>(&self, f: &mut Formatter<W>) -> fmt::Result {
        let first = hex_digit(self.number % 16);
        writeln!(f, "{first}0 {}  {}", Codes(self.bytes), Signs(self.bytes))
    }
}

/// Prints the bytes of a sector, sixteen in a line.
pub(crate) fn print_bytes<W: Write>(out: &mut W, bytes: &[u8; 256]) -> Result<(), CommandFault>
    ensures ok { OnOk result (Appends (W.contents out.old) (W.contents out.new) (bytes_text bytes.now)) }
    ensures err { IfErr result (λ fault. fault ≡ faults.File) }
{
    for number in 0..WIDTH {
        let start = WIDTH * number;
        print_text(
            out,
            BytesLine {
                number: number as u8,
                bytes: &bytes[start..start + WIDTH],
            },
        )?;
    }
    Ok(())
}
