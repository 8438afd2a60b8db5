//! Bytes of PETSCII as text that people read.
ghost use Rattle.std.specs.Prelude.{◌≡◌, ◌<◌, Some};
ghost use Rattle.line_text.specs.petscii.Characters as characters;
ghost use Rattle.line_text.specs.petscii.Characters.{readable, readable_byte};

use crate::petscii::characters::{CharacterSet, character};
use std::fmt::{self, Display, Formatter};

/// Bytes of PETSCII that are displayed in UTF-8, each as its character (`character`). $0D is an LF. Every other control
/// code is a backslash and two digits of `0-9a-f`, such as `\1d`.
#[derive(Clone, Copy)]
pub struct Readable<'a> {
    /// The set whose characters they are.
    pub set: CharacterSet,
    /// The bytes.
    pub bytes: &'a [u8],
}

/// A byte of such a text.
#[derive(Clone, Copy)]
struct ReadableByte {
    set: CharacterSet,
    byte: u8,
}

/// The digit of a number below 16.
pub(crate) fn hex_digit(number: u8) -> char
    requires { number < 16 }
    ensures { result ≡ characters.hex_digit number }
{
    if number < 10 {
        char::from(b'0' + number)
    } else {
        char::from(b'a' + (number - 10))
    }
}

impl Display for ReadableByte {
    ghost output = { λ byte. Some (readable_byte byte.set byte.byte) };

    fn fmt<W: fmt::Write>(&self, f: &mut Formatter<W>) -> fmt::Result {
        let byte = self.byte;
        if byte == b'\r' {
            return f.write_char('\n');
        }
        match character(self.set, byte) {
            Some(shown) => f.write_char(shown),
            None => write!(f, "\\{}{}", hex_digit(byte / 16), hex_digit(byte % 16)),
        }
    }
}

impl Display for Readable<'_> {
    ghost output = { λ text. Some (readable text.set text.bytes.now) };

    fn fmt<W: fmt::Write>(&self, f: &mut Formatter<W>) -> fmt::Result {
        let set = self.set;
        for &byte in self.bytes {
            write!(f, "{}", ReadableByte { set, byte })?;
        }
        Ok(())
    }
}
