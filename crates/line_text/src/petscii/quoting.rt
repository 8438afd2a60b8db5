//! Bytes of PETSCII between quotation marks.
ghost use Rattle.std.specs.Prelude.{◌≡◌, Some};
ghost use Rattle.line_text.specs.petscii.Quoted.{one_line, quoted, quoted_byte};

use crate::petscii::characters::CharacterSet;
use crate::petscii::reading::Readable;
use std::fmt::{self, Display, Formatter};

/// Bytes of PETSCII that are displayed in UTF-8 between quotation marks, as a field of a file of comma-separated values
/// has them (RFC 4180). A mark among them stands twice. Every other byte is its character (`character`). Every control
/// code, also the carriage return $0D, is a backslash and two digits, so that the text is one line.
#[derive(Clone, Copy)]
pub struct Quoted<'a> {
    /// The set whose characters they are.
    pub set: CharacterSet,
    /// The bytes.
    pub bytes: &'a [u8],
}

/// A byte of such a text.
#[derive(Clone, Copy)]
struct QuotedByte {
    set: CharacterSet,
    byte: u8,
}

impl Display for QuotedByte {
    ghost output = { λ byte. Some (quoted_byte byte.set byte.byte) };

    fn fmt<W: fmt::Write>(&self, f: &mut Formatter<W>) -> fmt::Result {
        let (set, byte) = (self.set, self.byte);
        match byte {
            b'"' => f.write_str("\"\""),
            b'\r' => f.write_str("\\0d"),
            _ => write!(
                f,
                "{}",
                Readable {
                    set,
                    bytes: &[byte]
                }
            ),
        }
    }
}

/// The same text without the marks around it.
#[derive(Clone, Copy)]
pub struct OneLine<'a> {
    /// The set whose characters they are.
    pub set: CharacterSet,
    /// The bytes.
    pub bytes: &'a [u8],
}

impl Display for OneLine<'_> {
    ghost output = { λ text. Some (one_line text.set text.bytes.now) };

    fn fmt<W: fmt::Write>(&self, f: &mut Formatter<W>) -> fmt::Result {
        let set = self.set;
        for &byte in self.bytes {
            write!(f, "{}", QuotedByte { set, byte })?;
        }
        Ok(())
    }
}

impl Display for Quoted<'_> {
    ghost output = { λ text. Some (quoted text.set text.bytes.now) };

    fn fmt<W: fmt::Write>(&self, f: &mut Formatter<W>) -> fmt::Result {
        let one_line = OneLine {
            set: self.set,
            bytes: self.bytes,
        };
        write!(f, "\"{one_line}\"")
    }
}
