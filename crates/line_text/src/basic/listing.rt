//! The listing of a program.
ghost use Rattle.std.specs.Prelude.{◌≡◌, Some};
ghost use Rattle.line_text.specs.basic.Listings.{has_end, is_ended as has_its_end, lines, listing};
ghost use Rattle.line_text.specs.basic.Places.{text_at};

use crate::basic::characters::{Hex, Shown};
use crate::basic::places::BytePlace;
use std::fmt::{self, Display, Formatter};

/// A byte that stands there.
#[derive(Clone, Copy)]
struct PlacedByte {
    at: BytePlace,
    byte: u8,
}

impl Display for PlacedByte {
    ghost output = { λ placed. Some (text_at placed.at placed.byte) };

    fn fmt<W: fmt::Write>(&self, f: &mut Formatter<W>) -> fmt::Result {
        let byte = self.byte;
        match self.at {
            BytePlace::NumberHigh(low) => write!(f, "{} ", u16::from_le_bytes([low, byte])),
            BytePlace::Line { .. } if byte == 0 => f.write_char('\n'),
            BytePlace::Line { quoted, remark } => {
                let is_literal = quoted || remark;
                write!(f, "{}", Shown { is_literal, byte })
            }
            _ => Ok(()),
        }
    }
}

/// The lines of a program.
#[derive(Clone, Copy)]
struct Lines<'a> {
    bytes: &'a [u8],
}

impl Display for Lines<'_> {
    ghost output = { λ program. Some (lines program.bytes.now) };

    fn fmt<W: fmt::Write>(&self, f: &mut Formatter<W>) -> fmt::Result {
        let mut at = BytePlace::Link;
        for &byte in self.bytes {
            write!(f, "{}", PlacedByte { at, byte })?;
            at = at.after(byte);
        }
        match at {
            BytePlace::Line { .. } => f.write_str("\n"),
            _ => Ok(()),
        }
    }
}

/// A program file, which is displayed as its listing: a line with its load address, then its lines, up to its end or, if it
/// has none, that of the file. `petcat -w2` of VICE makes the program of a listing.
#[derive(Clone, Copy)]
pub struct Listing<'a> {
    /// The file's bytes, of which the first two are its load address.
    pub program: &'a [u8],
}

impl Display for Listing<'_> {
    ghost output = { λ file. Some (listing file.program.now) };

    fn fmt<W: fmt::Write>(&self, f: &mut Formatter<W>) -> fmt::Result {
        match self.program {
            [low, high, bytes @ ..] => write!(
                f,
                ";=={}{}==\n{}",
                Hex { byte: *high },
                Hex { byte: *low },
                Lines { bytes }
            ),
            _ => Ok(()),
        }
    }
}

/// Whether the lines of a program come to its end.
fn have_end(bytes: &[u8]) -> bool
    ensures { result ≡ has_end bytes.now }
{
    let mut at = BytePlace::Link;
    for &byte in bytes {
        at = at.after(byte);
    }
    matches!(at, BytePlace::End)
}

/// Whether the program ends within its file. False for a file that has a part of a program, or none.
pub fn is_ended(program: &[u8]) -> bool
    ensures { result ≡ has_its_end program.now }
{
    match program {
        [_, _, bytes @ ..] => have_end(bytes),
        _ => false,
    }
}
