//! Bytes as text, wherever text is written.
ghost use Rattle.std.specs.Prelude.{◌≡◌, Some};
ghost use Rattle.line_text.specs.bytes.Texts.{byte_text, text_of};

use crate::bytes::writing::{digit, is_plain};
use std::fmt::{self, Display, Formatter};

/// Bytes that are displayed as text, as `write_text` writes them.
#[derive(Clone, Copy)]
pub struct Text<'a>(pub &'a [u8]);

/// A byte as text.
#[derive(Clone, Copy)]
struct ByteText(u8);

impl Display for ByteText {
    ghost output = { λ byte. Some (byte_text byte.0) };

    fn fmt<W: fmt::Write>(&self, f: &mut Formatter<W>) -> fmt::Result {
        let byte = self.0;
        if is_plain(byte) {
            return f.write_char(char::from(byte));
        }
        let (high, low) = (char::from(digit(byte / 16)), char::from(digit(byte % 16)));
        write!(f, "\\{high}{low}")
    }
}

impl Display for Text<'_> {
    ghost output = { λ text. Some (text_of text.0.now) };

    fn fmt<W: fmt::Write>(&self, f: &mut Formatter<W>) -> fmt::Result {
        for &byte in self.0 {
            write!(f, "{}", ByteText(byte))?;
        }
        Ok(())
    }
}
