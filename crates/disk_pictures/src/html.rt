//! Bytes of the disk in HTML.
ghost use Rattle.std.specs.Prelude.{◌≡◌, Some, if◌then◌else◌, length};
ghost use Rattle.disk_pictures.specs.Html.{html_byte, html_of, is_long as long, plain_byte};

use line_text::Text;
use std::fmt::{self, Display, Formatter};

/// Bytes of the disk as they are shown in HTML: their text, with `&`, `<` and `>` escaped, or without escapes if that
/// text would be long. Such a text has no quotation mark.
#[derive(Clone, Copy)]
pub(crate) struct Html<'a>(pub &'a [u8]);

/// A byte of the disk in HTML, escaped or without an escape.
#[derive(Clone, Copy)]
pub(crate) struct HtmlByte {
    /// The byte.
    pub(crate) byte: u8,
    /// Whether it is escaped.
    pub(crate) escaped: bool,
}

impl Display for HtmlByte {
    ghost output = { λ shown. Some (if shown.escaped then html_byte shown.byte else plain_byte shown.byte) };

    fn fmt<W: fmt::Write>(&self, f: &mut Formatter<W>) -> fmt::Result {
        let shown = match (self.byte, self.escaped) {
            (b'&', true) => "&amp;",
            (b'<', true) => "&lt;",
            (b'>', true) => "&gt;",
            (b'&', false) => "\\26",
            (b'<', false) => "\\3c",
            (b'>', false) => "\\3e",
            (byte, _) => return write!(f, "{}", Text(&[byte])),
        };
        f.write_str(shown)
    }
}

/// How many bytes a byte takes in HTML.
fn html_length(byte: u8) -> u8
    ensures { result ≡ length (html_byte byte) }
{
    match byte {
        b'&' => 5,
        b'<' | b'>' => 4,
        b'"' | b'\\' => 3,
        b' '..=b'~' => 1,
        _ => 3,
    }
}

/// Whether the bytes take more than 48 in HTML.
fn is_long(bytes: &[u8]) -> bool
    ensures { result ≡ long bytes.now }
{
    let mut count: u8 = 0;
    for &byte in bytes {
        count += html_length(byte);
        if count > 48 {
            return true;
        }
    }
    false
}

impl Display for Html<'_> {
    ghost output = { λ text. Some (html_of text.0.now) };

    fn fmt<W: fmt::Write>(&self, f: &mut Formatter<W>) -> fmt::Result {
        let escaped = !is_long(self.0);
        for &byte in self.0 {
            write!(f, "{}", HtmlByte { byte, escaped })?;
        }
        Ok(())
    }
}
