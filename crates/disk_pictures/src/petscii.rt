//! Names as a C64 shows them.
ghost use Rattle.std.specs.Prelude.{◌≡◌, Some};
ghost use Rattle.std.specs.List.{list_all};
ghost use Rattle.disk_pictures.specs.Petscii.{is_common as common, petscii_byte, petscii_of, signed as signed_bytes};

use crate::html::HtmlByte;
use line_text::{CharacterSet, character};
use std::fmt::{self, Display, Formatter};

/// A name as a C64 shows it after it was switched on, in Unicode, with `&`, `<` and `>` escaped. Nothing is shown of a name
/// without a byte whose character ASCII lacks.
#[derive(Clone, Copy)]
pub(crate) struct Petscii<'a>(pub &'a [u8]);

/// A byte of such a name.
#[derive(Clone, Copy)]
struct PetsciiByte(u8);

impl Display for PetsciiByte {
    ghost output = { λ sign. Some (petscii_byte sign.0) };

    fn fmt<W: fmt::Write>(&self, f: &mut Formatter<W>) -> fmt::Result {
        let byte = self.0;
        if byte >= 64 {
            if let Some(sign) = character(CharacterSet::Graphics, byte) {
                return f.write_char(sign);
            }
        }
        let escaped = true;
        write!(f, "{}", HtmlByte { byte, escaped })
    }
}

/// Whether the byte's character is that of ASCII.
fn is_common(byte: u8) -> bool
    ensures { result ≡ common byte }
{
    byte < 92 || byte == 93
}

/// Whether all characters of the name are those of ASCII.
fn is_typed_so(name: &[u8]) -> bool
    ensures { result ≡ list_all common name.now }
{
    for &byte in name {
        if !is_common(byte) {
            return false;
        }
    }
    true
}

/// The bytes of the name that are shown: none if it has no byte whose character ASCII lacks.
fn signed(name: &[u8]) -> &[u8]
    ensures { result.now ≡ signed_bytes name.now }
{
    if is_typed_so(name) { &[] } else { name }
}

impl Display for Petscii<'_> {
    ghost output = { λ name. Some (petscii_of name.0.now) };

    fn fmt<W: fmt::Write>(&self, f: &mut Formatter<W>) -> fmt::Result {
        for &byte in signed(self.0) {
            write!(f, "{}", PetsciiByte(byte))?;
        }
        Ok(())
    }
}
