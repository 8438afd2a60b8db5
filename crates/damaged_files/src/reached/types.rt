//! Types of entries.
ghost use Rattle.std.specs.Prelude.{◌≡◌, Some};
ghost use Rattle.damaged_files.specs.reached.Types as types;
ghost use Rattle.damaged_files.specs.reached.Types.{type_text};

use std::fmt::{self, Display, Formatter};

/// The name of the type with this number, which is the low bits of a type byte: `DEL`, `SEQ`, `PRG`, `USR` or `REL`;
/// `???` if there is no such type.
pub fn type_name(kind: u8) -> &'static str
    ensures { result.now ≡ types.type_name kind }
{
    match kind {
        0 => "DEL",
        1 => "SEQ",
        2 => "PRG",
        3 => "USR",
        4 => "REL",
        _ => "???",
    }
}

/// A type byte as it is printed: the name of its low six bits. A star stands before that if the file isn't closed (bit 7
/// is 0). A mark stands after it if the file is locked (bit 6 is 1).
#[derive(Clone, Copy)]
pub struct TypeText {
    /// The type byte.
    pub byte: u8,
    /// The mark of a locked file.
    pub locked: &'static str,
}

impl Display for TypeText {
    ghost output = { λ text. Some (type_text text.locked.now text.byte) };

    fn fmt<W: fmt::Write>(&self, f: &mut Formatter<W>) -> fmt::Result {
        let open = if self.byte < 0x80 { "*" } else { "" };
        let locked = if (self.byte >> 6) & 1 == 1 {
            self.locked
        } else {
            ""
        };
        write!(f, "{open}{}{locked}", type_name(self.byte % 64))
    }
}
