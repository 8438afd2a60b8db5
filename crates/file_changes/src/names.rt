//! Names of files, as they are typed.
ghost use Rattle.std.specs.Prelude.{◌≡◌, ◌-◌, ◌↔◌, ℕ, List, IfSome, IsNone, IsTrue, Some, length, slice_get};
ghost use Rattle.line_text.specs.bytes.Texts.{AreBytes};
ghost use Rattle.file_changes.specs.NewNames.{IsNewName};
ghost use Rattle.file_changes.specs.Names.{IsNameOf, name_bytes};

use crate::new_names::is_new_name;
use arrayvec::ArrayVec;
use line_text::read_text;

/// How many bytes a name has at most.
const NAME_BYTES: usize = 16;

/// The byte that fills the rest of a name on a disk.
const SHIFTED_SPACE: u8 = 160;

/// The name of a file on a disk: at most sixteen bytes, of which the last isn't a shifted space.
#[derive(Drop)]
pub struct Name {
    bytes: ArrayVec<u8, 254>,
}

/// Whether the last of these bytes is a shifted space.
fn ends_in_space(bytes: &[u8]) -> bool
    ensures { IsTrue result ↔ (slice_get bytes.now (length bytes.now - 1) ≡ Some 160) }
{
    match bytes.last() {
        Some(&byte) => byte == SHIFTED_SPACE,
        None => false,
    }
}

impl Name {
    /// The name that has this text: bytes $20 to $7E except `"` and `\` as they are, every other one as `\` and two of
    /// the digits `0-9a-f`. None if the text is of no bytes, or of more than sixteen. None also if it ends in a shifted
    /// space: it would be another text of a name.
    pub fn read(text: &str) -> Option<Name>
        ensures found { IfSome result (λ name. IsNameOf text.now (name_bytes name)) }
        ensures none { IsNone result → (bytes : List ℕ) → AreBytes bytes → IsNameOf text.now bytes → ⊥ }
    {
        let bytes = read_text(text.as_bytes())?;
        if bytes.len() > NAME_BYTES || ends_in_space(bytes.as_slice()) {
            return None;
        }
        Some(Name { bytes })
    }

    /// Its bytes.
    pub fn as_bytes(&self) -> &[u8]
        ensures { result.now ≡ name_bytes self.now }
    {
        self.bytes.as_slice()
    }

    /// Whether a new file can have it: it has a byte.
    pub fn is_new(&self) -> bool
        ensures { IsTrue result ↔ IsNewName (name_bytes self.now) }
    {
        is_new_name(self.as_bytes())
    }
}
