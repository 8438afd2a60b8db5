//! Texts of open.
ghost use Rattle.std.specs.Prelude.{◌≡◌, ◌↔◌, ℕ, IsTrue, MatchOption, length};
ghost use Rattle.drive_channels.specs.Spelling as spelling;
ghost use Rattle.drive_channels.specs.Spelling.{IsWish, Wish};
ghost use Rattle.drive_channels.specs.Wishes.{wish_of};

/// The contents of a text of open: a name of 1 to 16 bytes, and the record length, if one is given.
#[derive(Clone, Copy)]
pub(crate) struct FileWish<'a> {
    pub(crate) name: &'a [u8],
    pub(crate) length: Option<u8>,
}

/// Whether a name may have this byte.
fn is_name_byte(byte: u8) -> bool
    ensures { result ≡ spelling.is_name_byte byte }
{
    matches!(byte, 0x20..=0x5F)
        && !matches!(byte, b'"' | b'$' | b'*' | b',' | b':' | b'=' | b'?' | b'@')
}

/// Whether these bytes are a name.
fn is_name(bytes: &[u8]) -> bool
    ensures { IsTrue result ↔ spelling.IsName bytes.now }
{
    !bytes.is_empty() && bytes.len() <= 16 && bytes.iter().all(|&byte| is_name_byte(byte))
}

/// The record length that ends a text of open, after its name: `,L,` and one byte.
fn length_of_tail(tail: &[u8]) -> Option<u8>
    requires { length tail.now ≡ 4 }
    ensures { MatchOption result ((l : ℕ) → ¬ (spelling.IsTail tail.now l)) (spelling.IsTail tail.now) }
{
    let length = tail[3];
    if tail[0] != b',' || tail[1] != b'L' || tail[2] != b',' {
        return None;
    }
    if length == 0 || length == 255 {
        return None;
    }
    Some(length)
}

/// The contents of the text, if it is a name, or a name and a record length. None otherwise.
pub(crate) fn wish<'a>(text: &'a [u8]) -> Option<FileWish<'a>>
    ensures { MatchOption result ((w : Wish) → ¬ (IsWish text.now w)) (λ w. IsWish text.now (wish_of w)) }
{
    if is_name(text) {
        return Some(FileWish {
            name: text,
            length: None,
        });
    }
    if text.len() < 4 {
        return None;
    }
    let (name, tail) = text.split_at(text.len() - 4);
    if !is_name(name) {
        return None;
    }
    let length = length_of_tail(tail)?;
    Some(FileWish {
        name,
        length: Some(length),
    })
}
