//! The characters and keywords of a line.
ghost use Rattle.std.specs.Prelude.{◌≡◌, ◌<◌, ◌≤◌, IfSome, Some, map};
ghost use Rattle.line_text.specs.basic.Characters.{character, hex, keyword, keywords, letter, shown};

use std::fmt::{self, Display, Formatter};

/// The keywords, from $80 on.
const KEYWORDS: [&str; 76] = [
    "end", "for", "next", "data", "input#", "input", "dim", "read", "let", "goto", "run", "if",
    "restore", "gosub", "return", "rem", "stop", "on", "wait", "load", "save", "verify", "def",
    "poke", "print#", "print", "cont", "list", "clr", "cmd", "sys", "open", "close", "get", "new",
    "tab(", "to", "fn", "spc(", "then", "not", "step", "+", "-", "*", "/", "^", "and", "or", ">",
    "=", "<", "sgn", "int", "abs", "usr", "fre", "pos", "sqr", "rnd", "log", "exp", "cos", "sin",
    "tan", "atn", "peek", "len", "str$", "val", "asc", "chr$", "left$", "right$", "mid$", "go",
];

/// A byte in two hexadecimal digits.
#[derive(Clone, Copy)]
pub(crate) struct Hex {
    pub(crate) byte: u8,
}

impl Display for Hex {
    ghost output = { λ hex_of. Some (hex hex_of.byte) };

    fn fmt<W: fmt::Write>(&self, f: &mut Formatter<W>) -> fmt::Result {
        write!(f, "{:x}{:x}", self.byte / 16, self.byte % 16)
    }
}

/// The character of ASCII of a byte that isn't a keyword.
#[tactic(auto, unfolding(crate::specs::basic::Characters::letter))]
fn letter_of(byte: u8) -> Option<char>
    ensures is { result ≡ letter byte }
    ensures ascii { IfSome result (λ c. c < 128) }
{
    match byte {
        0x20..=0x40 | 0x5B..=0x5F => Some(char::from(byte)),
        0x41..=0x5A => Some(char::from(byte + 32)),
        0xC1..=0xDA => Some(char::from(byte - 128)),
        0xFF => Some('~'),
        _ => None,
    }
}

/// A byte that isn't a keyword.
#[derive(Clone, Copy)]
struct Character {
    byte: u8,
}

impl Display for Character {
    ghost output = { λ shown_byte. Some (character shown_byte.byte) };

    fn fmt<W: fmt::Write>(&self, f: &mut Formatter<W>) -> fmt::Result {
        let byte = self.byte;
        match letter_of(byte) {
            Some(letter) => f.write_char(letter),
            None => write!(f, "{{${}}}", Hex { byte }),
        }
    }
}

/// The keywords, from $80 on.
fn all_keywords() -> &'static [&'static str; 76]
    ensures { map (λ text. text.now) result.now ≡ keywords }
{
    &KEYWORDS
}

/// The keyword of a byte.
fn keyword_of(byte: u8) -> &'static str
    requires token { (128 ≤ byte) × (byte ≤ 203) }
    ensures { result.now ≡ keyword byte }
{
    all_keywords()[usize::from(byte - 128)]
}

/// A byte of a line.
#[derive(Clone, Copy)]
pub(crate) struct Shown {
    /// Whether it stands between quotation marks or after REM, where no byte is a keyword.
    pub(crate) is_literal: bool,
    pub(crate) byte: u8,
}

impl Display for Shown {
    ghost output = { λ here. Some (shown here.is_literal here.byte) };

    fn fmt<W: fmt::Write>(&self, f: &mut Formatter<W>) -> fmt::Result {
        let byte = self.byte;
        if !self.is_literal && 0x80 <= byte && byte <= 0xCB {
            return f.write_str(keyword_of(byte));
        }
        write!(f, "{}", Character { byte })
    }
}
