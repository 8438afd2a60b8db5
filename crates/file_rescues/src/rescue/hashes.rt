//! Hashes in hexadecimal digits.
ghost use Rattle.std.specs.Prelude.{Some, flat_map};
ghost use Rattle.line_text.specs.basic.Characters.{hex};
ghost use Rattle.file_rescues.specs.rescue.Index.{hash_text};

use std::fmt::{self, Display, Formatter};

/// A byte in two hexadecimal digits.
#[derive(Clone, Copy)]
struct HexByte(u8);

impl Display for HexByte {
    ghost output = { λ digits. Some (hex digits.0) };

    fn fmt<W: fmt::Write>(&self, f: &mut Formatter<W>) -> fmt::Result {
        write!(f, "{:x}{:x}", self.0 / 16, self.0 % 16)
    }
}

/// A hash in hexadecimal digits.
#[derive(Clone, Copy)]
struct Hex([u8; 32]);

impl Display for Hex {
    ghost output = { λ digits. Some (flat_map hex digits.0) };

    fn fmt<W: fmt::Write>(&self, f: &mut Formatter<W>) -> fmt::Result {
        for &byte in &self.0 {
            write!(f, "{}", HexByte(byte))?;
        }
        Ok(())
    }
}

/// The hash of a file's bytes, if there is a file.
#[derive(Clone, Copy)]
pub(crate) struct Hash(pub Option<[u8; 32]>);

impl Display for Hash {
    ghost output = { λ hash. Some (hash_text hash.0) };

    fn fmt<W: fmt::Write>(&self, f: &mut Formatter<W>) -> fmt::Result {
        match self.0 {
            None => Ok(()),
            Some(hash) => write!(f, "{}", Hex(hash)),
        }
    }
}
