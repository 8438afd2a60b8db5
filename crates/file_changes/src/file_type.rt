//! The types of files that aren't relative.
ghost use Rattle.std.specs.Prelude.{◌≡◌};
ghost use Rattle.file_changes.specs.Puts.{type_number};

/// The type of a file that isn't relative.
#[derive(Clone, Copy, Debug, PartialEq, Eq)]
pub enum FileType {
    /// `SEQ`: data.
    Seq,
    /// `PRG`: a program.
    Prg,
    /// `USR`: the user's own.
    Usr,
}

impl FileType {
    /// The type byte of a closed entry: 81 for `SEQ`, 82 for `PRG`, 83 for `USR`.
    pub fn type_byte(self) -> u8
        ensures { result ≡ type_number self }
    {
        match self {
            FileType::Seq => 0x81,
            FileType::Prg => 0x82,
            FileType::Usr => 0x83,
        }
    }
}
