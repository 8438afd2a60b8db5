//! The types that a deleted file can get back.
ghost use Rattle.std.specs.Prelude.{◌≡◌};
ghost use Rattle.disk_changes.specs.Undeletes.{entry_number};

use file_changes::FileType;

/// The type of a file that has blocks.
#[derive(Clone, Copy, Debug, PartialEq, Eq)]
pub enum EntryType {
    /// It isn't relative.
    Plain(FileType),
    /// `REL`: a relative file.
    Relative,
}

impl EntryType {
    /// The type byte of a closed entry that isn't locked: 81 for `SEQ`, 82 for `PRG`, 83 for `USR`, 84 for `REL`.
    pub fn type_byte(self) -> u8
        ensures { result ≡ entry_number self }
    {
        match self {
            EntryType::Plain(kind) => kind.type_byte(),
            EntryType::Relative => 0x84,
        }
    }
}
