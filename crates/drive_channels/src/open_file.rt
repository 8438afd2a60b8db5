//! A file as it was found, and the place of a channel in it.
ghost use Rattle.std.specs.Prelude.{◌≡◌};

use arrayvec::ArrayVec;
use rel_records::RelFile;

/// A file with the name under which it was found.
#[derive(Drop)]
pub(crate) struct NamedFile {
    pub(crate) name: ArrayVec<u8, 16>,
    pub(crate) file: RelFile,
}

/// A place in the file of a channel: the record and the byte in it, both from 1.
#[derive(Clone, Copy)]
pub(crate) struct Position {
    // the two bytes lie side by side: one with a word to itself is read as a word, which waits for the byte just
    // written
    pub(crate) channel: u8,
    pub(crate) position: u8,
    pub(crate) record_number: u32,
}

/// The file that was opened last, and its channel while that is open.
#[derive(Drop)]
pub(crate) struct OpenFile {
    pub(crate) found: NamedFile,
    pub(crate) spot: Option<Position>,
}

impl NamedFile {
    ghost use Rattle.std.specs.Prelude.{◌≤◌, ◌↔◌, IsTrue, length};

    /// A file under the name by which it was found.
    pub(crate) fn new(text: &[u8], file: RelFile) -> NamedFile
        requires fits { length text.now ≤ 16 }
        ensures name { result.name.items ≡ text.now }
        ensures file { result.file ≡ file }
    {
        let mut name = ArrayVec::new();
        name.try_extend_from_slice(text).ok();
        NamedFile { name, file }
    }

    /// Whether the file has this name.
    pub(crate) fn is_named(&self, name: &[u8]) -> bool
        ensures { IsTrue result ↔ (self.now.name.items ≡ name.now) }
    {
        self.name.as_slice() == name
    }
}

impl Position {
    ghost use Rattle.std.specs.Prelude.{◌<◌};
    ghost use Rattle.drive_channels.specs.Inside.{first_spot, next_spot};

    /// The first byte of the first record.
    pub(crate) fn first(channel: u8) -> Position
        ensures { result ≡ first_spot channel }
    {
        Position {
            channel,
            position: 1,
            record_number: 1,
        }
    }

    /// Goes on to the first byte of the next record.
    pub(crate) fn advance(&mut self)
        requires { self.old.record_number < 4294967295 }
        ensures { self.new ≡ next_spot self.old }
    {
        self.record_number += 1;
        self.position = 1;
    }
}
