//! A log's file, as the log sees it.
ghost use Rattle.image_log.specs.Files.{FileHistory, Lengthens, SyncsBytes, WritesBytes};

use std::io;

/// A file that is written at places and synced. Its history names what it holds and what a power loss may leave of it, if
/// that is known; of a real file it isn't.
pub trait LogFile: Drop {
    /// What a file of this type holds, and what a power loss may leave of it.
    ghost history: { FileHistory Self };

    /// Writes these bytes from that place on, in bytes from the file's start: over those that are there, or after the
    /// last byte. Until a sync a power loss leaves each byte of the range as it was or as it is now, in any mix. An error
    /// does that too.
    fn write_at(&mut self, at: usize, bytes: &[u8]) -> io::Result<()>
        ensures { WritesBytes history self.old self.new at bytes.now result };

    /// Gives an empty file this length, in bytes, which are all 0. They needn't be written one by one. What a power loss
    /// leaves of it before the next sync isn't said.
    fn lengthen(&mut self, size: usize) -> io::Result<()>
        ensures { Lengthens history self.old self.new size result };

    /// Syncs the file: after that a power loss leaves what a read returns. At an error any of what wasn't there may be,
    /// or not, and a further sync says nothing: the caller stops.
    fn sync(&mut self) -> io::Result<()>
        ensures { SyncsBytes history self.old self.new result };
}
