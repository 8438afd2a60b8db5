//! A file that keeps the sectors of a disk.
ghost use Rattle.d64_image.specs.Keeps.{Keeps, KeepsSector};

use crate::place::Place;
use std::io;

/// A file that keeps the sectors of a disk. Its history says what it keeps and kept, if that is known.
pub trait SectorFile {
    /// What a file of this type keeps and kept, and how often it failed.
    ghost keeps: { Keeps Self };

    /// Keeps a sector. At an error the file keeps the sector when the call ends, or it kept what it did before at each
    /// moment of the call. Nothing else was ever kept on the way.
    fn keep(&mut self, place: Place, from: &[u8; 256]) -> io::Result<()>
        ensures { KeepsSector keeps self.old self.new place from.now result };
}
