//! What a system in memory has done, one thing after another.
use one_host::{Entry, Kind, Lock, Stream};

/// A change of a world. A file is named by its number.
#[derive(Drop)]
pub enum Move {
    /// A file or a folder was made: its number, its path, what it is, and its mode.
    Made(usize, Vec<u8>, Kind, u32),
    /// A path leads there.
    Entered(Vec<u8>, Entry),
    /// What had the first path has the second one; it is this.
    Moved(Vec<u8>, Vec<u8>, Entry),
    /// The names in the folder of this path were synced.
    FolderSynced(Vec<u8>),
    /// A file has these bytes.
    Changed(usize, Vec<u8>),
    /// A file was synced.
    Synced(usize),
    /// A file has another mode.
    Guarded(usize, u32),
    /// A file is locked by this program.
    Locked(usize, Lock),
    /// So many bytes of these were read from standard input.
    Heard(usize, Vec<u8>),
    /// A text was printed.
    Printed(Stream, Vec<u8>),
    /// Nothing changed.
    Stayed,
    /// Others let a path lead there.
    Meddled(Vec<u8>, Entry),
}
