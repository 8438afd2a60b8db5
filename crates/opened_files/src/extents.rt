//! Which images a command takes.

/// The images that a command takes, and what it takes of them. Any other one is refused where the disk is loaded, since it hasn't
/// the size of a disk.
#[derive(Clone, Copy)]
pub enum Extent {
    /// Images of 35 tracks alone.
    Disk,
    /// Images of 35, 40 or 42 tracks, with error bytes or without: their first 35 tracks.
    FirstTracks,
    /// The same images, whole.
    Whole,
}
