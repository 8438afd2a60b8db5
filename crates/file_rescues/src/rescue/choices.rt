//! Which entries of a disk are taken out.

/// Which entries of a disk are taken out, in addition to those of its directory.
#[derive(Clone, Copy, Debug, PartialEq, Eq)]
pub struct Choice {
    /// Those of other sectors of track 18 too, if they look like sectors of a directory.
    pub scanned: bool,
    /// The deleted ones too, if no other file has a block of theirs.
    pub deleted: bool,
}
