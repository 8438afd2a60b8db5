//! What is drawn of an entry: the sectors that its links come to.
ghost use Rattle.std.specs.Prelude.{◌≤◌, length};

use d64_image::Place;
use disk_layout::Slot;

/// A used entry of the directory, and what is drawn of it.
#[derive(Drop)]
pub struct DrawnFile {
    /// The entry.
    pub slot: Slot,
    /// The blocks that its links come to, in order and each once.
    pub blocks: Vec<Place>,
    /// The index of the last used byte in the last block; 0 if no block ends the chain.
    pub last: u8,
    /// The side sectors of a relative entry, in order: no more than its blocks need.
    pub sides: Vec<Place>,
    pub ghost few: { length blocks.items ≤ 720 },
}
