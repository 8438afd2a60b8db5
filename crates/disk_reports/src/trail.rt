//! What the links of an entry come to.
use arrayvec::ArrayVec;
use d64_image::Place;
use disk_layout::{Fault, MOST_BLOCKS, MOST_SIDES, Slot};

/// A used entry of the directory, and what its links come to.
#[derive(Drop)]
pub(crate) struct Trail {
    /// The entry.
    pub(crate) slot: Slot,
    /// The blocks that its links come to, in order and each once.
    pub(crate) blocks: ArrayVec<Place, MOST_BLOCKS>,
    /// The fault that ends the chain of its blocks: `BadLink` or `Loop`.
    pub(crate) end: Option<Fault>,
    /// The side sectors of a relative entry whose chain is whole, in order, as far as each links to the one that it lists
    /// as the next: no more than its blocks need.
    pub(crate) sides: ArrayVec<Place, MOST_SIDES>,
    /// Those of them that are wrong by themselves.
    pub(crate) wrong: ArrayVec<Place, MOST_SIDES>,
}
