//! What a relative entry owns, as it is found.

use arrayvec::ArrayVec;
use d64_image::Place;
use disk_layout::MOST_BLOCKS;

/// The data blocks and the side sectors of a relative entry, each in order. The memory is used again for each entry.
#[derive(Drop)]
pub(crate) struct FileSectors {
    /// Its data blocks.
    pub(crate) blocks: ArrayVec<Place, MOST_BLOCKS>,
    /// Its side sectors.
    pub(crate) sides: ArrayVec<Place, 6>,
}

impl FileSectors {
    /// Room for the parts of an entry.
    pub(crate) fn new() -> FileSectors {
        FileSectors {
            blocks: ArrayVec::new(),
            sides: ArrayVec::new(),
        }
    }
}
