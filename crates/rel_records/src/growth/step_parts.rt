//! What growth keeps in memory between two blocks.
ghost use Rattle.std.specs.Prelude.{◌<◌, ◌≤◌};

use arrayvec::ArrayVec;
use d64_image::Place;
use disk_layout::{Bam, MOST_BLOCKS};

/// What growth keeps in memory from block to block, so that another block needs no read. It has the map and the bytes
/// of the directory sector with the file's slot. It has the slot's place, the record length, the side sectors, the data
/// blocks, and the bytes of the last of these.
#[derive(Drop)]
pub(crate) struct Growing {
    pub(crate) map: Bam,
    pub(crate) sector: Place,
    pub(crate) number: u8,
    pub(crate) size: u8,
    pub(crate) sides: ArrayVec<Place, 6>,
    pub(crate) blocks: ArrayVec<Place, MOST_BLOCKS>,
    pub(crate) last: [u8; 256],
    pub(crate) directory: [u8; 256],
    ghost eight: { number < 8 },
    ghost size_low: { 1 ≤ size },
    ghost size_high: { size ≤ 254 },
}

impl Growing {
    ghost use Rattle.std.specs.Prelude.{◌≡◌, ◌++◌, ◌∷◌, [], List, length};
    ghost use Rattle.d64_image.specs.declared.place.Place.{Place};

    /// The last data block.
    pub(crate) fn last_place(&self) -> Place
        requires { 1 ≤ length self.now.blocks.items }
        ensures { (front : List Place) (last : Place) → self.now.blocks.items ≡ front ++ last ∷ [] → result ≡ last }
    {
        self.blocks[self.blocks.len() - 1]
    }
}
