//! Side sectors of relative files: they list a file's data blocks, 120 to a side sector.
ghost use Rattle.std.specs.Prelude.{◌≡◌, ◌+◌, ◌*◌, ◌++◌, ◌<◌, ◌≤◌, ◌∷◌, [], length, slice_get, slice_index, take, drop};
ghost use Rattle.std.specs.Prelude.{MatchOption, flat_map};
ghost use Rattle.disk_layout.specs.Chain.{named_at};
ghost use Rattle.disk_layout.specs.Side.{NamesNext};
ghost use Rattle.disk_layout.specs.Side.{link_bytes, place_bytes, pointers_of, side_sector};

use d64_image::Place;

/// The greatest number of data blocks that a side sector points to.
pub const POINTERS: usize = 120;

/// The greatest number of data blocks of a relative file: the pointers of six side sectors.
pub const MOST_BLOCKS: usize = 720;

/// The index of the pointers to data blocks in a side sector, two bytes each.
pub const POINTERS_AT: usize = 16;

/// The greatest number of side sectors of a relative file. Each side sector lists all of them.
pub const MOST_SIDES: usize = 6;

/// The index of the list of side sectors in a side sector, two bytes each.
pub const LIST_AT: usize = 4;

/// The data blocks that side sector `number` points to: 120 from block 120 * number on, or fewer if the file ends
/// there.
fn pointers(number: u8, blocks: &[Place]) -> &[Place]
    ensures places { result.now ≡ pointers_of number blocks.now }
    ensures few { length result.now ≤ 120 }
{
    let start = (POINTERS * number as usize).min(blocks.len());
    let end = (start + POINTERS).min(blocks.len());
    &blocks[start..end]
}

/// Bytes 0-1 of side sector `number`, in which `used` pointers are used.
fn link(number: u8, sides: &[Place], used: usize) -> (u8, u8)
    requires few { used ≤ 120 }
    ensures { result.0 ∷ result.1 ∷ [] ≡ link_bytes (slice_get sides.now (number + 1)) (15 + 2 * used) }
{
    match sides.get(number as usize + 1) {
        Some(next) => (next.track(), next.sector()),
        None => (0, 15 + 2 * used as u8),
    }
}

/// Writes the places into the bytes from `at` on: track and sector of each.
fn set_places(bytes: &mut [u8; 256], at: usize, places: &[Place])
    requires room { at + 2 * length places.now ≤ 256 }
    ensures { bytes.new
        ≡ take at bytes.old ++ (flat_map place_bytes places.now ++ drop (at + 2 * length places.now) bytes.old) }
{
    for (i, place) in places.iter().enumerate() {
        let start = at + 2 * i;
        bytes[start..start + 2].copy_from_slice(&[place.track(), place.sector()]);
    }
}

/// The exact bytes of side sector `number`, counted from 0, of a relative file with these data blocks, these side
/// sectors and this record length.
///
/// Bytes 0-1 name the next side sector; in the last they are 0 and the index of the last used byte. Byte 2 is the
/// number and byte 3 the record length. The places of all side sectors begin at byte 4, the same in every side sector.
/// The places of the data blocks from 120 * number on begin at byte 16. Unused bytes of either list are 0.
pub fn side_bytes(number: u8, blocks: &[Place], sides: &[Place], length: u8) -> [u8; 256]
    ensures { result ≡ side_sector number blocks.now sides.now length }
{
    let pointers = pointers(number, blocks);
    let (track, sector) = link(number, sides, pointers.len());
    let mut bytes = [0; 256];
    bytes[0] = track;
    bytes[1] = sector;
    bytes[2] = number;
    bytes[3] = length;
    set_places(&mut bytes, LIST_AT, &sides[..sides.len().min(MOST_SIDES)]);
    set_places(&mut bytes, POINTERS_AT, pointers);
    bytes
}

/// A view of a side sector's bytes: its fields, and the places that it names.
#[derive(Clone, Copy)]
pub struct SideView<'a> {
    /// The sector's bytes.
    pub bytes: &'a [u8; 256],
}

impl<'a> SideView<'a> {
    /// The view of these bytes of a side sector.
    pub fn new(bytes: &'a [u8; 256]) -> SideView<'a>
        ensures { result.bytes.now ≡ bytes.now }
    {
        SideView { bytes }
    }

    /// The next side sector. None if bytes 0-1 name no place, as in the last one.
    pub fn next(&self) -> Option<Place>
        ensures { result ≡ named_at self.now.bytes.now 0 }
    {
        Place::new(self.bytes[0], self.bytes[1])
    }

    /// The next side sector, of side sector `number` from 0, if it links to the one that it lists as the next. None as in
    /// the last one, and if the two differ.
    pub fn next_listed(&self, number: usize) -> Option<Place>
        requires listed { number < 5 }
        ensures { MatchOption result ((q : Place) → ¬ (NamesNext self.now.bytes.now number q))
            (NamesNext self.now.bytes.now number) }
    {
        let listed = LIST_AT + 2 * (number + 1);
        if self.bytes[0] != self.bytes[listed] || self.bytes[1] != self.bytes[listed + 1] {
            return None;
        }
        self.next()
    }

    /// Its number among the file's side sectors, from its byte 2: 0 to 5 in a sound file.
    pub fn number(&self) -> u8
        ensures { result ≡ slice_index self.now.bytes.now 2 }
    {
        self.bytes[2]
    }

    /// The file's record length in bytes.
    pub fn record_length(&self) -> u8
        ensures { result ≡ slice_index self.now.bytes.now 3 }
    {
        self.bytes[3]
    }

    /// The file's side sector with this number, from 0 to 5, as this one lists it. None if the two bytes name no place.
    pub fn side(&self, number: usize) -> Option<Place>
        requires listed { number < 6 }
        ensures { result ≡ named_at self.now.bytes.now (4 + 2 * number) }
    {
        Place::new(self.bytes[4 + 2 * number], self.bytes[5 + 2 * number])
    }

    /// The data block with this number, from 0 to 119, among those that it points to. None if the two bytes name no
    /// place.
    pub fn block(&self, number: usize) -> Option<Place>
        requires listed { number < 120 }
        ensures { result ≡ named_at self.now.bytes.now (16 + 2 * number) }
    {
        let at = POINTERS_AT + 2 * number;
        Place::new(self.bytes[at], self.bytes[at + 1])
    }
}
