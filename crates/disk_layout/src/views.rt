//! Views of the sectors of track 18: names, counts and entries, borrowed and not copied.
ghost use Rattle.std.specs.Prelude.{◌≡◌, ◌≢◌, ◌+◌, ◌<◌, ◌≤◌, ◌↔◌, IsTrue, length, slice_index, slice_range};
ghost use Rattle.byteorder.specs.Endian.{little_number};
ghost use Rattle.disk_layout.specs.Chain.{named_at};
ghost use Rattle.disk_layout.specs.Layout.{is_rel_type};
ghost use Rattle.disk_layout.specs.Map.{IsFree, map_count};
ghost use Rattle.disk_layout.specs.Rest.{slot_name};
ghost use Rattle.disk_layout.specs.View.{IsUnpadded, blocks_free, data_count, entry_bytes};

use crate::directory::DIRECTORY_TRACK;
use crate::entries::{LOCKED_REL, REL, padded_name};
use byteorder::{ByteOrder, LittleEndian};
use d64_image::{Place, TRACKS};

/// What pads a name to its sixteen bytes: a shifted space.
const PADDING: u8 = 0xA0;

/// The bytes of a name before its padding.
fn unpadded(padded: &[u8]) -> &[u8]
    ensures { IsUnpadded padded.now result.now }
{
    match padded.iter().position(|&byte| byte == PADDING) {
        Some(end) => &padded[..end],
        None => padded,
    }
}

/// A view of 18/0: the disk's name and id, and the map.
#[derive(Clone, Copy)]
pub struct BamView<'a> {
    /// The sector's bytes.
    pub bytes: &'a [u8; 256],
}

impl<'a> BamView<'a> {
    /// The view of these bytes of 18/0.
    pub fn new(bytes: &'a [u8; 256]) -> BamView<'a>
        ensures { result.bytes.now ≡ bytes.now }
    {
        BamView { bytes }
    }

    /// The disk's name, from byte $90, without its padding: at most sixteen bytes.
    pub fn name(&self) -> &'a [u8]
        ensures { IsUnpadded (slice_range self.now.bytes.now 144 160) result.now }
    {
        let bytes = self.bytes;
        unpadded(&bytes[0x90..0xA0])
    }

    /// The two bytes of the disk's id.
    pub fn id(&self) -> &'a [u8]
        ensures { result.now ≡ slice_range self.now.bytes.now 162 164 }
    {
        let bytes = self.bytes;
        &bytes[0xA2..0xA4]
    }

    /// The two bytes of the format's version, `2A` for the 1541.
    pub fn version(&self) -> &'a [u8]
        ensures { result.now ≡ slice_range self.now.bytes.now 165 167 }
    {
        let bytes = self.bytes;
        &bytes[0xA5..0xA7]
    }

    /// The count of free sectors of a track from 1 to 35, as stored.
    pub fn free_on(&self, track: u8) -> u8
        requires first { 1 ≤ track }
        requires last { track ≤ 35 }
        ensures { result ≡ map_count self.now.bytes.now track }
    {
        self.bytes[4 * track as usize]
    }

    /// Whether the sector is free in the map.
    pub fn is_free(&self, place: Place) -> bool
        ensures { IsTrue result ↔ IsFree self.now.bytes.now place }
    {
        let sector = place.sector();
        let byte = self.bytes[4 * place.track() as usize + 1 + sector as usize / 8];
        (byte >> (sector % 8)) & 1 == 1
    }

    /// The counts of all tracks except 18 together, as stored: the number at the end of a directory listing.
    // Out of line: a caller reserves stack for all 35 steps at its start, even if it never calls this.
    #[inline(never)]
    pub fn blocks_free(&self) -> u16
        ensures { result ≡ blocks_free self.now.bytes.now }
    {
        let mut sum = 0;
        for below in 0..TRACKS {
            sum += self.data_count(below + 1) as u16;
        }
        sum
    }

    /// The count of a track, and 0 for track 18, which has no data.
    fn data_count(&self, track: u8) -> u8
        requires first { 1 ≤ track }
        requires last { track ≤ 35 }
        ensures { result ≡ data_count self.now.bytes.now track }
    {
        if track == DIRECTORY_TRACK {
            0
        } else {
            self.free_on(track)
        }
    }
}

/// A view of a directory sector: its link and its eight slots.
#[derive(Clone, Copy)]
pub struct DirView<'a> {
    /// The sector's bytes.
    pub bytes: &'a [u8; 256],
}

impl<'a> DirView<'a> {
    /// The view of these bytes of a directory sector.
    pub fn new(bytes: &'a [u8; 256]) -> DirView<'a>
        ensures { result.bytes.now ≡ bytes.now }
    {
        DirView { bytes }
    }

    /// Track and sector of the next directory sector; in the last one the track is 0.
    pub fn link(&self) -> (u8, u8)
        ensures { result ≡ (slice_index self.now.bytes.now 0, slice_index self.now.bytes.now 1) }
    {
        (self.bytes[0], self.bytes[1])
    }

    /// The slot of this number, from 0 to 7.
    pub fn entry(&self, number: u8) -> EntryView<'a>
        requires { number < 8 }
        ensures { result.bytes.now ≡ entry_bytes self.now.bytes.now number }
    {
        let start = 32 * number as usize;
        let bytes = self.bytes;
        EntryView {
            bytes: &bytes[start..start + 32],
        }
    }
}

/// A view of a slot of the directory.
#[derive(Clone, Copy)]
pub struct EntryView<'a> {
    /// The slot's 32 bytes.
    pub bytes: &'a [u8],
    pub ghost whole: { length bytes.now ≡ 32 },
}

impl<'a> EntryView<'a> {
    /// The view of these bytes of a slot.
    pub fn new(bytes: &'a [u8; 32]) -> EntryView<'a>
        ensures { result.bytes.now ≡ bytes.now }
    {
        EntryView { bytes }
    }

    /// The type byte: 0 in a free slot; bit 7 closed, bit 6 locked, the low bits 0 DEL, 1 SEQ, 2 PRG, 3 USR, 4 REL.
    pub fn type_byte(&self) -> u8
        ensures { result ≡ slice_index self.now.bytes.now 2 }
    {
        self.bytes[2]
    }

    /// Whether the entry is closed: bit 7 of the type byte is set.
    pub fn is_closed(&self) -> bool
        ensures { IsTrue result ↔ (128 ≤ slice_index self.now.bytes.now 2) }
    {
        self.type_byte() >= 128
    }

    /// Whether the entry is that of a closed relative file, locked or not.
    pub fn is_relative(&self) -> bool
        ensures { result ≡ is_rel_type (slice_index self.now.bytes.now 2) }
    {
        matches!(self.type_byte(), REL | LOCKED_REL)
    }

    /// The name without its padding: at most sixteen bytes.
    pub fn name(&self) -> &'a [u8]
        ensures { IsUnpadded (slice_range self.now.bytes.now 5 21) result.now }
    {
        unpadded(&self.bytes[5..21])
    }

    /// Whether the name with its padding is these sixteen bytes, as `padded_name` makes them.
    pub fn has_padded_name(&self, padded: &[u8; 16]) -> bool
        ensures { IsTrue result ↔ (slice_range self.now.bytes.now 5 21 ≡ padded.now) }
    {
        &self.bytes[5..21] == padded.as_slice()
    }

    /// Whether the entry has this name. It is false of a name of more than sixteen bytes.
    pub fn has_name(&self, name: &[u8]) -> bool
        ensures { IsTrue result ↔ (slice_range self.now.bytes.now 5 21 ≡ slot_name name.now) }
    {
        name.len() <= 16 && self.has_padded_name(&padded_name(name))
    }

    /// Whether the slot names a first data block in bytes 3-4: track 0 means that there is none.
    pub fn has_first_block(&self) -> bool
        ensures { IsTrue result ↔ (slice_index self.now.bytes.now 3 ≢ 0) }
    {
        self.bytes[3] != 0
    }

    /// The first data block. None if bytes 3-4 name no place of the disk.
    pub fn first_block(&self) -> Option<Place>
        ensures { result ≡ named_at self.now.bytes.now 3 }
    {
        Place::new(self.bytes[3], self.bytes[4])
    }

    /// The first side sector, in the slot of a relative file. None if bytes 21-22 name no place of the disk.
    pub fn first_side(&self) -> Option<Place>
        ensures { result ≡ named_at self.now.bytes.now 21 }
    {
        Place::new(self.bytes[21], self.bytes[22])
    }

    /// The record length, in the slot of a relative file.
    pub fn record_length(&self) -> u8
        ensures { result ≡ slice_index self.now.bytes.now 23 }
    {
        self.bytes[23]
    }

    /// The block count as stored, low byte first.
    pub fn block_count(&self) -> u16
        ensures { result ≡ little_number 2 (slice_range self.now.bytes.now 30 32) }
    {
        LittleEndian::read_u16(&self.bytes[30..32])
    }
}
