//! What is written into a slot of the directory: a new relative file, and a block count.
ghost use Rattle.std.specs.Prelude.{◌≡◌, ◌≤◌, ◌<◌, length};
ghost use Rattle.d64_image.specs.declared.place.Place.{Place};
ghost use Rattle.disk_layout.specs.Directory.{slot_in};
ghost use Rattle.disk_layout.specs.Entries.{IsRecounted, rel_entry};
ghost use Rattle.disk_layout.specs.Layout.{count_field};
ghost use Rattle.disk_layout.specs.Rest.{slot_name};

use byteorder::{ByteOrder, LittleEndian};
use d64_image::Place;

/// The type byte of a closed relative file.
pub(crate) const REL: u8 = 0x84;

/// The type byte of a closed relative file that is locked.
pub(crate) const LOCKED_REL: u8 = 0xC4;

/// The index of the block count in a slot, low byte first.
const COUNT_AT: usize = 30;

/// A name as a slot or 18/0 holds it: sixteen bytes, the name and then shifted spaces.
pub fn padded_name(name: &[u8]) -> [u8; 16]
    requires { length name.now ≤ 16 }
    ensures { result ≡ slot_name name.now }
{
    let mut padded = [0xA0; 16];
    padded[..name.len()].copy_from_slice(name);
    padded
}

/// Bytes 2 to 31 of the slot of a closed relative file. They hold its name, its first data block, its first side
/// sector, the length of its records, and the number of its data blocks and side sectors together.
pub fn relative_entry(
    name: &[u8],
    first: Place,
    side: Place,
    record_length: u8,
    blocks: u16,
) -> [u8; 30]
    requires { length name.now ≤ 16 }
    ensures { result ≡ rel_entry name.now first side record_length blocks }
{
    let mut entry = [0; 30];
    LittleEndian::write_u16(&mut entry[28..30], blocks);
    entry[0] = REL;
    entry[1] = first.track();
    entry[2] = first.sector();
    entry[19] = side.track();
    entry[20] = side.sector();
    entry[21] = record_length;
    entry[3..19].copy_from_slice(&padded_name(name));
    entry
}

/// Writes the block count of the slot with this number, from 0 to 7, into the bytes of its directory sector. All other
/// bytes stay. If that is the count already, all bytes stay.
pub fn set_count(bytes: &mut [u8; 256], number: u8, count: u16)
    requires { number < 8 }
    ensures count { (p : Place) → count_field (slot_in p bytes.new number) ≡ count }
    ensures rest { IsRecounted bytes.old bytes.new number }
    ensures kept { (p : Place) → count_field (slot_in p bytes.old number) ≡ count → bytes.new ≡ bytes.old }
{
    let at = 32 * number as usize + COUNT_AT;
    LittleEndian::write_u16(&mut bytes[at..at + 2], count);
}
