//! Names of entries and of the disk, without their padding.
ghost use Rattle.std.specs.Prelude.{◌≡◌, ◌≢◌, ◌⊎◌, ◌≤◌, ◌-◌, ◌<◌, ℕ, length, slice_index};
ghost use Rattle.damaged_files.specs.reached.Names as names;
ghost use Rattle.damaged_files.specs.reached.Names.{name_of, unpadded};

use disk_layout::Slot;

/// What pads a name to its sixteen bytes: a shifted space.
const PADDING: u8 = 0xA0;

/// How many of the bytes there are up to the last one that isn't a shifted space.
fn end_of(bytes: &[u8]) -> usize
    ensures high { result ≤ length bytes.now }
    ensures padding { (i : ℕ) → result ≤ i → i < length bytes.now → slice_index bytes.now i ≡ 160 }
    ensures last { (result ≡ 0) ⊎ (slice_index bytes.now (result - 1) ≢ 160) }
{
    let mut end = bytes.len();
    while end > 0 && bytes[end - 1] == PADDING {
        end -= 1;
    }
    end
}

/// The bytes up to the last one that isn't a shifted space.
pub(crate) fn without_padding(bytes: &[u8]) -> &[u8]
    ensures name { result.now ≡ unpadded bytes.now }
    ensures short { length result.now ≤ length bytes.now }
{
    &bytes[..end_of(bytes)]
}

/// The name of an entry, at most sixteen bytes: those up to the last one that isn't a shifted space, which pads it.
pub fn entry_name(slot: &Slot) -> &[u8]
    ensures name { result.now ≡ name_of slot.now }
    ensures short { length result.now ≤ 16 }
{
    without_padding(&slot.bytes[5..21])
}

/// The name of the disk whose 18/0 has these bytes, likewise.
pub fn disk_name(map: &[u8; 256]) -> &[u8]
    ensures { result.now ≡ names.disk_name map.now }
{
    without_padding(&map[0x90..0xA0])
}
