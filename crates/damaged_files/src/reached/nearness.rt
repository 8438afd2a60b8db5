//! Entries whose names are near to one that was asked for.
ghost use Rattle.std.specs.Prelude.{◌≡◌, ◌≤◌, bytes_eq, filter, length, map};
ghost use Rattle.damaged_files.specs.reached.Nearness as near;
ghost use Rattle.damaged_files.specs.reached.Nearness.{folded};

use crate::reached::directory::Entries;
use crate::reached::names::{entry_name, without_padding};
use arrayvec::ArrayVec;
use disk_layout::Slot;

/// How many bytes a name has at most.
const NAME_BYTES: usize = 16;

/// A byte of a name without its case; a space as a shifted space, which pads names.
fn folded_byte(byte: u8) -> u8
    ensures { result ≡ near.folded_byte byte }
{
    match byte {
        b' ' => 0xA0,
        b'a'..=b'z' => byte - 32,
        0xC1..=0xDA => byte - 128,
        _ => byte,
    }
}

/// The bytes of a name without their case.
fn fold(name: &[u8]) -> ArrayVec<u8, NAME_BYTES>
    requires { length name.now ≤ 16 }
    ensures { result.items ≡ map near.folded_byte name.now }
{
    let mut bytes = ArrayVec::new();
    for &byte in name {
        bytes.push(folded_byte(byte));
    }
    bytes
}

/// Whether two names are the same but for their case and the spaces at their ends.
fn is_alike(one: &[u8], other: &[u8]) -> bool
    requires one { length one.now ≤ 16 }
    requires other { length other.now ≤ 16 }
    ensures { result ≡ bytes_eq (folded one.now) (folded other.now) }
{
    let (one, other) = (fold(one), fold(other));
    without_padding(one.as_slice()) == without_padding(other.as_slice())
}

/// Whether the entry's name is near to this one.
fn is_near(slot: &Slot, name: &[u8]) -> bool
    ensures { result ≡ near.is_near name.now slot.now }
{
    if name.len() > NAME_BYTES {
        return false;
    }
    is_alike(entry_name(slot), name)
}

/// Fills `files` with those of these entries whose names are near to this one, in their order: names that differ from it at
/// most in the case of letters, in spaces that are shifted, and in spaces at the end. The entry may have any type, and it
/// needn't be closed. A name of more than sixteen bytes is near to none.
pub fn near_entries(entries: &[Slot], name: &[u8], files: &mut Entries)
    requires { length entries.now ≤ 144 }
    ensures { files.new.items ≡ filter (near.is_near name.now) entries.now }
{
    files.clear();
    for slot in entries {
        if is_near(slot, name) {
            files.push(*slot);
        }
    }
}
