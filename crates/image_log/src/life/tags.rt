//! What an image says while a service has a log beside it.
ghost use Rattle.std.specs.Prelude.{◌≡◌, ◌<◌, ◌↔◌, IsTrue, List, false, take, ℕ};
ghost use Rattle.image_log.specs.Blocks.{part};
ghost use Rattle.image_log.specs.life.Mixes.{IsTorn};
ghost use Rattle.image_log.specs.life.Tags.{HasNoTag, HasTagRoom, IsTagged, LacksLetters, LacksRoomAt, SaysLogAway, tag, untagged};

use d64_image::IMAGE_BYTES;

/// The tag.
const TAG: [u8; 8] = *b"LOG AWAY";

/// Where it begins in its sector.
pub(crate) const TAG_START: usize = 248;

/// The index of its sector, 18/0.
pub(crate) const TAGGED: usize = 357;

/// Whether each of the last eight bytes is 0, or the tag's.
fn has_tag_room(sector: &[u8; 256]) -> bool
    ensures { IsTrue result ↔ HasTagRoom sector.now }
{
    for j in 0..8usize {
        if sector[TAG_START + j] != 0 && sector[TAG_START + j] != TAG[j] {
            return false;
        }
    }
    true
}

/// Whether all of them are 0.
fn has_no_tag(sector: &[u8; 256]) -> bool
    ensures { IsTrue result ↔ HasNoTag sector.now }
{
    for j in 0..8usize {
        if sector[TAG_START + j] != 0 {
            return false;
        }
    }
    true
}

/// Whether a sector has the tag, or a part of it, as a write that was cut off leaves it.
pub(crate) fn is_tagged(sector: &[u8; 256]) -> bool
    ensures { IsTrue result ↔ IsTagged sector.now }
{
    has_tag_room(sector) && !has_no_tag(sector)
}

/// Takes the tag off a sector. Returns whether it was there.
pub(crate) fn take_tag(sector: &mut [u8; 256]) -> bool
    ensures told { IsTrue result ↔ IsTagged sector.old }
    ensures is { sector.new ≡ untagged sector.old }
    ensures torn { IsTrue result → (torn : List ℕ) → IsTorn sector.old sector.new torn → untagged torn ≡ untagged sector.old }
{
    if !is_tagged(sector) {
        return false;
    }
    for j in 0..8usize {
        sector[TAG_START + j] = 0;
    }
    true
}

/// Puts the tag on a sector that has room for it. Returns whether it has.
pub(crate) fn set_tag(sector: &mut [u8; 256]) -> bool
    ensures told { IsTrue result ↔ HasTagRoom sector.old }
    ensures put { IsTrue result → part sector.new 248 8 ≡ tag }
    ensures rest { take 248 sector.new ≡ take 248 sector.old }
    ensures full { result ≡ false → sector.new ≡ sector.old }
    ensures torn { IsTrue result → (torn : List ℕ) → IsTorn sector.old sector.new torn → untagged torn ≡ untagged sector.old }
{
    if !has_tag_room(sector) {
        return false;
    }
    sector[TAG_START..].copy_from_slice(&TAG);
    true
}

/// Whether none of the last eight bytes is the tag's.
fn lacks_letters(sector: &[u8; 256]) -> bool
    ensures { IsTrue result → LacksLetters sector.now }
{
    for j in 0..8usize {
        if sector[TAG_START + j] == TAG[j] {
            return false;
        }
    }
    true
}

/// Whether each of the last eight bytes is 0, or the tag's, in one of two sectors.
fn have_room(one: &[u8; 256], two: &[u8; 256]) -> bool
    ensures { result ≡ false → (j : ℕ) × (j < 8) × LacksRoomAt one.now j × LacksRoomAt two.now j }
{
    for j in 0..8usize {
        let (a, b) = (one[TAG_START + j], two[TAG_START + j]);
        if a != 0 && a != TAG[j] && b != 0 && b != TAG[j] {
            return false;
        }
    }
    true
}

/// Makes a sector 18/0 ready to be written in the place of `before`: it gets the tag if that has it. False if it can't be
/// written: the tag would hide its last eight bytes, or a cut write could look like a tag.
pub(crate) fn keep_tag(before: &[u8; 256], sector: &mut [u8; 256]) -> bool
    ensures is { IsTrue result → untagged sector.new ≡ sector.old }
    ensures torn { IsTrue result → (torn : List ℕ) → IsTorn before.now sector.new torn
        → IsTorn (untagged before.now) sector.old (untagged torn) }
    ensures kept { IsTrue result → IsTagged before.now → IsTagged sector.new }
{
    if is_tagged(before) {
        if !has_no_tag(sector) {
            return false;
        }
        return set_tag(sector);
    }
    !have_room(before, sector) || lacks_letters(before) && lacks_letters(sector)
}

/// Whether an image's bytes say that its log has the rest of it: a service has begun a log beside it, and hasn't landed
/// it. Bytes of another length aren't an image's.
pub fn is_log_away(image: &[u8]) -> bool
    ensures { IsTrue result ↔ SaysLogAway image.now }
{
    if image.len() != IMAGE_BYTES {
        return false;
    }
    let (sectors, _) = image.as_chunks::<256>();
    is_tagged(&sectors[TAGGED])
}
