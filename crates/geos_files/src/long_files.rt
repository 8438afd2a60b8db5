//! Files of GEOS with sectors past track 35, of images that have those tracks.
ghost use Rattle.std.specs.Prelude.{◌≡◌, ◌≤◌, ◌+◌, ◌++◌, ◌∷◌, ◌-◌, [], Some, length, min, nat_eq};
ghost use Rattle.std.specs.List.{AllByRecursion, list_any};
ghost use Rattle.long_chains.specs.Chains.{chain_of, if_ended};
ghost use Rattle.long_chains.specs.Sectors.{HasSector};
ghost use Rattle.geos_files.specs.Long as specs;
ghost use Rattle.geos_files.specs.Long.{at_most, if_taken, record_chain, records_to, with_record};

use crate::entries::is_like_geos;
use arrayvec::ArrayVec;
use disk_layout::{DATA, Slot};
use long_chains::{MOST_SECTORS, has_more_tracks, long_chain, sector_at};

/// How many records a file has: two bytes of the record block for each.
const RECORDS: usize = 127;

/// The most sectors of a record, since CVT counts them in a byte.
const MOST_OF_RECORD: usize = 255;

/// The most sectors of a file: those of 42 tracks but the map's and the directory's.
const MOST_OF_FILE: usize = 800;

/// The number of the first sector past track 35.
const FIRST_PAST: u16 = 683;

/// Fills `chain` with the sectors of the record whose pair in the record block is this track and this sector: none if the track is 0.
/// Returns whether its chain comes to its end.
fn walk_record(image: &[u8], track: u8, sector: u8, chain: &mut ArrayVec<u16, MOST_SECTORS>) -> bool
    ensures value { if_ended result chain.new.items ≡ record_chain image.now track sector }
    ensures inside { AllByRecursion (HasSector image.now) chain.new.items }
{
    if track == 0 {
        chain.clear();
        return true;
    }
    long_chain(image, track, sector, chain)
}

/// The index of the last byte in the last one of these sectors; without a sector the second byte of the record's pair.
fn last_index(image: &[u8], second: u8, chain: &[u16]) -> u8
    requires { AllByRecursion (HasSector image.now) chain.now }
    ensures { result ≡ specs.last_index image.now second chain.now }
{
    match chain.last() {
        Some(&number) => image[256 * number as usize + 1],
        None => second,
    }
}

/// Adds these sectors, for which there is room.
fn add_sectors(sectors: &mut ArrayVec<u16, MOST_SECTORS>, more: &[u16])
    requires { length sectors.old.items + length more.now ≤ 802 }
    ensures { sectors.new.items ≡ sectors.old.items ++ more.now }
{
    let _ = sectors.try_extend_from_slice(more);
}

/// Adds the two bytes of a record.
fn add_pair(pairs: &mut ArrayVec<u8, DATA>, count: u8, last: u8)
    requires { length pairs.old.items + 2 ≤ 254 }
    ensures { pairs.new.items ≡ pairs.old.items ++ count ∷ last ∷ [] }
{
    pairs.push(count);
    pairs.push(last);
}

/// Adds a record with the sectors of this chain, if it has few enough. Returns whether it has.
fn add_walked(
    image: &[u8],
    second: u8,
    chain: &[u16],
    sectors: &mut ArrayVec<u16, MOST_SECTORS>,
    pairs: &mut ArrayVec<u8, DATA>,
) -> bool
    requires chain { AllByRecursion (HasSector image.now) chain.now }
    requires inside { AllByRecursion (HasSector image.now) sectors.old.items }
    requires few { length sectors.old.items ≤ 800 }
    requires room { length pairs.old.items + 2 ≤ 254 }
    ensures value { if_taken result (sectors.new.items, pairs.new.items) ≡ with_record image.now second
        (sectors.old.items, pairs.old.items) (at_most (min 255 (800 - length sectors.old.items)) (Some chain.now)) }
    ensures inside { AllByRecursion (HasSector image.now) sectors.new.items }
    ensures few { length sectors.new.items ≤ 800 }
    ensures pairs { length pairs.new.items ≤ length pairs.old.items + 2 }
{
    let room = MOST_OF_RECORD.min(MOST_OF_FILE - sectors.len());
    if chain.len() > room {
        return false;
    }
    add_pair(pairs, chain.len() as u8, last_index(image, second, chain));
    add_sectors(sectors, chain);
    true
}

/// Adds the record whose pair in the record block is this track and this sector. Returns whether its chain comes to its end, and has few
/// enough sectors.
fn add_record(
    image: &[u8],
    track: u8,
    sector: u8,
    sectors: &mut ArrayVec<u16, MOST_SECTORS>,
    pairs: &mut ArrayVec<u8, DATA>,
) -> bool
    requires inside { AllByRecursion (HasSector image.now) sectors.old.items }
    requires few { length sectors.old.items ≤ 800 }
    requires room { length pairs.old.items + 2 ≤ 254 }
    ensures value { if_taken result (sectors.new.items, pairs.new.items) ≡ with_record image.now sector
        (sectors.old.items, pairs.old.items)
        (at_most (min 255 (800 - length sectors.old.items)) (record_chain image.now track sector)) }
    ensures inside { AllByRecursion (HasSector image.now) sectors.new.items }
    ensures few { length sectors.new.items ≤ 800 }
    ensures pairs { length pairs.new.items ≤ length pairs.old.items + 2 }
{
    let mut chain = ArrayVec::new();
    if !walk_record(image, track, sector, &mut chain) {
        return false;
    }
    add_walked(image, sector, chain.as_slice(), sectors, pairs)
}

/// Adds all records whose first sectors the record block with this number names. Returns whether each chain comes to its end, and has few
/// enough sectors.
fn add_records(
    image: &[u8],
    block: usize,
    sectors: &mut ArrayVec<u16, MOST_SECTORS>,
    pairs: &mut ArrayVec<u8, DATA>,
) -> bool
    requires block { HasSector image.now block }
    requires inside { AllByRecursion (HasSector image.now) sectors.old.items }
    requires few { length sectors.old.items ≤ 800 }
    requires none { pairs.old.items ≡ [] }
    ensures value { if_taken result (sectors.new.items, pairs.new.items) ≡ records_to image.now block sectors.old.items 127 }
    ensures inside { AllByRecursion (HasSector image.now) sectors.new.items }
    ensures few { length sectors.new.items ≤ 800 }
{
    let start = 256 * block;
    for number in 0..RECORDS {
        let at = start + (2 * number + 2);
        if !add_record(image, image[at], image[at + 1], sectors, pairs) {
            return false;
        }
    }
    true
}

/// Adds the sectors of the chain that begins at this track and sector. Returns whether the chain comes to its end, and has few enough.
fn add_chain(image: &[u8], track: u8, sector: u8, sectors: &mut ArrayVec<u16, MOST_SECTORS>) -> bool
    requires inside { AllByRecursion (HasSector image.now) sectors.old.items }
    requires one { length sectors.old.items ≡ 1 }
    ensures value { if_ended result sectors.new.items ≡ specs.behind sectors.old.items (at_most 799 (chain_of image.now track sector)) }
    ensures inside { AllByRecursion (HasSector image.now) sectors.new.items }
    ensures few { length sectors.new.items ≤ 800 }
{
    let mut chain = ArrayVec::new();
    if !long_chain(image, track, sector, &mut chain) || chain.len() >= MOST_OF_FILE {
        return false;
    }
    add_sectors(sectors, chain.as_slice());
    true
}

/// Fills `sectors` and `pairs` with those of the file of GEOS that this entry names, as CVT has them. Returns whether the image has all of
/// it.
fn add_parts(
    image: &[u8],
    slot: &Slot,
    sectors: &mut ArrayVec<u16, MOST_SECTORS>,
    pairs: &mut ArrayVec<u8, DATA>,
) -> bool
    requires sectors { sectors.old.items ≡ [] }
    requires pairs { pairs.old.items ≡ [] }
    ensures value { if_taken result (sectors.new.items, pairs.new.items) ≡ specs.named_parts image.now slot.now }
    ensures inside { AllByRecursion (HasSector image.now) sectors.new.items }
    ensures few { length sectors.new.items ≤ 800 }
{
    let bytes = &slot.bytes;
    let Some(info) = sector_at(image, bytes[21], bytes[22]) else {
        return false;
    };
    let Some(first) = sector_at(image, bytes[3], bytes[4]) else {
        return false;
    };
    sectors.push(info as u16);
    if bytes[23] != 1 {
        return add_chain(image, bytes[3], bytes[4], sectors);
    }
    sectors.push(first as u16);
    add_records(image, first, sectors, pairs)
}

/// Whether one of these sectors is past track 35.
fn has_past(sectors: &[u16]) -> bool
    ensures { result ≡ list_any specs.is_past sectors.now }
{
    for &number in sectors {
        if FIRST_PAST <= number {
            return true;
        }
    }
    false
}

/// Fills `sectors` with those of an entry's file, if it is one of GEOS with a sector past track 35, and the image has all of it: the info
/// block, the record block if it has records, and those of its chains. Fills `pairs` with two bytes for each of its 127 records, as CVT has
/// them. Returns whether this is so.
///
/// All of it is there if each chain comes to its end, each record has at most 255 sectors, and all together are at most 800.
pub fn find_long_geos(
    image: &[u8],
    slot: &Slot,
    sectors: &mut ArrayVec<u16, MOST_SECTORS>,
    pairs: &mut ArrayVec<u8, DATA>,
) -> bool
    ensures value { if_taken result (sectors.new.items, pairs.new.items) ≡ specs.long_geos image.now slot.now }
    ensures inside { AllByRecursion (HasSector image.now) sectors.new.items }
    ensures few { length sectors.new.items ≤ 800 }
{
    sectors.clear();
    pairs.clear();
    if !has_more_tracks(image) || !is_like_geos(slot) {
        return false;
    }
    add_parts(image, slot, sectors, pairs) && has_past(sectors.as_slice())
}

/// Whether this sector is one of these.
fn is_among(number: u16, sectors: &[u16]) -> bool
    ensures { result ≡ list_any (λ m. nat_eq m number) sectors.now }
{
    sectors.contains(&number)
}

/// Whether an entry's file is one of GEOS with a sector past track 35, of which the image has all, and this sector is one of its own.
pub fn is_in_long_geos(image: &[u8], slot: &Slot, number: u16) -> bool
    ensures { result ≡ specs.is_in_long_geos image.now slot.now number }
{
    let (mut sectors, mut pairs) = (ArrayVec::new(), ArrayVec::new());
    if !find_long_geos(image, slot, &mut sectors, &mut pairs) {
        return false;
    }
    is_among(number, sectors.as_slice())
}
