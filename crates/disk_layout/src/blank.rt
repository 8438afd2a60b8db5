//! The blank image: an empty disk with the two relative files of a ledger.
ghost use Rattle.std.specs.Prelude.{◌≡◌, ◌+◌, ◌<◌, ◌≤◌, IsTrue, length, OnOk, slice_get, Some};
ghost use Rattle.d64_image.specs.History.{Changes, TellsFailure};
ghost use Rattle.disk_layout.specs.Blank.{AreRequestPlaces, IsBlank, IsEmptyBlock, IsRequestPlace, SameElsewhere};
ghost use Rattle.disk_layout.specs.Blank.{blank_directory, request_blocks};
ghost use Rattle.disk_layout.specs.Clean.{IsClean};
ghost use Rattle.disk_layout.specs.BlankWritten.{IsWritten};

use crate::blank_map::blank_map;
use crate::directory::{directory_start, map_place};
use crate::entries::relative_entry;
use crate::filling::fill;
use crate::shop_files::{REQUESTS_LENGTH, REQUESTS_NAME, STOCK_LENGTH, STOCK_NAME};
use crate::side::side_bytes;
use arrayvec::ArrayVec;
use d64_image::{DeviceFault, Place, Sectors};

/// The place after the one with this number.
fn next_of(places: &[Place], number: usize) -> Option<Place>
    requires { number < length places.now }
    ensures { result ≡ slice_get places.now (number + 1) }
{
    places.get(number + 1).copied()
}

/// A data block of empty records. It links to the next block, or, as the last one, has the index `last` in byte 1.
fn empty_block(next: Option<Place>, last: u8, length: u8, records: u8) -> [u8; 256]
    requires { 0 < length }
    ensures { IsEmptyBlock result next last length records }
{
    let mut bytes = [0; 256];
    match next {
        Some(place) => {
            bytes[0] = place.track();
            bytes[1] = place.sector();
        }
        None => bytes[1] = last,
    }
    fill(&mut bytes, 0, 0, length, records as u32);
    bytes
}

/// The second file's data block with this number, and its bytes.
fn request_sector(requests: &[Place], number: usize) -> (Place, [u8; 256])
    requires { number < length requests.now }
    ensures place { slice_get requests.now number ≡ Some result.0 }
    ensures bytes { IsEmptyBlock result.1 (slice_get requests.now (number + 1)) 255 127 2 }
{
    (
        requests[number],
        empty_block(next_of(requests, number), 255, REQUESTS_LENGTH, 2),
    )
}

/// The directory sector with the two entries.
fn directory_bytes(blocks: u8) -> [u8; 256]
    requires { blocks ≤ 32 }
    ensures { result ≡ blank_directory blocks }
{
    let stock = relative_entry(
        STOCK_NAME,
        Place::known(17, 0),
        Place::known(17, 1),
        STOCK_LENGTH,
        2,
    );
    let requests = relative_entry(
        REQUESTS_NAME,
        Place::known(17, 2),
        Place::known(17, 3),
        REQUESTS_LENGTH,
        blocks as u16 + 1,
    );
    let mut bytes = [0; 256];
    bytes[1] = 0xFF;
    bytes[34..64].copy_from_slice(&requests);
    bytes[2..32].copy_from_slice(&stock);
    bytes
}

/// The sector with this number among those that are written, and its bytes: map, directory, then the files' sectors.
fn blank_sector(number: usize, name: &[u8], id: [u8; 2], requests: &[Place]) -> (Place, [u8; 256])
    requires name { length name.now ≤ 16 }
    requires blocks { length requests.now ≤ 32 }
    requires number { number < 5 + length requests.now }
    ensures { IsWritten name.now id requests.now number result.0 result.1 }
{
    let blocks = requests.len() as u8;
    let (stock_block, stock_side, requests_side) = (
        Place::known(17, 0),
        Place::known(17, 1),
        Place::known(17, 3),
    );
    match number {
        0 => (map_place(), blank_map(name, id, blocks)),
        1 => (directory_start(), directory_bytes(blocks)),
        2 => (stock_block, empty_block(None, 253, STOCK_LENGTH, 14)),
        3 => (
            stock_side,
            side_bytes(0, &[stock_block], &[stock_side], STOCK_LENGTH),
        ),
        4 => (
            requests_side,
            side_bytes(0, requests, &[requests_side], REQUESTS_LENGTH),
        ),
        _ => request_sector(requests, number - 5),
    }
}

/// The place of the second file's data block with this number. As blocks are picked on an empty disk, it comes after
/// the first file's sectors and after the second file's side sector.
fn request_place(number: u8) -> Place
    requires { number < 32 }
    ensures { IsRequestPlace number result }
{
    match number {
        0 => Place::known(17, 2),
        1..=17 => Place::known(17, number + 3),
        _ => Place::known(19, number - 18),
    }
}

/// The data blocks of the second file, in order.
fn request_places(blocks: u8) -> ArrayVec<Place, 32>
    requires { blocks ≤ 32 }
    ensures { AreRequestPlaces result.items blocks }
{
    let mut places = ArrayVec::new();
    for number in 0..blocks {
        places.push(request_place(number));
    }
    places
}

/// Writes the blank image: the disk's name and id, a directory with two relative files, and a map in which all sectors
/// but theirs are free. STOCK has records of 18 bytes, 14 empty ones in one block. REQUESTS has records of 127 bytes,
/// two to a block. It has an empty record for each till, and one more if the number of tills is odd.
///
/// Sectors that are 0 in the image aren't written: the caller passes a disk of zeros. On any other disk, the sectors
/// that the image doesn't use stay as they are. At an error some of the sectors are written.
pub fn blank_image<D: Sectors>(
    disk: &mut D,
    name: &[u8],
    id: [u8; 2],
    tills: u8,
) -> Result<(), DeviceFault>
    requires name { length name.now ≤ 16 }
    requires some { 1 ≤ tills }
    requires few { tills ≤ 64 }
    ensures ok { OnOk result (IsBlank (D.history.image disk.old) (D.history.image disk.new) name.now id tills) }
    // clean whatever the disk held before: the law blank_is_clean names the layout
    ensures clean { OnOk result (IsClean (D.history.image disk.new)) }
    ensures moments { Changes D.history disk.old disk.new (5 + request_blocks tills)
        (SameElsewhere (request_blocks tills) (D.history.image disk.old)) }
    ensures failures { TellsFailure D.history disk.old disk.new result }
{
    let requests = request_places((tills + 1) / 2);
    for number in 0..5 + requests.len() {
        let (place, bytes) = blank_sector(number, name, id, requests.as_slice());
        disk.write(place, &bytes)?;
    }
    Ok(())
}
