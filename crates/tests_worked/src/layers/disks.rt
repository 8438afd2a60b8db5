//! The places, sectors and disks of the rows. A disk in memory doesn't fail, so nothing here asks whether it did: each
//! `?` of a row would be proved with all that stands before it.
use d64_image::{MemDisk, Place, Sectors};
use disk_layout::blank_image;
use std::process::Abort;

/// The place. One that the disk lacks is 1/0.
pub(crate) fn at(track: u8, sector: u8) -> Place {
    Place::new(track, sector).unwrap_or_default()
}

/// The bytes of a sector; if it can't be read, EE in each.
pub(crate) fn sector<D: Sectors>(disk: &mut D, place: Place) -> [u8; 256] {
    let mut bytes = [0xEE; 256];
    let _ = disk.read(place, &mut bytes);
    bytes
}

/// Writes a sector that begins with these two bytes, with zeros after them.
pub(crate) fn link(disk: &mut MemDisk, from: Place, track: u8, sector: u8) {
    let mut bytes = [0; 256];
    bytes[0] = track;
    bytes[1] = sector;
    let _ = disk.write(from, &bytes);
}

/// Changes two bytes of a sector.
pub(crate) fn change(disk: &mut MemDisk, place: Place, first: (u8, u8), second: (u8, u8)) {
    let mut bytes = sector(disk, place);
    bytes[first.0 as usize] = first.1;
    bytes[second.0 as usize] = second.1;
    let _ = disk.write(place, &bytes);
}

/// Gives a track of a map these four bytes.
pub(crate) fn put_four(map: &mut [u8; 256], track: u8, four: [u8; 4]) {
    let first = 4 * track as usize;
    if first < 253 {
        map[first..first + 4].copy_from_slice(&four);
    }
}

/// What 18/0 holds of the map if every sector is free except the two that the map and the directory have.
pub(crate) fn empty_map() -> [u8; 256] {
    let mut map = [0; 256];
    for track in 1..36u8 {
        let four = match track {
            18 => [0x11, 0xFC, 0xFF, 0x07],
            0..=17 => [0x15, 0xFF, 0xFF, 0x1F],
            19..=24 => [0x13, 0xFF, 0xFF, 0x07],
            25..=30 => [0x12, 0xFF, 0xFF, 0x03],
            _ => [0x11, 0xFF, 0xFF, 0x01],
        };
        put_four(&mut map, track, four);
    }
    map
}

/// A disk of zeros.
pub(crate) fn zeroed(rt: &(impl Abort + AllocGlobal)) -> MemDisk {
    MemDisk::zeroed(rt.alloc()).expect(rt, "a disk of zeros")
}

/// A fresh disk for two tills: STOCK has 17/0 and 17/1, REQUESTS has 17/2 and 17/3.
pub(crate) fn fresh(rt: &(impl Abort + AllocGlobal)) -> MemDisk {
    let mut disk = zeroed(rt);
    blank_image(&mut disk, b"STOCK LEDGER", *b"01", 2).expect(rt, "a blank disk");
    disk
}
