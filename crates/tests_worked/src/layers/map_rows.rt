//! The map: the order of picking, taking and giving back.
use crate::comparing::{same, same_at};
use crate::layers::disks::{at, empty_map, put_four};
use d64_image::Place;
use disk_layout::Bam;
use std::process::Abort;

/// A map with a name, on which every sector is free except the two that the map and the directory have.
fn fresh() -> Bam {
    let mut bytes = empty_map();
    bytes[0x90..0x94].copy_from_slice(b"NAME");
    Bam::new(bytes)
}

/// The same with these four bytes of a track.
fn with_four(track: u8, four: [u8; 4]) -> Bam {
    let mut bytes = fresh().bytes;
    put_four(&mut bytes, track, four);
    Bam::new(bytes)
}

/// The tracks in the order of picking.
static TRACKS: [u8; 34] = [
    17, 19, 16, 20, 15, 21, 14, 22, 13, 23, 12, 24, 11, 25, 10, 26, 9, 27, 8, 28, 7, 29, 6, 30, 5,
    31, 4, 32, 3, 33, 2, 34, 1, 35,
];

/// Checks that the sectors of a track are picked in their order, and takes them.
fn is_picked(rt: &impl Abort, map: &mut Bam, track: u8) {
    for sector in 0..21u8 {
        if let Some(place) = Place::new(track, sector) {
            same(rt, map.pick(), Some(place));
            map.take(place);
        }
    }
}

/// Checks that these tracks are picked, one after another.
fn are_picked(rt: &impl Abort, map: &mut Bam, tracks: &[u8]) {
    for &track in tracks {
        is_picked(rt, map, track);
    }
}

// Tracks 17, 19, 16, 20 and so on; each sector of a track before the next track; at last none.
#[test]
fn picks_in_order(rt: HostRuntime) {
    let mut map = fresh();
    are_picked(&rt, &mut map, &TRACKS);
    same(&rt, map.pick(), None);
    same(&rt, map.view().blocks_free(), 0);
}

#[test]
fn picks_for_the_directory(rt: HostRuntime) {
    let mut map = fresh();
    for sector in 2..19u8 {
        let place = at(18, sector);
        same(&rt, map.pick_directory(), Some(place));
        map.take(place);
    }
    same(&rt, map.pick_directory(), None);
    same(&rt, map.view().free_on(18), 0);
}

/// A track, its four bytes, a sector, and the four bytes when it is taken, and then when it is given back.
type Four = (&'static str, (u8, u8), [u8; 4], [u8; 4], [u8; 4]);

static FOURS: [Four; 5] = [
    (
        "free",
        (17, 4),
        [0x11, 0xF0, 0xFF, 0x1F],
        [0x10, 0xE0, 0xFF, 0x1F],
        [0x11, 0xF0, 0xFF, 0x1F],
    ),
    (
        "not free",
        (17, 3),
        [0x11, 0xF0, 0xFF, 0x1F],
        [0x11, 0xF0, 0xFF, 0x1F],
        [0x12, 0xF8, 0xFF, 0x1F],
    ),
    (
        "the last, with spare bits",
        (1, 20),
        [0x15, 0xFF, 0xFF, 0xFF],
        [0x14, 0xFF, 0xFF, 0xEF],
        [0x15, 0xFF, 0xFF, 0xFF],
    ),
    (
        "a count of 0",
        (35, 0),
        [0x00, 0x01, 0x00, 0x00],
        [0x00, 0x00, 0x00, 0x00],
        [0x01, 0x01, 0x00, 0x00],
    ),
    (
        "a count of 255",
        (35, 16),
        [0xFF, 0x00, 0x00, 0x00],
        [0xFF, 0x00, 0x00, 0x00],
        [0xFF, 0x00, 0x00, 0x01],
    ),
];

#[test]
fn takes_and_gives(rt: HostRuntime) {
    for &(name, (track, sector), before, taken, given) in &FOURS {
        let place = at(track, sector);
        let mut map = with_four(track, before);
        map.take(place);
        same_at(&rt, map, with_four(track, taken), name);
        map.give(place);
        same_at(&rt, map, with_four(track, given), name);
    }
}
