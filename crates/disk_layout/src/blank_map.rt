//! 18/0 of the blank image: the map, and the disk's name and id.
ghost use Rattle.std.specs.Prelude.{◌≡◌, ◌++◌, ◌∷◌, ◌≤◌, [], length, replicate};
ghost use Rattle.disk_layout.specs.Blank.{IsBlankMap, names_of, taken_on};
ghost use Rattle.disk_layout.specs.Free.{IsFreeFrom, IsWithoutFree};

use crate::bam::Bam;
use crate::entries::padded_name;
use d64_image::{Place, TRACKS};

/// 18/0 with no sector free: the bytes before the map, 140 zeros, the name, of at most sixteen bytes, and the id.
pub fn blank_header(name: &[u8], id: [u8; 2]) -> [u8; 256]
    requires { length name.now ≤ 16 }
    ensures { result ≡ (18 ∷ 1 ∷ 65 ∷ 0 ∷ []) ++ (replicate 140 0 ++ names_of name.now id) }
{
    let mut bytes = [0; 256];
    bytes[0] = 18;
    bytes[1] = 1;
    bytes[2] = b'A';
    bytes[0xA0..0xAB].copy_from_slice(&[
        0xA0, 0xA0, id[0], id[1], 0xA0, b'2', b'A', 0xA0, 0xA0, 0xA0, 0xA0,
    ]);
    bytes[0x90..0xA0].copy_from_slice(&padded_name(name));
    bytes
}

/// How many sectors of a track are taken: the lowest ones.
fn taken_on(track: u8, blocks: u8) -> u8
    requires { blocks ≤ 32 }
    ensures value { result ≡ taken_on blocks track }
    ensures few { result ≤ 21 }
{
    match track {
        17 => (blocks + 3).min(21),
        18 => 2,
        19 => blocks.saturating_sub(18),
        _ => 0,
    }
}

/// Frees the sectors of a track from this one on. None of the track was free.
fn free_from(map: &mut Bam, track: u8, taken: u8)
    requires taken { taken ≤ 24 }
    requires none { IsWithoutFree map.old.bytes track }
    ensures { IsFreeFrom map.old.bytes map.new.bytes track taken 24 }
{
    for sector in taken..24 {
        if let Some(place) = Place::new(track, sector) {
            map.give(place);
        }
    }
}

/// 18/0 of the blank image in which the second file has this number of data blocks.
pub(crate) fn blank_map(name: &[u8], id: [u8; 2], blocks: u8) -> [u8; 256]
    requires name { length name.now ≤ 16 }
    requires blocks { blocks ≤ 32 }
    ensures { IsBlankMap result name.now id blocks }
{
    let mut map = Bam::new(blank_header(name, id));
    for below in 0..TRACKS {
        free_from(&mut map, below + 1, taken_on(below + 1, blocks));
    }
    map.bytes
}
