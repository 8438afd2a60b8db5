//! The geometry of a 1541 disk: how many tracks it has, and how many sectors each of them.
ghost use Rattle.std.specs.Prelude.{◌≡◌};
ghost use Rattle.d64_image.specs.Geometry.{sectors_on};

/// The number of tracks. The first one is track 1.
pub const TRACKS: u8 = 35;

/// The most sectors that a track has. Its first sector is sector 0.
pub const TRACK_SECTORS: u8 = 21;

/// The number of sectors of all tracks together.
pub const SECTORS: usize = 683;

/// The number of bytes of a disk's image: its sectors have 256 bytes each.
pub const IMAGE_BYTES: usize = 174_848;

/// The number of sectors of a track, and 0 if there is no such track: the four speed zones of the 1541.
pub fn sectors_on(track: u8) -> u8
    ensures { result ≡ sectors_on track }
{
    match track {
        1..=17 => 21,
        18..=24 => 19,
        25..=30 => 18,
        31..=35 => 17,
        _ => 0,
    }
}
