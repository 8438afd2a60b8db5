//! The sectors of an image of 35, 40 or 42 tracks, each named by its number: how many come before it in the image.
ghost use Rattle.std.specs.Prelude.{◌≡◌, IfSome};
ghost use Rattle.long_chains.specs.Sectors.{HasSector};
ghost use Rattle.long_chains.specs.Sectors as specs;
ghost use Rattle.d64_image.specs.Places.{place_at};

use d64_image::{Place, SECTORS};

/// How many sectors an image of this many bytes has, with an error byte for each or without: 683 on 35 tracks, 768 on 40, and 802 on
/// 42. 0 for any other size.
#[tactic(auto, unfolding(crate::specs::Sectors::sectors_in))]
pub fn sectors_in(size: usize) -> usize
    ensures { result ≡ specs.sectors_in size }
{
    match size {
        174_848 | 175_531 => SECTORS,
        196_608 | 197_376 => 768,
        205_312 | 206_114 => 802,
        _ => 0,
    }
}

/// Whether an image has more tracks than 35.
pub fn has_more_tracks(image: &[u8]) -> bool
    ensures { result ≡ specs.has_more_tracks image.now }
{
    SECTORS < sectors_in(image.len())
}

/// The number of a sector of the tracks 36 to 42, of which each has 17. None for any other.
fn number_past(track: u8, sector: u8) -> Option<usize>
    ensures { result ≡ specs.number_past track sector }
{
    if 36 <= track && track <= 42 && sector < 17 {
        Some(SECTORS + 17 * (track as usize - 36) + sector as usize)
    } else {
        None
    }
}

/// The number of a sector of the tracks 1 to 42. None if no track has the sector.
fn number_of(track: u8, sector: u8) -> Option<usize>
    ensures { result ≡ specs.number_of track sector (place_at track sector) }
{
    match Place::new(track, sector) {
        Some(place) => Some(place.index()),
        None => number_past(track, sector),
    }
}

/// The number of a sector, if the image has it.
pub fn sector_at(image: &[u8], track: u8, sector: u8) -> Option<usize>
    ensures value { result ≡ specs.sector_at image.now track sector }
    ensures inside { IfSome result (HasSector image.now) }
{
    let number = number_of(track, sector)?;
    if number < sectors_in(image.len()) {
        Some(number)
    } else {
        None
    }
}

/// An error byte; none if it says that the sector was read, or isn't there.
fn reading_error(byte: Option<u8>) -> Option<u8>
    ensures { result ≡ specs.reading_error byte }
{
    match byte {
        Some(1) | None => None,
        error => error,
    }
}

/// How the drive failed to read the sector with this number when the image was made: the error byte, as `error_at` of `damaged_files` has
/// it for the tracks 1 to 35.
pub fn error_in(image: &[u8], number: u16) -> Option<u8>
    ensures { result ≡ specs.error_in image.now number }
{
    let start = match image.len() {
        175_531 => 174_848,
        197_376 => 196_608,
        206_114 => 205_312,
        _ => return None,
    };
    reading_error(image.get(start + number as usize).copied())
}

/// The track of a sector past track 35, by the sector's number, and its number on that track.
pub fn place_past(number: u16) -> (u16, u16)
    ensures track { result.0 ≡ specs.track_past number }
    ensures sector { result.1 ≡ specs.sector_past number }
{
    let past = number.saturating_sub(683);
    (36 + past / 17, past % 17)
}
