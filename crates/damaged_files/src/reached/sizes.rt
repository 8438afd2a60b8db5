//! Images of other sizes, for reading: of 40 or 42 tracks, and with an error byte for each sector.
ghost use Rattle.std.specs.Prelude.{◌≡◌, MatchOption, length, take};
ghost use Rattle.damaged_files.specs.reached.Sizes.{IsImageSize, disk_of, error_of, is_image_size as has_image_size};

use d64_image::{IMAGE_BYTES, Place};

/// How many bytes tracks 1 to 40 have.
const FORTY_TRACKS: usize = 196_608;

/// How many bytes tracks 1 to 35 have, with a byte for each of the 683 sectors.
const WITH_ERRORS: usize = 175_531;

/// How many bytes tracks 1 to 40 have, with a byte for each of the 768 sectors.
const FORTY_WITH_ERRORS: usize = 197_376;

/// How many bytes tracks 1 to 42 have.
const FORTY_TWO_TRACKS: usize = 205_312;

/// How many bytes tracks 1 to 42 have, with a byte for each of the 802 sectors.
const FORTY_TWO_WITH_ERRORS: usize = 206_114;

/// How many bytes the largest image has: 42 tracks, with error bytes.
pub const LARGEST_IMAGE: usize = FORTY_TWO_WITH_ERRORS;

/// Whether an image has one of the six sizes.
fn is_image_size(size: usize) -> bool
    ensures { result ≡ has_image_size size }
{
    size == IMAGE_BYTES
        || size == WITH_ERRORS
        || size == FORTY_TRACKS
        || size == FORTY_WITH_ERRORS
        || size == FORTY_TWO_TRACKS
        || size == FORTY_TWO_WITH_ERRORS
}

/// The 174,848 bytes of tracks 1 to 35 of an image of one of the six sizes: 35, 40 or 42 tracks, with an error byte for
/// each sector or without. None for any other size.
pub fn first_tracks(image: &[u8]) -> Option<&[u8]>
    ensures { MatchOption result (¬ (IsImageSize (length image.now)))
        (λ tracks. IsImageSize (length image.now) × (tracks.now ≡ take 174848 image.now)
        × (length tracks.now ≡ 174848)) }
{
    if !is_image_size(image.len()) {
        return None;
    }
    Some(&image[..IMAGE_BYTES])
}

/// The disk of 35 tracks in an image: its first 174,848 bytes if it has one of the six sizes, and otherwise all its bytes,
/// so that whoever takes it as a disk refuses it.
pub fn disk_in(image: &[u8]) -> &[u8]
    ensures { result.now ≡ disk_of image.now }
{
    first_tracks(image).unwrap_or(image)
}

/// How the drive failed to read this sector when the image was made: the error byte, such as 5 for error 23. None if
/// the error byte is 1, which means that the sector was read, or if the image has no error bytes. The error bytes come
/// after all sectors, one for each in the order of the sectors.
pub fn error_at(image: &[u8], place: Place) -> Option<u8>
    ensures { result ≡ error_of image.now place }
{
    let start = match image.len() {
        WITH_ERRORS => IMAGE_BYTES,
        FORTY_WITH_ERRORS => FORTY_TRACKS,
        FORTY_TWO_WITH_ERRORS => FORTY_TWO_TRACKS,
        _ => return None,
    };
    match image[start + place.index()] {
        1 => None,
        error => Some(error),
    }
}
