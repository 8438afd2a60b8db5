//! What a file is that isn't an image of 35 tracks, by its first bytes and its size, and which program makes one of it.
//! The marks are those of the formats' own descriptions.

use d64_image::IMAGE_BYTES;

/// The first bytes of files of other formats, and what is said of each.
const MARKS: [(&[u8], &str); 10] = [
    (
        b"PK\x03\x04",
        "it is a zip archive; `unzip` takes the image out",
    ),
    (
        b"\x1f\x8b",
        "it is compressed; `zcat OLD > NEW` makes the image",
    ),
    (
        b"GCR-1541",
        "it is a G64 image; VICE's c1541 takes its files out",
    ),
    (
        b"GCR-1571",
        "it is a G71 image; VICE's c1541 takes its files out",
    ),
    (
        b"P64-1541",
        "it is a P64 image; VICE's c1541 takes its files out",
    ),
    (
        b"MNIB-1541-RAW",
        "it is an NIB image; nibconv (nibtools) makes a D64 image of it",
    ),
    (
        b"C\x15\x41\x64",
        "it is an X64 image; `tail -c +65 OLD > NEW` leaves its head out",
    ),
    (
        b"C64File\0",
        "it is a file in P00; cbmconvert puts it on a disk",
    ),
    (
        b"C64 tape",
        "it is a T64 archive; cbmconvert puts its files on a disk",
    ),
    (
        b"C64S tape",
        "it is a T64 archive; cbmconvert puts its files on a disk",
    ),
];

/// The word that a Lynx archive has in its first line of BASIC.
const LYNX: &[u8; 4] = b"LYNX";

/// Where the map of a disk begins in its image, and its first bytes: a link to 18/1, and the format.
const MAP: (usize, [u8; 3]) = (0x16500, [18, 1, b'A']);

const WANTED: &str = "an image of 35 tracks without error bytes has 174848";

const SHORTER: &str = "it is cut short, since 35 tracks have 174848; read the disk again";

const LONGER: &str =
    "it is longer than 35 tracks, which have 174848, and of no size that an image has; \
     `head -c 174848 OLD > NEW` takes the first 35, then check NEW";

/// What is said of a file of this size, whatever it has.
fn said_of_size(bytes: u64) -> Option<&'static str> {
    match bytes {
        175_531 => Some(
            "35 tracks and error bytes; list, check and show take it with --as-is, and `ledger trim OLD > NEW` leaves the error bytes out",
        ),
        196_608 => Some(
            "40 tracks; list, check and show take it with --as-is, and `ledger trim OLD > NEW` takes the first 35, then check NEW",
        ),
        197_376 => Some(
            "40 tracks and error bytes; list, check and show take it with --as-is, and `ledger trim OLD > NEW` takes the first 35, then check NEW",
        ),
        205_312 => Some(
            "42 tracks; list, check and show take it with --as-is, and `ledger trim OLD > NEW` takes the first 35, then check NEW",
        ),
        206_114 => Some(
            "42 tracks and error bytes; list, check and show take it with --as-is, and `ledger trim OLD > NEW` takes the first 35, then check NEW",
        ),
        349_696 | 351_062 => Some("a D71 image; cbmconvert puts its files on a disk of 35 tracks"),
        819_200 | 822_400 => Some("a D81 image; cbmconvert puts its files on a disk of 35 tracks"),
        533_248 => Some("a D80 image; VICE's c1541 takes its files out"),
        1_066_496 => Some("a D82 image; VICE's c1541 takes its files out"),
        _ => None,
    }
}

/// Whether this word is among the bytes.
fn has_word(bytes: &[u8], word: &[u8; 4]) -> bool {
    for at in 0..bytes.len() {
        if bytes[at..].starts_with(word) {
            return true;
        }
    }
    false
}

/// Whether all bytes are those of a text, and there are some.
fn is_text(bytes: &[u8]) -> bool {
    for &byte in bytes {
        if byte < b' ' && byte != b'\t' && byte != b'\n' && byte != b'\r' {
            return false;
        }
    }
    !bytes.is_empty()
}

/// What is said of a file of this size with these bytes, the first ones that it has.
fn said_of_bytes(size: u64, bytes: &[u8]) -> &'static str {
    for (mark, said) in MARKS {
        if bytes.starts_with(mark) {
            return said;
        }
    }
    if has_word(&bytes[..bytes.len().min(254)], LYNX) {
        return "it is a Lynx archive; cbmconvert puts its files on a disk";
    }
    if is_text(bytes) {
        return "it is a text; an image of 35 tracks has 174848";
    }
    let (at, map) = MAP;
    match bytes.get(at..at + map.len()) {
        Some(found) if found == map.as_slice() => {
            if size > IMAGE_BYTES as u64 {
                LONGER
            } else {
                SHORTER
            }
        }
        _ => WANTED,
    }
}

/// What is said of a file of another size than an image's: its format, and how to make an image of 35 tracks of it.
pub(crate) fn said_of_format(size: u64, bytes: &[u8]) -> &'static str {
    match said_of_size(size) {
        Some(said) => said,
        None => said_of_bytes(size, bytes),
    }
}
