//! The images and logs of the rows. A step that can't be had ends as a value that no row wants.
use image_log::{Log, MemLog, read_images, salvage};
use sha2::{Digest, Sha256};
use std::process::Abort;

/// An image of zeros.
fn blank(rt: &(impl Abort + AllocGlobal)) -> Vec<[u8; 256]> {
    vec![in rt.alloc(); [0; 256]; 683].expect(rt, "there is memory")
}

/// Every sector has its index, modulo 251, in each byte.
pub(crate) fn numbered(rt: &(impl Abort + AllocGlobal)) -> Vec<[u8; 256]> {
    let mut image = blank(rt);
    let mut number: u8 = 0;
    for sector in image.as_mut_slice() {
        *sector = [number; 256];
        number = if number == 250 {
            0
        } else {
            number.wrapping_add(1)
        };
    }
    image
}

/// The bytes 0 to 255.
fn rising() -> [u8; 256] {
    let mut sector = [0; 256];
    let mut number: u8 = 0;
    for i in 0..256usize {
        sector[i] = number;
        number = number.wrapping_add(1);
    }
    sector
}

/// Sectors 357 and 682 marked.
pub(crate) fn two_touched() -> [bool; 683] {
    let mut touched = [false; 683];
    touched[357] = true;
    touched[682] = true;
    touched
}

/// Gives an image other bytes in sectors 357 and 682.
pub(crate) fn change(image: &mut [[u8; 256]]) {
    if image.len() == 683 {
        image[357] = [0; 256];
        image[357][0] = 5;
        image[682] = rising();
    }
}

/// A log that begins with this image.
pub(crate) fn begun(rt: &(impl Abort + AllocGlobal), image: &[[u8; 256]]) -> Option<Log<MemLog>> {
    if image.len() != 683 {
        return None;
    }
    Log::begin(rt.alloc(), MemLog::new(rt.alloc()), image).ok()
}

/// Whether the commit passed.
pub(crate) fn commit(log: &mut Log<MemLog>, image: &[[u8; 256]], touched: &[bool; 683]) -> bool {
    image.len() == 683 && !log.is_full() && log.commit(image, touched).is_ok()
}

/// The first four bytes of the SHA-256 of so many bytes from there on; zeros if there are no such bytes.
pub(crate) fn sum(bytes: &[u8], from: usize, count: usize) -> [u8; 4] {
    let mut first = [0; 4];
    if from <= bytes.len() && count <= bytes.len() - from {
        let digest = Sha256::digest(&bytes[from..from + count]);
        first.copy_from_slice(&digest[..4]);
    }
    first
}

/// The 20 bytes from there on; zeros if there are no such bytes.
pub(crate) fn head(bytes: &[u8], from: usize) -> [u8; 20] {
    let mut first = [0; 20];
    if from <= bytes.len() && 20 <= bytes.len() - from {
        first.copy_from_slice(&bytes[from..from + 20]);
    }
    first
}

/// Whether a log has a base, and the sum of the image that it stands for.
pub(crate) fn stands_for(rt: &(impl Abort + AllocGlobal), file: &[u8]) -> (bool, [u8; 4]) {
    let mut image = blank(rt);
    let mut log = Vec::from_slice(rt.alloc(), file).expect(rt, "there is memory");
    let based = image.len() == 683 && salvage(&mut log, image.as_mut_slice()).is_ok();
    (based, sum(image.as_slice().as_flattened(), 0, 174_848))
}

/// Whether a log is whole, and the sum of the image that it began with.
pub(crate) fn began_with(rt: &(impl Abort + AllocGlobal), file: &[u8]) -> (bool, [u8; 4]) {
    let (mut base, mut image) = (blank(rt), blank(rt));
    let mut log = Vec::from_slice(rt.alloc(), file).expect(rt, "there is memory");
    let sized = base.len() == 683 && image.len() == 683;
    let based = sized && read_images(&mut log, base.as_mut_slice(), image.as_mut_slice()).is_ok();
    (based, sum(base.as_slice().as_flattened(), 0, 174_848))
}

/// The bytes with a 0 at this place.
pub(crate) fn without(rt: &(impl Abort + AllocGlobal), bytes: &[u8], at: usize) -> Vec<u8> {
    let mut copy = Vec::from_slice(rt.alloc(), bytes).expect(rt, "there is memory");
    if let Some(byte) = copy.get_mut(at) {
        *byte = 0;
    }
    copy
}
