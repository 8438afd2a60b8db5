//! Files that are mounted by themselves.
use crate::reading::read_script;
use std::alloc::Global;
use std::fs::File;
use std::io;
use std::rt::Files;

/// What a Linux system says of the mounts that this program sees, a line each.
const MOUNTS: &str = "/proc/self/mountinfo";

/// The value of an octal digit.
fn digit_of(letter: u8) -> u8 {
    letter.wrapping_sub(b'0')
}

/// The first byte that a text of that list stands for, and the rest. Some bytes are a backslash and three octal digits.
fn first_of(text: &[u8]) -> Option<(u8, &[u8])> {
    match text {
        [b'\\', high, middle, low, rest @ ..] => {
            let byte = (digit_of(*high) << 6) | (digit_of(*middle) << 3) | digit_of(*low);
            Some((byte, rest))
        }
        [byte, rest @ ..] => Some((*byte, rest)),
        [] => None,
    }
}

/// Whether a text of that list stands for this path.
fn stands_for(text: &[u8], path: &[u8]) -> bool {
    let mut rest = text;
    for byte in path {
        match first_of(rest) {
            Some((found, after)) if found == *byte => rest = after,
            _ => return false,
        }
    }
    rest.is_empty()
}

/// Whether a line of that list is of a mount at this path: its fifth word is the path.
fn is_at(line: &[u8], path: &[u8]) -> bool {
    match line.split(|byte| *byte == b' ').nth(4) {
        Some(text) => stands_for(text, path),
        None => false,
    }
}

/// Whether a file system is mounted at this path. False if the system has no such list.
pub(crate) fn is_mount_point<R: Files>(rt: &R, alloc: Global, path: &str) -> io::Result<bool> {
    let Ok(list) = File::open(rt, MOUNTS) else {
        return Ok(false);
    };
    let place = rt.canonicalize(alloc, path)?;
    let mounts = read_script(alloc, list, 0)?;
    for line in mounts.as_slice().split(|byte| *byte == b'\n') {
        if is_at(line, place.as_str().as_bytes()) {
            return Ok(true);
        }
    }
    Ok(false)
}
