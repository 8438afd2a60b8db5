//! Bytes of files.
ghost use Rattle.std.specs.Prelude.{◌≡◌, ◌≤◌, OnOk, length};

use std::alloc::Global;
use std::io::{self, ErrorKind};

/// Many zeros.
static ZEROS: [u8; 4096] = [0; 4096];

/// Ends bytes after so many; zeros fill what was missing.
pub(crate) fn end(held: &mut Vec<u8>, count: usize) -> io::Result<()>
    ensures { OnOk result (length held.new.items ≡ count) }
{
    let lacking = count.saturating_sub(held.len());
    for _ in 0..lacking / 4096 {
        held.extend_from_slice(&ZEROS)?;
    }
    Ok(held.resize(count, 0)?)
}

/// Puts bytes over those from there on; zeros fill what was missing before them.
pub(crate) fn put(held: &mut Vec<u8>, at: usize, bytes: &[u8]) -> io::Result<()> {
    let Some(upto) = at.checked_add(bytes.len()) else {
        return Err(ErrorKind::FileTooLarge.into());
    };
    if held.len() < upto {
        end(held, upto)?;
    }
    held[at..upto].copy_from_slice(bytes);
    Ok(())
}

/// Fills a buffer with bytes from there on. Returns how many there were.
pub(crate) fn take(held: &[u8], at: usize, buf: &mut [u8]) -> usize
    ensures few { result ≤ length buf.new }
    ensures same { length buf.new ≡ length buf.old }
{
    let from = at.min(held.len());
    let count = (held.len() - from).min(buf.len());
    buf[..count].copy_from_slice(&held[from..from + count]);
    count
}

/// A copy of bytes.
pub(crate) fn copied(alloc: Global, bytes: &[u8]) -> io::Result<Vec<u8>> {
    Ok(Vec::from_slice(alloc, bytes)?)
}

/// A text of its own.
pub(crate) fn text_of(alloc: Global, text: &str) -> io::Result<String> {
    let mut copy = String::new(alloc);
    copy.push_str(text)?;
    Ok(copy)
}

/// How many of some bytes stand before that place; all of them if they are fewer.
pub(crate) fn front(bytes: &[u8], count: usize) -> &[u8] {
    &bytes[..count.min(bytes.len())]
}

/// The bytes from that place on.
pub(crate) fn rest(bytes: &[u8], from: usize) -> &[u8] {
    &bytes[from.min(bytes.len())..]
}
