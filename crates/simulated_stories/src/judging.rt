//! What the program may print.
use crate::runs::Ended;
use crate::stops::{Stop, see};
use simulated_shop::{Line, Shop, write_reply, write_shop};
use std::alloc::Global;

/// What `check` prints of a sound disk.
pub(crate) const OK: &[u8] = b"OK\n";

/// The words with which a command may end of which a call failed.
static FAILED: [&[u8]; 2] = [b"FILE\n", b"DEVICE\n"];

/// Whether the first line of a text is one of these.
fn is_one_of(text: &[u8], words: &[&[u8]]) -> bool {
    for word in words {
        if text.starts_with(word) {
            return true;
        }
    }
    false
}

/// A command that isn't done reports why: since a call failed.
pub(crate) fn see_failure(ended: &Ended) -> Result<(), Stop> {
    see(
        ended.is_struck,
        "a command isn't done, though no call failed",
    )?;
    see(ended.status == 3, "a call failed, and the status isn't 3")?;
    see(
        is_one_of(ended.err.as_slice(), &FAILED),
        "a call failed, and the report is another one",
    )
}

/// The line at the front of a text, with its LF. What is left if there is none.
fn first_line(text: &[u8]) -> &[u8] {
    for (at, byte) in text.iter().enumerate() {
        if *byte == b'\n' {
            return &text[..at.saturating_add(1).min(text.len())];
        }
    }
    text
}

/// The reply that the model gives to a line, which counts from then on.
fn reply_of(alloc: Global, shop: &mut Shop, line: &Line) -> Result<Vec<u8>, Stop> {
    let mut reply = Vec::new(alloc);
    match write_reply(&mut reply, shop, line) {
        Ok(()) => Ok(reply),
        Err(_) => Err(Stop::NoMemory),
    }
}

/// What comes of the comparison of a reply.
#[derive(Clone, Copy, PartialEq, Eq)]
enum Heard {
    /// It is the model's.
    Same,
    /// It wasn't printed to its end, or it says that the device failed.
    Nothing,
}

/// Compares the first line of a text with the model's reply.
fn compare(said: &[u8], wanted: &[u8]) -> Result<Heard, Stop> {
    if said == wanted {
        return Ok(Heard::Same);
    }
    let is_cut = wanted.starts_with(said);
    let is_media = said.ends_with(b",MEDIA\n");
    see(is_cut || is_media, "a reply isn't the one of the rules")?;
    Ok(Heard::Nothing)
}

/// Compares what was printed with the model's replies to lines, and makes these count. Returns how many were answered.
pub(crate) fn see_replies(
    alloc: Global,
    shop: &mut Shop,
    lines: &[Line],
    out: &[u8],
) -> Result<usize, Stop> {
    let mut left = out;
    for (number, line) in lines.iter().enumerate() {
        let mut next = *shop;
        let wanted = reply_of(alloc, &mut next, line)?;
        let said = first_line(left);
        if compare(said, wanted.as_slice())? == Heard::Nothing {
            return Ok(number);
        }
        left = &left[said.len().min(left.len())..];
        *shop = next;
    }
    see(left.is_empty(), "more was printed than was sent")?;
    Ok(lines.len())
}

/// What `show` prints of a shop after its first line.
fn shown(alloc: Global, shop: &Shop) -> Result<Vec<u8>, Stop> {
    let mut text = Vec::new(alloc);
    match write_shop(&mut text, shop) {
        Ok(()) => Ok(text),
        Err(_) => Err(Stop::NoMemory),
    }
}

/// What `show` printed after its first line.
pub(crate) fn after_top(out: &[u8]) -> &[u8] {
    let top = first_line(out);
    &out[top.len().min(out.len())..]
}

/// A shop that is shown: the one after some first ones of some lines, and how many these are.
#[derive(Clone, Copy)]
pub(crate) struct Found {
    pub(crate) shop: Shop,
    pub(crate) count: usize,
}

/// The shop that is shown, if it is this one, or the one after some first ones of these lines.
pub(crate) fn shop_shown(
    alloc: Global,
    shop: &Shop,
    lines: &[Line],
    out: &[u8],
) -> Result<Option<Found>, Stop> {
    let mut now = *shop;
    let wanted = after_top(out);
    for (count, line) in lines.iter().enumerate() {
        if shown(alloc, &now)?.as_slice() == wanted {
            return Ok(Some(Found { shop: now, count }));
        }
        reply_of(alloc, &mut now, line)?;
    }
    let is_last = shown(alloc, &now)?.as_slice() == wanted;
    let last = Found {
        shop: now,
        count: lines.len(),
    };
    Ok(if is_last { Some(last) } else { None })
}
