//! Records as lines: a number, a comma, and the text of the bytes between quotation marks.
ghost use Rattle.std.specs.Prelude.{◌≡◌, ◌≤◌, ◌+◌, ◌++◌, OnOk, length, take};
ghost use Rattle.std.specs.Io.KnownBytes.{Appends};
ghost use Rattle.line_text.specs.bytes.Texts.{record_line};

use crate::bytes::putting::{append_behind, append_number, append_text};
use crate::bytes::reading::MOST_BYTES;
use crate::bytes::trimming::trim;
use arrayvec::ArrayVec;
use std::io::{self, Write};

/// The room of the longest line: a number of ten digits, and 254 bytes that take three each.
pub const LINE_ROOM: usize = 776;

/// Puts the line of a record, with its LF, after the first `start` bytes of the room, and returns where it ends. The
/// line has the record's number, counted from 1, and its bytes up to the last one that isn't 0. It is a line of
/// comma-separated values, and a quotation mark in it is never doubled.
#[inline(always)]
pub fn append_line(
    number: u32,
    bytes: &ArrayVec<u8, MOST_BYTES>,
    room: &mut [u8],
    start: usize,
) -> usize
    requires { start + 776 ≤ length room.old }
    ensures end { (start ≤ result) × (result ≤ start + 776) }
    ensures written { take result room.new ≡ take start room.old ++ record_line number bytes.now.items }
{
    let end = append_number(number, room, start);
    let end = append_behind(b",\"", room, end);
    let end = append_text(trim(bytes.as_slice()), room, end);
    append_behind(b"\"\n", room, end)
}

/// Writes the line of a record, as `append_line` puts it. The writer gets it in one call. An error is the writer's, which
/// may have taken a part of the line.
pub fn write_line<W: Write>(
    out: &mut W,
    number: u32,
    bytes: &ArrayVec<u8, MOST_BYTES>,
) -> io::Result<()>
    ensures { OnOk result (Appends (W.contents out.old) (W.contents out.new) (record_line number bytes.now.items)) }
{
    let mut room = [0; LINE_ROOM];
    let end = append_line(number, bytes, &mut room, 0);
    out.write_all(&room[..end])
}
