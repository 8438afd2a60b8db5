//! Lines of an input, one after another, of which only as much is kept as a message can have.
ghost use Rattle.std.specs.Prelude.{◌≡◌, ◌≢◌, ◌++◌, ◌<◌, ◌≤◌, ℕ, List, IfOk, OnErr, OnSome};
ghost use Rattle.std.specs.Prelude.{[], None, is_some, length, slice_index, take};
ghost use Rattle.std.specs.Io.KnownBytes.{Consumes, IsAtEnd};
ghost use Rattle.line_server.specs.Read.{LacksLf, TookPart, lf_after};
ghost use Rattle.line_text.specs.scripts.Lines.{without_cr};

use arrayvec::ArrayVec;
use std::io::{self, BufRead, Error, ErrorKind};

/// How a look at the input ended.
#[derive(Clone, Copy)]
pub(crate) enum Part {
    /// Before the line's LF.
    More,
    /// After the line's LF, if so many bytes more are at hand.
    Ended(usize),
    /// At the end of the input.
    Over,
}

/// How many of these bytes stand before the first LF.
fn before_lf(bytes: &[u8]) -> usize
    ensures bound { result ≤ length bytes.now }
    ensures before { (k : ℕ) → k < result → slice_index bytes.now k ≢ 10 }
    ensures here { result < length bytes.now → slice_index bytes.now result ≡ 10 }
{
    for (i, &byte) in bytes.iter().enumerate() {
        if byte == b'\n' {
            return i;
        }
    }
    bytes.len()
}

/// Appends these bytes, as far as there is room.
pub(crate) fn append_part(line: &mut ArrayVec<u8, 40>, bytes: &[u8])
    ensures { line.new.items ≡ take 40 (line.old.items ++ bytes.now) }
{
    let count = bytes.len().min(line.remaining_capacity());
    let _ = line.try_extend_from_slice(&bytes[..count]);
}

/// Takes what the input has at hand, up to the first LF and that with it.
fn take_part<R: BufRead>(input: &mut R, line: &mut ArrayVec<u8, 40>) -> io::Result<Part>
    ensures ok { IfOk result
        (TookPart (R.remaining input.old) (R.remaining input.new) line.old.items line.new.items) }
    ensures err { OnErr result (Consumes (R.remaining input.old) (R.remaining input.new) []) }
{
    let available = match input.fill_buf() {
        Ok(available) => available,
        Err(error) if error.kind() == ErrorKind::Interrupted => return Ok(Part::More),
        Err(error) => return Err(error),
    };
    let count = before_lf(available);
    append_part(line, &available[..count]);
    if count < available.len() {
        let left = available.len() - count - 1;
        input.consume(count + 1);
        return Ok(Part::Ended(left));
    }
    let part = if count == 0 { Part::Over } else { Part::More };
    input.consume(count);
    Ok(part)
}

/// Reads the next line up to its LF, and keeps its first 40 bytes. Returns how many bytes are at hand after it, or None
/// if the input ended first: what came after its last LF is no line. A read that is interrupted is tried again.
pub(crate) fn read_line<R: BufRead>(
    input: &mut R,
    line: &mut ArrayVec<u8, 40>,
) -> io::Result<Option<usize>>
    ensures ok { IfOk result (λ at_hand. (raw : List ℕ) × LacksLf raw × (line.new.items ≡ take 40 raw)
        × Consumes (R.remaining input.old) (R.remaining input.new) (raw ++ lf_after (is_some at_hand))
        × (at_hand ≡ None → OnSome (R.remaining input.old) (IsAtEnd (R.remaining input.new)))) }
    ensures err { OnErr result ((raw : List ℕ) × LacksLf raw
        × Consumes (R.remaining input.old) (R.remaining input.new) raw) }
{
    line.clear();
    for _ in 0..u64::MAX {
        match take_part(input, line)? {
            Part::More => {}
            Part::Ended(left) => return Ok(Some(left)),
            Part::Over => return Ok(None),
        }
    }
    Err(Error::from(ErrorKind::TimedOut))
}

/// Drops one CR at the end of a line.
pub(crate) fn drop_cr(line: &mut ArrayVec<u8, 40>)
    ensures { line.new.items ≡ without_cr line.old.items }
{
    if let Some(&b'\r') = line.as_slice().last() {
        let _ = line.pop();
    }
}

/// Whether a whole line is among the bytes at hand, of which there are so many. It takes none of them, and doesn't wait.
pub(crate) fn has_line<R: BufRead>(input: &mut R, at_hand: usize) -> bool
    ensures { Consumes (R.remaining input.old) (R.remaining input.new) [] }
{
    if at_hand == 0 {
        return false;
    }
    match input.fill_buf() {
        Ok(available) => before_lf(available) < available.len(),
        Err(_) => false,
    }
}
