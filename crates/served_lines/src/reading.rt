//! Lines of the input, of which only as much is kept as a message can have.
ghost use Rattle.std.specs.Prelude.{◌≡◌, ◌≢◌, ◌≤◌, ◌<◌, ◌++◌, ◌∷◌, [], ℕ, List, IfOk, length, take, vec_capacity};
ghost use Rattle.line_server.specs.Batches.{texts_of};
ghost use Rattle.line_server.specs.Read.{LacksLf};
ghost use Rattle.line_text.specs.scripts.Lines.{without_cr};
ghost use Rattle.served_lines.specs.Taken.{TakesLines};

use arrayvec::ArrayVec;
use line_server::MOST_LINES;
use one_host::{Failure, Host};
use std::alloc::{AllocError, Global};
use std::mem;

/// How many bytes are read at once.
const READ_BYTES: usize = 16_384;

/// What was read of the input and isn't handled yet: bytes, and before them the first of a line that has begun.
#[derive(Drop)]
pub(crate) struct LineInput {
    bytes: Vec<u8>,
    // those from here
    at: usize,
    // to here
    end: usize,
    line: ArrayVec<u8, 40>,
    ghost starts: { at ≤ end },
    ghost ends: { end ≤ length bytes.items },
    ghost some: { 0 < length bytes.items },
}

/// Drops one CR at the end of a line.
fn drop_cr(line: &mut ArrayVec<u8, 40>)
    ensures { line.new.items ≡ without_cr line.old.items }
{
    if let Some(&b'\r') = line.as_slice().last() {
        let _ = line.pop();
    }
}

/// Takes one byte. An LF ends the line, which joins the others without one CR before the LF. The first 40 bytes of a line are kept.
fn take_byte(byte: u8, line: &mut ArrayVec<u8, 40>, lines: &mut Vec<ArrayVec<u8, 40>>)
    requires room { length lines.old.items < vec_capacity lines.old }
    ensures lf { byte ≡ 10 → (line.new.items ≡ []) × (texts_of lines.new.items ≡ texts_of lines.old.items ++ without_cr line.old.items ∷ []) }
    ensures other { byte ≢ 10 → (line.new.items ≡ take 40 (line.old.items ++ byte ∷ [])) × (lines.new.items ≡ lines.old.items) }
    ensures room { vec_capacity lines.old ≤ vec_capacity lines.new }
{
    if byte == b'\n' {
        drop_cr(line);
        lines.push_reserved(mem::replace(line, ArrayVec::new()));
    } else {
        let _ = line.try_push(byte);
    }
}

/// Takes the lines of these bytes, in place of those that the list had, and what begins one after them. Returns how many bytes it
/// took: all, or those of 512 lines.
fn take_lines(bytes: &[u8], line: &mut ArrayVec<u8, 40>, lines: &mut Vec<ArrayVec<u8, 40>>) -> usize
    requires room { 512 ≤ vec_capacity lines.old }
    ensures within { result ≤ length bytes.now }
    ensures all { length lines.new.items < 512 → result ≡ length bytes.now }
    ensures few { length lines.new.items ≤ 512 }
    ensures room { 512 ≤ vec_capacity lines.new }
    ensures taken { (raw : List ℕ) → LacksLf raw → line.old.items ≡ take 40 raw
        → TakesLines raw (take result bytes.now) line.new.items (texts_of lines.new.items) }
{
    lines.clear();
    for (i, &byte) in bytes.iter().enumerate() {
        if lines.len() == MOST_LINES {
            return i;
        }
        take_byte(byte, line, lines);
    }
    bytes.len()
}

impl LineInput {
    ghost use Rattle.one_host.specs.History.{HeldOnly, Known, Since, Tells, Until};
    ghost use Rattle.served_lines.specs.Readings.{GoesOn, HasMore, IsTaken, OnlyHeard, bytes_left, bytes_read, line_kept};
    ghost use Rattle.one_host.specs.Calls.{IsHeard, Steps, at_once};

    /// An input of which nothing was read, in memory that it takes. Err if that is refused.
    pub(crate) fn new(alloc: Global) -> Result<LineInput, AllocError>
        ensures { IfOk result (λ input. (before : List ℕ) → HasMore input before before) }
    {
        let mut bytes = Vec::new(alloc);
        bytes.resize(READ_BYTES, 0)?;
        Ok(LineInput {
            bytes,
            at: 0,
            end: 0,
            line: ArrayVec::new(),
        })
    }

    /// Forgets what was read and isn't handled.
    pub(crate) fn clear(&mut self)
        ensures { (before : List ℕ) → HasMore self.new before before }
    {
        self.at = 0;
        self.end = 0;
        self.line.clear();
    }

    /// Takes the lines of what was read, 512 at most, in place of those that the list had.
    fn take(&mut self, lines: &mut Vec<ArrayVec<u8, 40>>)
        requires room { 512 ≤ vec_capacity lines.old }
        ensures room { 512 ≤ vec_capacity lines.new }
        ensures few { length lines.new.items ≤ 512 }
        ensures all { length lines.new.items < 512 → bytes_left self.new ≡ [] }
        ensures taken { IsTaken self.old self.new (texts_of lines.new.items) }
    {
        let used = take_lines(&self.bytes[self.at..self.end], &mut self.line, lines);
        self.at += used;
    }

    /// Reads more, in place of what was read before. Returns how many bytes: none at the end of the input.
    fn read<H: Host>(&mut self, host: &mut H) -> Result<usize, Failure>
        ensures line { line_kept self.new ≡ line_kept self.old }
        ensures left { IfOk result (λ count. bytes_left self.new ≡ take count (bytes_read self.new)) }
        ensures steps { Known H.history → Steps H.history host.old host.new (IsHeard (bytes_read self.new)) at_once result }
    {
        let count = host.read_input(&mut self.bytes)?;
        self.at = 0;
        self.end = count;
        Ok(count)
    }

    /// Takes the lines that are at hand, 512 at most, in place of those that the list had. If there is none, it reads until there is one.
    /// Returns whether there is one; if not, the input has ended, or 2^64 - 1 reads brought none.
    pub(crate) fn give_lines<H: Host>(
        &mut self,
        host: &mut H,
        lines: &mut Vec<ArrayVec<u8, 40>>,
    ) -> Result<bool, Failure>
        requires room { 512 ≤ vec_capacity lines.old }
        ensures room { 512 ≤ vec_capacity lines.new }
        ensures few { length lines.new.items ≤ 512 }
        ensures any_moment { Known H.history → (n : ℕ) → n ≤ (H.history.world host.old).hands
            → HeldOnly H.history host.old host.new (Until n (OnlyHeard (H.history.world host.old))) }
        ensures ok { Known H.history → (n : ℕ) → n ≤ (H.history.world host.old).hands
            → IfOk result (λ some. Since n (GoesOn (H.history.world host.old) self.old self.new (texts_of lines.new.items) some)
            (H.history.world host.new)) }
        ensures told { Known H.history → Tells H.history host.old host.new result }
    {
        for _ in 0..u64::MAX {
            self.take(lines);
            if !lines.is_empty() {
                return Ok(true);
            }
            if self.read(host)? == 0 {
                return Ok(false);
            }
        }
        lines.clear();
        Ok(false)
    }
}
