//! Inputs that give the lines at hand.
ghost use Rattle.std.specs.Prelude.{◌≡◌, ◌≤◌, vec_capacity};
ghost use Rattle.line_server.specs.Batches.{BatchInput, IsBatchGiven, IsBatchTaken, of_bytes, texts_of};

use crate::reading::{drop_cr, has_line, read_line};
use arrayvec::ArrayVec;
use host_session::Next;
use std::io::BufRead;

/// How many lines a batch has at most.
pub const MOST_LINES: usize = 512;

/// An input of lines that gives those at hand together. Each reader is one. It says only which bytes it has left, if it
/// knows them.
pub trait BatchSource {
    /// What this input says of itself: the bytes that it has left, and whether it may have failed.
    ghost input: { BatchInput Self };

    /// Takes the lines at hand, 512 at most, in place of those that the list had. If no whole line is at hand it waits
    /// for one; otherwise it doesn't wait. Each line is without its LF and one CR before that, and 40 bytes of it are
    /// kept. `End` if the input ended after these lines, of which there may be none: what came after its last LF is no
    /// line. `Failed` if it couldn't be read after them.
    fn give_batch(&mut self, lines: &mut Vec<ArrayVec<u8, 40>>) -> Next
        requires room { 512 ≤ vec_capacity lines.old }
        ensures given { IsBatchGiven input self.old self.new (texts_of lines.new.items) result }
        ensures room { 512 ≤ vec_capacity lines.new };
}

/// Takes the lines that a reader has at hand.
fn take_batch<R: BufRead>(input: &mut R, lines: &mut Vec<ArrayVec<u8, 40>>) -> Next
    requires room { 512 ≤ vec_capacity lines.old }
    ensures taken { IsBatchTaken (R.remaining input.old) (R.remaining input.new) (texts_of lines.new.items) result }
    ensures room { 512 ≤ vec_capacity lines.new }
{
    lines.clear();
    for _ in 0..MOST_LINES {
        let mut line = ArrayVec::new();
        let at_hand = match read_line(input, &mut line) {
            Ok(Some(at_hand)) => at_hand,
            Ok(None) => return Next::End,
            Err(_) => return Next::Failed,
        };
        drop_cr(&mut line);
        lines.push_reserved(line);
        if !has_line(input, at_hand) {
            return Next::Event;
        }
    }
    Next::Event
}

impl<R: BufRead> BatchSource for R {
    ghost input = { of_bytes R.remaining };

    fn give_batch(&mut self, lines: &mut Vec<ArrayVec<u8, 40>>) -> Next {
        take_batch(self, lines)
    }
}
