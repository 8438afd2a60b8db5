//! Lines with a reset: `@k`, up to eight times `/m`, a space, and any message.
ghost use Rattle.std.specs.Prelude.{◌≡◌, ◌<◌, ◌∷◌, IfSome, length, option_map};
ghost use Rattle.line_text.specs.Numbers.{cut_at};
ghost use Rattle.line_text.specs.scripts.Lines.{lines, split};
ghost use Rattle.line_text.specs.scripts.Resets.{fields_left, first_bad, line_in, line_of, reset_of};

use crate::digits::number;
use crate::scripts::events::{Cut, Event};
use crate::scripts::script::{has_byte, next_line};
use arrayvec::ArrayVec;

/// The bytes before the first space, and the bytes after it.
fn at_space(bytes: &[u8]) -> Option<(&[u8], &[u8])>
    ensures { option_map (λ p. (p.0.now, p.1.now)) result ≡ cut_at 32 bytes.now }
{
    for (i, &byte) in bytes.iter().enumerate() {
        if byte == b' ' {
            return Some((&bytes[..i], &bytes[i + 1..]));
        }
    }
    None
}

/// The bytes before the first slash, and the bytes after it, if there is one.
fn first_field(counts: &[u8]) -> (&[u8], Option<&[u8]>)
    ensures fields { split 47 counts.now ≡ result.0.now ∷ fields_left (option_map (λ r. r.now) result.1) }
    ensures shorter { IfSome result.1 (λ r. length r.now < length counts.now) }
{
    for (i, &byte) in counts.iter().enumerate() {
        if byte == b'/' {
            return (&counts[..i], Some(&counts[i + 1..]));
        }
    }
    (counts, None)
}

/// The event of a line with a reset, which has these bytes after its `@`. None if the line is bad.
// Out of line: most lines have no reset, and then this isn't called.
#[inline(never)]
fn reset_at(bytes: &[u8]) -> Option<Event<'_>>
    ensures { option_map line_in result ≡ reset_of bytes.now }
{
    let (counts, message) = at_space(bytes)?;
    let (first, mut rest) = first_field(counts);
    let after = number(first, 0, 99999)?;
    let mut recoveries = ArrayVec::new();
    while let Some(more) = rest {
        let (field, left) = first_field(more);
        let count = number(field, 0, 99999)?;
        if recoveries.try_push(count).is_err() {
            return None;
        }
        rest = left;
    }
    Some(Event {
        message,
        cut: Some(Cut { after, recoveries }),
    })
}

/// The event of a line, which is as `next_line` returns it. None if the line is bad: it begins with `@` and doesn't
/// have the form of a reset, with numbers up to 99999 without leading zeros.
#[inline]
pub fn event_at(line: &[u8]) -> Option<Event<'_>>
    ensures { option_map line_in result ≡ line_of line.now }
{
    match line.split_first() {
        Some((b'@', rest)) => reset_at(rest),
        _ => Some(Event {
            message: line,
            cut: None,
        }),
    }
}

/// The number of the first bad line, counted from 1. None if no line is bad.
pub fn first_bad_line(script: &[u8]) -> Option<usize>
    ensures { result ≡ first_bad (lines script.now) }
{
    // Few scripts have an @ at all.
    if !has_byte(script, b'@') {
        return None;
    }
    let mut number = 0;
    let mut rest = script;
    while let Some((line, more)) = next_line(rest) {
        number += 1;
        if event_at(line).is_none() {
            return Some(number);
        }
        rest = more;
    }
    None
}
