//! Scripts: a message a line. A line ends in LF, and one CR before the LF is dropped; a last line
//! without LF counts.
ghost use Rattle.std.specs.Prelude.{◌≡◌, ◌≢◌, ◌==◌, ◌||◌, ◌<◌, ℕ, ◌∷◌, [], MatchOption, false};
ghost use Rattle.std.specs.Prelude.{fold, length, slice_index};
ghost use Rattle.line_text.specs.scripts.Lines.{IsFirst, first_reset, is_reset, lines, without_cr};

/// The line without one CR at its end.
fn strip(line: &[u8]) -> &[u8]
    ensures { result.now ≡ without_cr line.now }
{
    if !line.is_empty() && line[line.len() - 1] == b'\r' {
        &line[..line.len() - 1]
    } else {
        line
    }
}

/// How many bytes are looked at together: most lines end within them.
const WINDOW: usize = 64;

/// The index of the first LF among these bytes, or 64. Looks at all of them without a branch, many at a time: in a
/// search that stops at the LF, the processor would have to guess the branch, and most guesses are wrong.
fn lf_among(bytes: &[u8; WINDOW]) -> u8
    ensures { result < 64 → IsFirst 10 bytes.now result }
{
    let mut at: u8 = 64;
    for i in 0..64u8 {
        let here = if bytes[usize::from(i)] == b'\n' {
            i
        } else {
            64
        };
        at = at.min(here);
    }
    at
}

/// The index of the first LF.
fn end_of_line(script: &[u8]) -> Option<usize>
    ensures { MatchOption result
        ((k : ℕ) → k < length script.now → slice_index script.now k ≢ 10)
        (IsFirst 10 script.now) }
{
    if let Some(window) = script.first_chunk::<WINDOW>() {
        let at = lf_among(window);
        if at < 64 {
            return Some(usize::from(at));
        }
    }
    for (i, &byte) in script.iter().enumerate() {
        if byte == b'\n' {
            return Some(i);
        }
    }
    None
}

/// The script's first line, without its LF and one CR before it, and the bytes after it. None if the script is empty.
pub fn next_line(script: &[u8]) -> Option<(&[u8], &[u8])>
    ensures { MatchOption result (lines script.now ≡ [])
        (λ p. (lines script.now ≡ p.0.now ∷ lines p.1.now)
        × (length p.1.now < length script.now)) }
{
    match end_of_line(script) {
        Some(end) => Some((strip(&script[..end]), &script[end + 1..])),
        None if script.is_empty() => None,
        None => Some((script, &[])),
    }
}

/// Whether the line begins with `@`.
fn begins_with_at(line: &[u8]) -> bool
    ensures { result ≡ is_reset line.now }
{
    line.first() == Some(&b'@')
}

/// Whether the byte is anywhere in the script. Looks at all bytes without a branch, many at a time.
pub(crate) fn has_byte(script: &[u8], byte: u8) -> bool
    ensures { result ≡ fold (λ found b. found || b == byte) false script.now }
{
    script.iter().fold(false, |found, b| found | (*b == byte))
}

/// The number of the first line that begins with `@`, counted from 1. None if no line does.
pub fn first_reset_line(script: &[u8]) -> Option<usize>
    ensures { result ≡ first_reset (lines script.now) }
{
    // Few scripts have an @ at all.
    if !has_byte(script, b'@') {
        return None;
    }
    let mut number = 0;
    let mut rest = script;
    while let Some((line, more)) = next_line(rest) {
        number += 1;
        if begins_with_at(line) {
            return Some(number);
        }
        rest = more;
    }
    None
}
