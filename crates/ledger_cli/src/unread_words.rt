//! Arguments that aren't UTF-8.

use image_file::ShownPath;
use std::alloc::{AllocError, Global};
use std::io::Write;
use std::rt::Env;
use std::str;

/// How many bytes an argument has at most that is named: as many as a path.
const MOST_BYTES: usize = 4096;

/// How many arguments are looked at.
const MOST_WORDS: usize = 65536;

/// Prints for a person which argument isn't UTF-8: its number and its text, in which a mark stands for what is none.
fn tell_word<E: Write>(alloc: Global, number: usize, word: &[u8], err: &mut E) {
    if let Ok(text) = String::from_utf8_lossy(alloc, word) {
        let shown = ShownPath(text.as_str());
        let _ = writeln!(
            err,
            "ledger: argument {number} isn't in UTF-8: {shown}; give the file another name"
        );
    }
}

/// A text of its own.
fn text_in(alloc: Global, text: &str) -> Result<String, AllocError> {
    let mut copy = String::new(alloc);
    copy.push_str(text)?;
    Ok(copy)
}

/// The arguments that are UTF-8, in their order. An argument that is longer than a path counts as one that isn't. If that is wanted, a
/// person reads which ones those are.
fn read_words<R: Env, E: Write>(
    rt: &R,
    alloc: Global,
    err: &mut E,
    tells: bool,
) -> Result<Vec<String>, AllocError> {
    let mut room = [0; MOST_BYTES];
    let mut words = Vec::new(alloc);
    for number in 0..MOST_WORDS {
        let Ok(length) = rt.arg(number, &mut room) else {
            break;
        };
        let bytes = &room[..length.min(MOST_BYTES)];
        match str::from_utf8(bytes) {
            Ok(text) if length <= MOST_BYTES => words.push(text_in(alloc, text)?)?,
            _ if tells => tell_word(alloc, number, bytes, err),
            _ => {}
        }
    }
    Ok(words)
}

/// Whether these words look at several images, each by itself: a command that does so, and at least one word that is no flag.
fn looks_at_each(words: &[String]) -> bool {
    let [_, command, rest @ ..] = words else {
        return false;
    };
    if !matches!(
        command.as_str(),
        "check" | "free" | "list" | "map" | "plan" | "show"
    ) {
        return false;
    }
    for word in rest {
        if !word.as_str().starts_with("-") {
            return true;
        }
    }
    false
}

/// The words without those that aren't UTF-8, if what is left asks for a command that looks at each of several images by itself: it
/// can go on with the other images. None if it asks for anything else, or there was no memory. A person reads which arguments
/// are left out.
pub(crate) fn words_left<R: Env, E: Write>(
    rt: &R,
    alloc: Global,
    tells: bool,
    err: &mut E,
) -> Option<Vec<String>> {
    match read_words(rt, alloc, err, tells) {
        Ok(words) if looks_at_each(words.as_slice()) => Some(words),
        _ => None,
    }
}
