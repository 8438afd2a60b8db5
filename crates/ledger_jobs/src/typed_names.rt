//! What is printed for a person of a name that a file is going to get, if a C64 can't ask for it.

use crate::jobs::Job;
use file_changes::Name;
use line_text::Text;
use std::io::{self, Write};

/// What is said of a name in which a drive reads a byte as something else.
const OTHERWISE: &str =
    "a drive reads $ * ? , : in a name otherwise, so LOAD may not find this one";

/// The name that a job gives a file.
fn given_name<'j>(job: &'j Job<'_>) -> Option<&'j Name> {
    match job {
        Job::Change { kind, .. } => kind.given_name(),
        _ => None,
    }
}

/// Whether a drive reads a byte of a name as something else: a directory, any characters, or the end of the name.
fn is_read_otherwise(byte: &u8) -> bool {
    matches!(byte, b'$' | b'*' | b'?' | b',' | b':')
}

/// The byte of a letter as c1541 writes it: a small one has the byte of its capital, a capital that of the shifted letter. Other bytes
/// stay.
fn keyed(byte: u8) -> u8 {
    match byte {
        b'a'..=b'z' => byte & 0xDF,
        b'A'..=b'Z' => byte | 0x80,
        _ => byte,
    }
}

/// Prints what to type in place of a name that has small letters.
fn print_keyed<E: Write>(name: &[u8], err: &mut E) -> io::Result<()> {
    write!(
        err,
        "ledger: no key of a C64 gives these small letters; as c1541 writes them, type '"
    )?;
    for &byte in name {
        let bytes = [keyed(byte)];
        write!(err, "{}", Text(&bytes))?;
    }
    writeln!(err, "'")
}

/// Prints that a C64 can't ask for the name that a job gives a file, if it can't.
pub(crate) fn warn_of_name<E: Write>(job: &Job<'_>, err: &mut E) {
    let Some(name) = given_name(job) else {
        return;
    };
    let name = name.as_bytes();
    if name.iter().any(|byte| byte.is_ascii_lowercase()) {
        let _ = print_keyed(name, err);
    } else if name.iter().any(is_read_otherwise) {
        let _ = writeln!(err, "ledger: {OTHERWISE}");
    }
}
