//! What is printed for a person if an image has no file of a name: which names are near.
ghost use Rattle.opened_files.specs.Rights.{MayReadImage};

use crate::jobs::Job;
use disk_changes::ChangeKind;
use disk_reports::print_near_names;
use file_changes::Name;
use image_file::{HostFiles, Locks, ShownPath};
use image_looks::Look;
use opened_files::{STANDARD_INPUT, image_of_file};
use std::fs::OpenFile;
use std::io::{Read, Write};

/// What is printed if no name is near.
pub(crate) const NO_SUCH_FILE: &str = "it has no such file; `ledger list` shows what it has";

/// What is printed if no deleted file has the name.
const NO_DELETED_FILE: &str =
    "it has no such deleted file; `extract --deleted` takes out those that it has";

/// What is printed of a name that a drive would take for several files, or for the directory.
const PATTERN: &str =
    "it has no file of just this name: $ * and ? stand for themselves here; `ledger list` shows the names";

/// Whether a byte of a name is one by which a drive finds several files, or the directory.
fn is_of_pattern(byte: &u8) -> bool {
    matches!(byte, b'$' | b'*' | b'?')
}

/// What is printed of a job if no name is near.
fn said_of_none(job: &Job<'_>) -> &'static str {
    match job {
        Job::Change {
            kind: ChangeKind::Undelete { .. },
            ..
        } => NO_DELETED_FILE,
        job => match name_of(job) {
            Some(name) if name.as_bytes().iter().any(is_of_pattern) => PATTERN,
            _ => NO_SUCH_FILE,
        },
    }
}

/// The name of the file that it asks for.
fn name_of<'j>(job: &'j Job<'_>) -> Option<&'j Name> {
    match job {
        Job::Look {
            what: Look::Records { name, .. } | Look::Bytes { name, .. },
            ..
        } => Some(name),
        Job::Change { kind, .. } => kind.asked_name(),
        _ => None,
    }
}

/// The names of a job's image that are near to the one that it asks for, as `print_near_names` prints them. None if there
/// are none, if the image can't be read again, and of standard input.
fn near_names_of<F, R>(rt: &R, job: &Job<'_>, path: &str) -> Option<Vec<u8>>
where
    F: Read + Locks + OpenFile + Drop,
    R: HostFiles<File = F> + AllocGlobal,
    requires { MayReadImage R.rights rt.now path.now }
{
    let name = name_of(job)?;
    if path == STANDARD_INPUT {
        return None;
    }
    let image = image_of_file(rt, path).ok()?;
    let mut near = Vec::new(rt.alloc());
    print_near_names(rt.alloc(), image.as_slice(), name.as_bytes(), &mut near).ok()?;
    if near.is_empty() { None } else { Some(near) }
}

/// Prints that a job's image has no file of the name, and which names are near.
pub(crate) fn tell_name<F, R, E>(rt: &R, job: &Job<'_>, path: &str, err: &mut E)
where
    F: Read + Locks + OpenFile + Drop,
    R: HostFiles<File = F> + AllocGlobal,
    E: Write,
    requires { MayReadImage R.rights rt.now path.now }
{
    let image = ShownPath(path);
    match near_names_of(rt, job, path) {
        Some(near) => {
            let _ = write!(err, "ledger: {image}: it has no such file, but");
            let _ = err.write_all(near.as_slice());
            let _ = err.write_all(b"\n");
        }
        None => {
            let said = said_of_none(job);
            let _ = writeln!(err, "ledger: {image}: {said}");
        }
    }
}
