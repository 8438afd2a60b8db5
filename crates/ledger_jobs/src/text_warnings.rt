//! What is printed for a person of the text that a change took: that it was cut short, or has small letters.
ghost use Rattle.ledger_jobs.specs.JobRights.{MayExplain, MayReadAgain};

use crate::jobs::Job;
use crate::read_again::{bytes_of_text, text_again};
use disk_changes::ChangeKind;
use image_edits::{cut_in, has_no_file, is_no_cvt};
use image_file::{HostFiles, ShownPath};
use opened_files::{STANDARD_INPUT, size_of};
use std::io::Write;

/// What is said of records with small letters.
const SMALL: &str =
    "small letters were stored as they were typed, and a C64 shows graphics for them; capitals are its letters";

/// The bytes of a text that is a regular file. None of any other: what a pipe gave once it doesn't give again.
fn text_bytes<R: HostFiles + AllocGlobal>(rt: &R, path: &str) -> Option<Vec<u8>>
    requires { MayReadAgain R.rights rt.now path.now }
{
    if path == STANDARD_INPUT {
        return None;
    }
    size_of(rt, path)?;
    bytes_of_text(rt, path)
}

/// Whether a host's file holds no file that this change could put on a disk.
fn lacks_file(kind: &ChangeKind<'_>, bytes: &[u8]) -> bool {
    match kind {
        ChangeKind::Put { .. } => has_no_file(bytes),
        ChangeKind::PutGeos { .. } => is_no_cvt(bytes),
        _ => false,
    }
}

/// Whether a job puts a file on a disk that holds none: a tape (T64) of several programs, or of none; or what should be a CVT and
/// isn't a whole one.
pub(crate) fn takes_no_file<R: HostFiles + AllocGlobal>(rt: &R, job: &Job<'_>) -> bool
    requires { MayExplain R.rights rt.now job.now }
{
    let Job::Change { kind, .. } = job else {
        return false;
    };
    let Some(path) = text_again(rt, job) else {
        return false;
    };
    match text_bytes(rt, path) {
        Some(bytes) => lacks_file(kind, bytes.as_slice()),
        None => false,
    }
}

/// Prints what the file of an emulator lacks whose program was put on a disk.
fn tell_cut<E: Write>(path: &str, bytes: &[u8], err: &mut E) {
    if let Some(cut) = cut_in(bytes) {
        let (shown, there, counted) = (ShownPath(path), cut.there, cut.counted);
        let _ = writeln!(
            err,
            "ledger: {shown}: its header counts {counted} bytes, and {there} are there: it is cut short, and so is the new file"
        );
    }
}

/// Prints that records have small letters.
fn tell_small<E: Write>(path: &str, bytes: &[u8], err: &mut E) {
    for byte in bytes {
        if byte.is_ascii_lowercase() {
            let shown = ShownPath(path);
            let _ = writeln!(err, "ledger: {shown}: {SMALL}");
            return;
        }
    }
}

/// Prints for a person, after a change that took a text of the host, what is odd about that text. The text is read again if it is a
/// regular file.
pub(crate) fn tell_text<R, E>(rt: &R, job: &Job<'_>, err: &mut E)
where
    R: HostFiles + AllocGlobal,
    E: Write,
    requires { MayExplain R.rights rt.now job.now }
{
    let Job::Change { kind, .. } = job else {
        return;
    };
    let Some(path) = text_again(rt, job) else {
        return;
    };
    let Some(bytes) = text_bytes(rt, path) else {
        return;
    };
    match kind {
        ChangeKind::Put { .. } => tell_cut(path, bytes.as_slice(), err),
        ChangeKind::Store { .. } => tell_small(path, bytes.as_slice(), err),
        _ => {}
    }
}
