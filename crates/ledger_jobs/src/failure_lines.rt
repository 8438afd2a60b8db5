//! The line that says to a person which file failed, and what the system said of it.
ghost use Rattle.ledger_jobs.specs.JobRights.{MayExplain};
ghost use Rattle.opened_files.specs.Rights.{MayLook};

use crate::job_files::{first_file, image_of};
use crate::jobs::Job;
use crate::made_paths::tell_ten_of_first;
use crate::read_again::text_again;
use crate::text_warnings::takes_no_file;
use disk_changes::ChangeKind;
use image_file::{Failure, HostFiles, MOST_SCRIPT, ShownPath, regular_at};
use opened_files::{STANDARD_INPUT, size_of};
use std::fmt::Display;
use std::io::{self, ErrorKind, Write};

const UNWRITTEN: &str = "; copy it to another medium, check the copy, and go on there";

const FULL: &str = "; make room there, and go on";

const LIMITED: &str = "; raise it, and go on";

const GONE: &str = "its name doesn't lead to the file that was opened, or that has another length";

const LOGGED: &str = "; all replies are in its log, which goes with it (`ledger help DEVICE`)";

const UNWAITED: &str = "; it is set not to wait (O_NONBLOCK): hand over one that waits";

const CVT: &str =
    "it is no whole CVT: it doesn't begin like one, or is shorter or longer than its own lengths say";

const TAPE: &str = "it is a tape (T64) of several programs, or of none; cbmconvert takes them out";

const UNMADE: &str =
    "its log couldn't be made; if a file IMAGE-log.new stands beside it that isn't as long as a log, move that away, and go on";

const UNREAD: &str = "ledger: a file couldn't be read to its end, or the output not be written";

/// Prints this of the file at a path. If it can't be printed, there is nobody left to read it.
pub(crate) fn tell_of<E: Write, T: Display + Drop>(err: &mut E, path: &str, said: T) {
    let _ = writeln!(err, "ledger: {}: {said}", ShownPath(path));
}

/// Prints this of one of two images, since it isn't known which one it is.
pub(crate) fn tell_of_either<E: Write>(err: &mut E, one: &str, other: &str, said: &str) {
    let (one, other) = (ShownPath(one), ShownPath(other));
    let _ = writeln!(err, "ledger: {one} or {other}: {said}");
}

/// Prints this of a job's image, or of the two that it compares.
pub(crate) fn tell_of_image<E: Write>(err: &mut E, job: &Job<'_>, said: &str) {
    match job {
        Job::Compare { before, after } => tell_of_either(err, before, after, said),
        _ => tell_of(err, image_of(job), said),
    }
}

/// Prints what the system said of a call that failed, and this after it.
fn tell_failure<E: Write>(err: &mut E, failure: &Failure<'_>, said: &str) {
    let Failure {
        subject,
        error,
        sector,
    } = failure;
    let _ = match sector {
        Some(place) => {
            let (track, number) = (place.track(), place.sector());
            writeln!(
                err,
                "ledger: {subject}: {error}, at sector {track}/{number}{said}"
            )
        }
        None => writeln!(err, "ledger: {subject}: {error}{said}"),
    };
}

/// What is wrong with a path at which something else than a regular file stands. Standard input isn't looked at.
fn fault_at<'a, R: HostFiles>(rt: &R, path: &'a str) -> Option<(&'a str, io::Error)>
    requires { MayLook R.rights rt.now path.now }
{
    if path == STANDARD_INPUT {
        return None;
    }
    match regular_at(rt, path) {
        Ok(_) => None,
        Err(error) => Some((path, error)),
    }
}

/// The first image of a job at whose path stands something else than a regular file, and what is wrong with that. None of
/// a job over a script, or over several images.
fn image_at_fault<'a, R: HostFiles>(rt: &R, job: &Job<'a>) -> Option<(&'a str, io::Error)>
    requires { MayExplain R.rights rt.now job.now }
{
    match job {
        Job::Dry { .. } => None,
        Job::Compare { before, after } => match fault_at(rt, before) {
            None => fault_at(rt, after),
            fault => fault,
        },
        _ => fault_at(rt, first_file(job)?),
    }
}

/// Prints that a text is longer than one that is read. Returns whether the text that a job reads is so long.
fn tell_long<R: HostFiles, E: Write>(rt: &R, job: &Job<'_>, err: &mut E) -> bool
    requires { MayExplain R.rights rt.now job.now }
{
    let Some(path) = text_again(rt, job) else {
        return false;
    };
    let Some(size) = size_of(rt, path) else {
        return false;
    };
    if size <= MOST_SCRIPT as u64 {
        return false;
    }
    let shown = ShownPath(path);
    let _ = writeln!(
        err,
        "ledger: {shown}: it has {size} bytes, and at most {MOST_SCRIPT} are read"
    );
    true
}

/// Prints why a file wasn't read or made of which the system said nothing: a text is too long, or a tape of no program, or of several;
/// or the log of a change wasn't made, since another file has its name.
fn tell_unread<R: HostFiles + AllocGlobal, E: Write>(rt: &R, job: &Job<'_>, err: &mut E)
    requires { MayExplain R.rights rt.now job.now }
{
    if tell_long(rt, job, err) {
        return;
    }
    match job {
        Job::Change {
            kind: ChangeKind::Put { file, .. },
            ..
        } if takes_no_file(rt, job) => tell_of(err, file, TAPE),
        Job::Change {
            kind: ChangeKind::PutGeos { file, .. },
            ..
        } if takes_no_file(rt, job) => tell_of(err, file, CVT),
        Job::Change { image, .. } => tell_of(err, image, UNMADE),
        _ => {
            let _ = writeln!(err, "{UNREAD}");
        }
    }
}

/// Prints why a file couldn't be opened, read or written: what the system said of it. If it said nothing, something else
/// than a regular file stands where an image is wanted.
pub(crate) fn tell_files<R: HostFiles + AllocGlobal, E: Write>(
    rt: &R,
    job: &Job<'_>,
    cause: Option<Failure<'_>>,
    err: &mut E,
)
    requires { MayExplain R.rights rt.now job.now }
{
    if tell_ten_of_first(rt, job, err) {
        return;
    }
    if let Some(failure) = cause {
        let said = match failure.error.kind() {
            ErrorKind::WouldBlock => UNWAITED,
            _ => "",
        };
        return tell_failure(err, &failure, said);
    }
    match image_at_fault(rt, job) {
        Some((image, error)) => tell_of(err, image, error),
        None => tell_unread(rt, job, err),
    }
}

/// What is said of a file that has gone: that its log has the replies, if the job keeps one.
fn said_of_gone(job: &Job<'_>) -> &'static str {
    match job {
        Job::Serve { .. } | Job::PlayLogged { .. } => LOGGED,
        _ => "",
    }
}

/// Prints why a file failed while it was written or read, and what to do. If the system said nothing, it is no longer
/// the file that was opened.
pub(crate) fn tell_device<E: Write>(job: &Job<'_>, cause: Option<Failure<'_>>, err: &mut E) {
    let logged = said_of_gone(job);
    let Some(failure) = cause else {
        let _ = writeln!(err, "ledger: {}: {GONE}{logged}", ShownPath(image_of(job)));
        return;
    };
    match failure.error.kind() {
        ErrorKind::NotFound => tell_failure(err, &failure, logged),
        ErrorKind::FileTooLarge => tell_failure(err, &failure, LIMITED),
        ErrorKind::StorageFull | ErrorKind::QuotaExceeded => tell_failure(err, &failure, FULL),
        _ => tell_failure(err, &failure, UNWRITTEN),
    }
}
