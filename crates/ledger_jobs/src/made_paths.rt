//! What stands at the paths of a job, and what a run that was killed left beside them.
ghost use Rattle.std.specs.Prelude.{◌≡◌, IfSome, option_map};
ghost use Rattle.ledger_jobs.specs.JobRights as specs;
ghost use Rattle.ledger_jobs.specs.JobRights.{MayExplain};
ghost use Rattle.opened_files.specs.Rights.{MayLookAside};

use crate::failure_lines::{tell_of, tell_of_image};
use crate::job_files::{first_file, image_of};
use crate::jobs::Job;
use crate::refusal_subjects::SECOND_NAME;
use image_file::{HostFiles, ShownPath};
use opened_files::{STANDARD_INPUT, has_no_aside, second_aside, size_of};
use std::io::Write;

const REPLACE: &str = "it is there already; `format` without `--new` replaces it";

const OTHER_NAME: &str = "it is there already; choose another name";

const LOG_ALONE: &str =
    "a log is there that belongs to this name, and may be all that is left of a shop (\"man ledger-1541\"); choose another name";

/// The path of the file or the folder that a job makes where nothing stands.
fn made_path<'a>(job: &Job<'a>) -> Option<&'a str>
    ensures { option_map (λ path. path.now) result ≡ specs.made_path job.now }
{
    match job {
        Job::FormatNew { image, .. } | Job::New { image, .. } => Some(image),
        Job::Copy { copy, .. } | Job::Salvage { copy, .. } => Some(copy),
        Job::Extract { folder, .. } => Some(folder),
        _ => None,
    }
}

/// The same, of a job whose files may be looked at.
fn path_to_make<'a, R: HostFiles>(rt: &R, job: &Job<'a>) -> Option<&'a str>
    requires { MayExplain R.rights rt.now job.now }
    ensures { IfSome result (λ path. MayLookAside R.rights rt.now path.now) }
{
    made_path(job)
}

/// The first file of a job whose files may be looked at.
fn path_of_first<'a, R: HostFiles>(rt: &R, job: &Job<'a>) -> Option<&'a str>
    requires { MayExplain R.rights rt.now job.now }
    ensures { IfSome result (λ path. MayLookAside R.rights rt.now path.now) }
{
    first_file(job)
}

/// Whether something stands at a path, as far as the host says. Standard input isn't looked at.
fn stands<R: HostFiles>(rt: &R, path: &str) -> bool
    requires { MayLookAside R.rights rt.now path.now }
{
    path != STANDARD_INPUT && rt.is_named(path).unwrap_or(false)
}

/// What is said of a path at which a job can't make what it makes.
fn said_of_taken<R: HostFiles>(rt: &R, job: &Job<'_>, path: &str) -> &'static str
    requires { MayLookAside R.rights rt.now path.now }
{
    let is_file = size_of(rt, path).is_some();
    match job {
        Job::FormatNew { .. } if is_file => REPLACE,
        _ if is_file || stands(rt, path) => OTHER_NAME,
        _ => LOG_ALONE,
    }
}

/// Prints that ten names are taken that killed runs left, or those that go on.
fn tell_ten<E: Write>(err: &mut E, path: &str) {
    let shown = ShownPath(path);
    let _ = writeln!(
        err,
        "ledger: {shown}: ten runs that made it were killed, or go on: {shown}.new and {shown}.new1 to {shown}.new9 are there; \
         delete those that no run makes"
    );
}

/// Prints that an image can't be made at the path of a job's first file, where nothing stands, since ten names are taken that killed
/// runs left. Returns whether it is so.
pub(crate) fn tell_ten_of_first<R: HostFiles + AllocGlobal, E: Write>(
    rt: &R,
    job: &Job<'_>,
    err: &mut E,
) -> bool
    requires { MayExplain R.rights rt.now job.now }
{
    if !matches!(job, Job::Format { .. }) {
        return false;
    }
    match path_of_first(rt, job) {
        Some(path) if !stands(rt, path) && has_no_aside(rt, path) => {
            tell_ten(err, path);
            true
        }
        _ => false,
    }
}

/// Prints why a file or a folder can't be made: something stands at its path, a log beside it, or ten names that killed runs left.
pub(crate) fn tell_made<R: HostFiles + AllocGlobal, E: Write>(rt: &R, job: &Job<'_>, err: &mut E)
    requires { MayExplain R.rights rt.now job.now }
{
    let Some(path) = path_to_make(rt, job) else {
        return tell_of(err, image_of(job), OTHER_NAME);
    };
    if stands(rt, path) || !has_no_aside(rt, path) {
        return tell_of(err, path, said_of_taken(rt, job, path));
    }
    tell_ten(err, path);
}

/// Prints of a file or a folder that stands at the path at which a job makes one, where a call of its folder failed, that it is there,
/// and what is left beside it. Whether this run made it isn't known here, so the line says what holds if it did. A second name that
/// ends with `.new` is given only by a run that made the file whole before.
pub(crate) fn tell_standing<R: HostFiles + AllocGlobal, E: Write>(
    rt: &R,
    job: &Job<'_>,
    err: &mut E,
)
    requires { MayExplain R.rights rt.now job.now }
{
    let Some(path) = path_to_make(rt, job) else {
        return;
    };
    if !stands(rt, path) {
        return;
    }
    let shown = ShownPath(path);
    let _ = match second_aside(rt, path) {
        Some(name) => {
            let second = ShownPath(name.as_str());
            writeln!(
                err,
                "ledger: {shown} is there, and whole; delete {second}, which is a second name of it"
            )
        }
        None => writeln!(
            err,
            "ledger: {shown} is there: if this run made it, it is whole, but it may be gone if power fails now"
        ),
    };
}

/// Prints that an image has a second name; and which one a killed run left, if one did.
pub(crate) fn tell_second_name<R: HostFiles + AllocGlobal, E: Write>(
    rt: &R,
    job: &Job<'_>,
    err: &mut E,
)
    requires { MayExplain R.rights rt.now job.now }
{
    let found = match path_of_first(rt, job) {
        Some(path) => second_aside(rt, path),
        None => None,
    };
    let Some(name) = found else {
        return tell_of_image(err, job, SECOND_NAME);
    };
    let (shown, second) = (ShownPath(image_of(job)), ShownPath(name.as_str()));
    let _ = writeln!(
        err,
        "ledger: {shown}: a run that made it was killed, and left {second}, which is a second name of it; delete that name"
    );
}
