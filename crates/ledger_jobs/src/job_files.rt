//! The files that a job names: its words for them, and their sizes.
ghost use Rattle.std.specs.Prelude.{◌≡◌, option_map};
ghost use Rattle.ledger_jobs.specs.JobRights as specs;

use crate::jobs::Job;
use arrayvec::ArrayVec;
use disk_changes::ChangeKind;
use opened_files::STANDARD_INPUT;

/// The file that a job reads or writes first. None of a job over several images.
pub(crate) fn first_file<'a>(job: &Job<'a>) -> Option<&'a str>
    ensures { option_map (λ path. path.now) result ≡ specs.first_file job.now }
{
    match job {
        Job::Format { image, .. } | Job::FormatNew { image, .. } | Job::New { image, .. } => Some(
            image,
        ),
        Job::Look { image, .. } | Job::Change { image, .. } | Job::Trim { image } => Some(image),
        Job::Play { image, .. } | Job::PlayLogged { image, .. } | Job::Serve { image, .. } => Some(
            image,
        ),
        Job::Extract { image, .. } | Job::Copy { image, .. } => Some(image),
        Job::Salvage { log, .. } => Some(log),
        Job::Several { .. } | Job::Sheet { .. } | Job::Describe { .. } => None,
        Job::Compare { before, .. } => Some(before),
        Job::Dry { script } => Some(script),
    }
}

/// The path of that file; an empty text for several images.
pub(crate) fn image_of<'a>(job: &Job<'a>) -> &'a str {
    first_file(job).unwrap_or("")
}

/// The other image, of which a job copies a file.
pub(crate) fn source_file<'a>(job: &Job<'a>) -> Option<&'a str>
    ensures { option_map (λ path. path.now) result ≡ specs.source_file job.now }
{
    match job {
        Job::Change { kind, .. } => match kind {
            ChangeKind::CopyFile { from, .. } => Some(from),
            _ => None,
        },
        _ => None,
    }
}

/// The script, the records or the other image that a job reads after its first file.
pub(crate) fn text_of<'a>(job: &Job<'a>) -> Option<&'a str> {
    match job {
        Job::Play { script, .. } | Job::PlayLogged { script, .. } | Job::Dry { script } => Some(
            script,
        ),
        Job::Change {
            kind: ChangeKind::Store { records, .. },
            ..
        } => Some(records),
        Job::Change {
            kind: ChangeKind::CopyFile { from, .. },
            ..
        } => Some(from),
        _ => None,
    }
}

/// The second file of a job, or the folder that it makes.
fn second_of<'a>(job: &Job<'a>) -> Option<&'a str> {
    match job {
        Job::Compare { after, .. } => Some(after),
        Job::Copy { copy, .. } | Job::Salvage { copy, .. } => Some(copy),
        Job::Change {
            kind: ChangeKind::Put { file, .. } | ChangeKind::PutGeos { file, .. },
            ..
        } => Some(file),
        Job::Extract { folder, .. } => Some(folder),
        _ => text_of(job),
    }
}

/// The words of a job that name files: those that a failure of the system can be about. None of a job over several
/// images, which prints what is wrong with each.
pub fn files_of<'a>(job: &Job<'a>) -> ArrayVec<&'a str, 2> {
    let Some(image) = first_file(job) else {
        return ArrayVec::new();
    };
    let mut files = ArrayVec::new();
    if image != STANDARD_INPUT {
        files.push(image);
    }
    match second_of(job) {
        Some(path) if path != STANDARD_INPUT => files.push(path),
        _ => {}
    }
    files
}
