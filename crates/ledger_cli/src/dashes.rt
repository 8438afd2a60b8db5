//! `-` in place of a path: standard input, where a file is read.
ghost use Rattle.std.specs.Prelude.{◌≡◌};
ghost use Rattle.disk_changes.specs.Changes as changes;
ghost use Rattle.ledger_cli.specs.Dashes.{AreReadAs, IsChangeRead, IsJobRead, is_written_dash};
ghost use Rattle.ledger_cli.specs.Dashes as dashes;
ghost use Rattle.ledger_jobs.specs.Jobs.{IsFit};

use disk_changes::ChangeKind;
use image_edits::Effect;
use ledger_jobs::Job;
use opened_files::STANDARD_INPUT;

/// The word that stands for standard input. A file of this name is written `./-`.
const DASH: &str = "-";

/// Whether a path is that word.
fn is_dash(path: &str) -> bool
    ensures { result ≡ dashes.is_dash path.now }
{
    path == DASH
}

/// Whether a job makes, replaces or changes a file whose path is `-`. Standard input is read, and no file is made of that
/// name by mistake.
pub(crate) fn writes_dash(job: &Job<'_>) -> bool
    ensures { result ≡ is_written_dash job.now }
{
    match job {
        Job::Format { image, .. } | Job::FormatNew { image, .. } | Job::New { image, .. } => {
            is_dash(image)
        }
        Job::Play { image, .. } | Job::PlayLogged { image, .. } | Job::Serve { image, .. } => {
            is_dash(image)
        }
        Job::Change {
            image,
            effect: Effect::Written,
            ..
        } => is_dash(image),
        Job::Copy { copy, .. } | Job::Salvage { copy, .. } => is_dash(copy),
        Job::Extract { folder, .. } => is_dash(folder),
        _ => false,
    }
}

/// The path under which a file is read that is named so.
fn read_path(path: &str) -> &str
    ensures { result.now ≡ dashes.read_path path.now }
{
    if is_dash(path) { STANDARD_INPUT } else { path }
}

/// The same of several files.
fn read_paths<'a>(mut paths: Vec<&'a str>) -> Vec<&'a str>
    ensures { AreReadAs paths.entry result }
{
    for path in paths.iter_mut() {
        *path = read_path(path);
    }
    paths
}

/// The change whose file is read under this path.
fn read_change(change: ChangeKind<'_>) -> ChangeKind<'_>
    requires { changes.IsFit change }
    ensures fit { changes.IsFit result }
    ensures read { IsChangeRead change.entry result }
{
    match change {
        ChangeKind::Put { file, kind, name } => ChangeKind::Put {
            file: read_path(file),
            kind,
            name,
        },
        ChangeKind::PutGeos { file, name } => ChangeKind::PutGeos {
            file: read_path(file),
            name,
        },
        ChangeKind::CopyFile { from, name, to } => ChangeKind::CopyFile {
            from: read_path(from),
            name,
            to,
        },
        ChangeKind::Store {
            records,
            columns,
            name,
        } => ChangeKind::Store {
            records: read_path(records),
            columns,
            name,
        },
        change => change,
    }
}

/// The job whose files are read under these paths.
pub(crate) fn read_dashes(job: Job<'_>) -> Job<'_>
    requires { IsFit job }
    ensures fit { IsFit result }
    ensures read { IsJobRead job.entry result }
{
    match job {
        Job::Look { image, what } => Job::Look {
            image: read_path(image),
            what,
        },
        Job::Play {
            image,
            script,
            loss,
        } => Job::Play {
            image,
            script: read_path(script),
            loss,
        },
        Job::PlayLogged {
            image,
            script,
            loss,
        } => Job::PlayLogged {
            image,
            script: read_path(script),
            loss,
        },
        Job::Dry { script } => Job::Dry {
            script: read_path(script),
        },
        Job::Copy { image, copy } => Job::Copy {
            image: read_path(image),
            copy,
        },
        Job::Extract {
            choice,
            image,
            folder,
        } => Job::Extract {
            choice,
            image: read_path(image),
            folder,
        },
        Job::Change {
            image,
            effect,
            loss,
            kind,
        } => Job::Change {
            image: read_path(image),
            effect,
            loss,
            kind: read_change(kind),
        },
        Job::Trim { image } => Job::Trim {
            image: read_path(image),
        },
        Job::Sheet { images } => Job::Sheet {
            images: read_paths(images),
        },
        Job::Describe { form, images } => Job::Describe {
            form,
            images: read_paths(images),
        },
        Job::Compare { before, after } => Job::Compare {
            before: read_path(before),
            after: read_path(after),
        },
        Job::Several { what, images } => Job::Several {
            what,
            images: read_paths(images),
        },
        job => job,
    }
}
