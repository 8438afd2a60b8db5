//! A text that a job reads, read again for a person.
ghost use Rattle.std.specs.Prelude.{◌≡◌, IfSome, option_map};
ghost use Rattle.ledger_jobs.specs.JobRights.{MayExplain, MayReadAgain, text_file as file_of_text};

use crate::jobs::Job;
use disk_changes::ChangeKind;
use image_file::{HostFiles, read_script};
use opened_files::STANDARD_INPUT;

/// The script that a job plays, or the file of the host whose bytes a change takes.
pub(crate) fn text_file<'a>(job: &Job<'a>) -> Option<&'a str>
    ensures { option_map (λ path. path.now) result ≡ file_of_text job.now }
{
    match job {
        Job::Play { script, .. } | Job::PlayLogged { script, .. } | Job::Dry { script } => Some(
            script,
        ),
        Job::Change { kind, .. } => match kind {
            ChangeKind::Put { file, .. } => Some(file),
            ChangeKind::PutGeos { file, .. } => Some(file),
            ChangeKind::Store { records, .. } => Some(records),
            _ => None,
        },
        _ => None,
    }
}

/// The same, of a job whose files may be read again.
pub(crate) fn text_again<'a, R: HostFiles>(rt: &R, job: &Job<'a>) -> Option<&'a str>
    requires { MayExplain R.rights rt.now job.now }
    ensures { IfSome result (λ path. MayReadAgain R.rights rt.now path.now) }
{
    text_file(job)
}

/// The bytes of a text, as far as they can be read again. None of standard input, or if the text can't be read.
pub(crate) fn bytes_of_text<R: HostFiles + AllocGlobal>(rt: &R, path: &str) -> Option<Vec<u8>>
    requires { MayReadAgain R.rights rt.now path.now }
{
    if path == STANDARD_INPUT {
        return None;
    }
    let file = rt.open_to_read(path).ok()?;
    read_script(rt.alloc(), file, 0).ok()
}
