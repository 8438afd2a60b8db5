//! The line that a person at a terminal reads below a refusal: which file it is about, what the system said of it, and what
//! to do.
ghost use Rattle.ledger_jobs.specs.JobRights.{MayExplain};

use crate::announcements::{tell_fault, warn_of_cut};
use crate::failure_lines::{tell_device, tell_files, tell_of, tell_of_either, tell_of_image};
use crate::job_files::{first_file, image_of, text_of};
use crate::jobs::Job;
use crate::line_lines::tell_line;
use crate::made_paths::{tell_made, tell_second_name, tell_standing};
use crate::near_names::tell_name;
use crate::refusal_subjects::{Advice, LOG_AWAY, said_of_fault, subject_of};
use crate::size_lines::{missized_of, tell_size};
use command_faults::CommandFault;
use image_file::{Failure, HostFiles, Locks, Subject};
use std::fs::OpenFile;
use std::io::{Read, Write};

/// Prints what a fault of a job's first image means, and what can be done about it. If two images are
/// compared, it isn't known which one has the fault.
fn tell_fault_of<F, R, E>(rt: &R, job: &Job<'_>, refusal: CommandFault, err: &mut E)
where
    F: Read + Locks + OpenFile + Drop,
    R: HostFiles<File = F> + AllocGlobal,
    E: Write,
    requires { MayExplain R.rights rt.now job.now }
{
    let CommandFault::Layout(fault) = refusal else {
        return;
    };
    match (job, first_file(job)) {
        (Job::Compare { .. }, _) | (_, None) => tell_of_image(err, job, said_of_fault(fault)),
        (_, Some(image)) => tell_fault(rt, image, fault, err),
    }
}

/// Prints that the log of a job's image isn't there; and where a file of the image is cut short, because one flag accepts both
/// losses.
fn tell_away<F, R, E>(rt: &R, job: &Job<'_>, err: &mut E)
where
    F: Read + Locks + OpenFile + Drop,
    R: HostFiles<File = F> + AllocGlobal,
    E: Write,
    requires { MayExplain R.rights rt.now job.now }
{
    tell_of_image(err, job, LOG_AWAY);
    if let Some(image) = first_file(job) {
        warn_of_cut(rt, image, err);
    }
}

/// Whether the call that failed was about something beside a job's files, such as the folder of a file that the job made.
fn is_of_folder(cause: &Option<Failure<'_>>) -> bool {
    matches!(
        cause,
        Some(Failure {
            subject: Subject::Beside(_),
            ..
        })
    )
}

/// Prints for a person, in a line below the refusal's own, which file it is about, what the system said of it, or what to
/// do. `cause` is why a call of the system failed, if one did. No file is opened for it, with three exceptions: if no file
/// has the name, or the image has another size, it is locked with others that read it, and read again; and a text whose
/// line is refused is read again. If the line can't be printed, this isn't reported: nobody reads standard error.
pub fn explain<F, R, E>(
    rt: &R,
    job: &Job<'_>,
    refusal: CommandFault,
    cause: Option<Failure<'_>>,
    err: &mut E,
)
where
    F: Read + Locks + OpenFile + Drop,
    R: HostFiles<File = F> + AllocGlobal,
    E: Write,
    requires { MayExplain R.rights rt.now job.now }
{
    let image = image_of(job);
    match subject_of(job, refusal) {
        Advice::Files => {
            let is_of_folder = is_of_folder(&cause);
            tell_files(rt, job, cause, err);
            if is_of_folder {
                tell_standing(rt, job, err);
            }
        }
        Advice::Size => {
            if let Some(image) = missized_of(rt, job) {
                tell_size(rt, image, err);
            }
        }
        Advice::Device => tell_device(job, cause, err),
        Advice::Image(said) => tell_of_image(err, job, said),
        Advice::Fault => tell_fault_of(rt, job, refusal, err),
        Advice::Away => tell_away(rt, job, err),
        Advice::Name => {
            if let Some(image) = first_file(job) {
                tell_name(rt, job, image, err);
            }
        }
        Advice::Either(said) => tell_of_either(err, image, text_of(job).unwrap_or(image), said),
        Advice::Text(said) => tell_of(err, text_of(job).unwrap_or(image), said),
        Advice::Line(number) => tell_line(rt, job, number, err),
        Advice::Made => tell_made(rt, job, err),
        Advice::SecondName => tell_second_name(rt, job, err),
        Advice::Nothing => {}
    }
}
