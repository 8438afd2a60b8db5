//! Doing a job: its files are opened and read, and what is printed goes to an output.
ghost use Rattle.image_log.specs.life.HostLogs.{asked_logs, untagged_folders};
ghost use Rattle.ledger_jobs.specs.JobRuns.{IsJobOver};
ghost use Rattle.ledger_jobs.specs.Jobs.{IsFit};
ghost use Rattle.ledger_jobs.specs.JobRights.{MayDo};

use crate::jobs::Job;
use command_faults::CommandFault;
use disk_layout::Fault;
use folder_changes::HostImages;
use image_edits::{do_copying, do_edit, do_new, do_salvaging};
use image_file::{EndedFile, HostFiles, HostInput, Locks};
use image_looks::{do_comparing, do_describing, do_extracting, do_look, do_several, do_sheet};
use shop_jobs::{
    JobOutput, do_dry, do_format, do_format_new, do_logged_playing, do_logged_serving, do_playing,
};
use std::fs::OpenFile;
use std::io::Read;

/// Opens or reads the job's files and does it. What is printed goes to `out`, which is flushed at the end. An image is
/// locked before anything of it is read or changed; if it is written, this program has it alone. If a log stands beside
/// it, the log is landed before the image is written (`Format` replaces it too); otherwise it is read in the place of the
/// image.
///
/// It touches the files that the job's words name, and the log beside its image, in the ways for which `MayDo` asks rights.
/// What `format --new`, `new`, `copy` and `extract` make at a path is made under its `NAME.new` (up to `.new9`) first; `MayDo`
/// asks for those names too.
///
/// `InUse` if another program has the image; `Log` if its log gives no image; `LogAway` if that has the rest of a shop and
/// isn't there, and the job shows, plays, serves or changes an image and accepts no loss; `File` if a file couldn't be opened
/// or read, `NotReady` if input that is read whole is set not to wait. The other faults are those of `look`, `dry_run`,
/// `do_format`, `make_image`, `play_durably`, `play_logged`, `serve_logged`, `salvage`,
/// `change_image`, `show_change`, `extract_run` and `comparing_run`.
/// `Trim` ends with `File`, since it reports on standard error: call `do_trim`. What is wrong with one of several images is
/// printed; only a failed output ends the job before the last of them.
pub fn do_job<F, R, W>(rt: &R, job: &Job<'_>, out: &mut W) -> Result<Option<Fault>, CommandFault>
where
    F: EndedFile + Read + Locks + OpenFile + Drop,
    R: HostFiles<File = F> + HostImages + HostInput + Input + AllocGlobal,
    W: JobOutput,
    requires rights { MayDo R.rights rt.now job.now }
    requires fit { IsFit job.now }
    ensures { IsJobOver R.HostFiles F.Read F.Seek F.WritesAt.own (asked_logs R.logs) (untagged_folders R.folders) R.rights R.stands R.traces
        F.EndedFile.remains R.changed R.replaced R.given W.contents W.replies rt.now job.now out.old out.new result }
{
    match *job {
        Job::Format { image, tills } => do_format(rt, image, tills, out),
        Job::FormatNew { image, tills } => do_format_new(rt, image, tills, out),
        Job::New {
            image,
            ref name,
            ref id,
        } => do_new(rt, image, name, *id, out),
        Job::Look { ref what, image } => do_look(rt, what, image, out),
        Job::Dry { script } => do_dry(rt, script, out),
        Job::Play {
            image,
            script,
            loss,
        } => do_playing(rt, image, script, loss, out),
        Job::PlayLogged {
            image,
            script,
            loss,
        } => do_logged_playing(rt, image, script, loss, out),
        Job::Serve { image, loss } => do_logged_serving(rt, image, loss, out),
        Job::Copy { image, copy } => do_copying(rt, image, copy, out),
        Job::Salvage { log, copy } => do_salvaging(rt, log, copy, out),
        Job::Extract {
            choice,
            image,
            folder,
        } => do_extracting(rt, choice, image, folder, out),
        Job::Change {
            image,
            effect,
            loss,
            ref kind,
        } => do_edit(rt, image, kind, loss, effect, out),
        Job::Trim { .. } => Err(CommandFault::File),
        Job::Compare { before, after } => do_comparing(rt, before, after, out),
        Job::Sheet { ref images } => do_sheet(rt, images.as_slice(), out),
        Job::Describe { form, ref images } => do_describing(rt, form, images.as_slice(), out),
        Job::Several {
            ref what,
            ref images,
        } => do_several(rt, what, images.as_slice(), out),
    }
}
