//! Jobs run over the bytes of their files.
ghost use Rattle.std.specs.Prelude.{Option};
ghost use Rattle.ledger_cli.specs.Runs.{IsJobRun, IsRun};
ghost use Rattle.ledger_jobs.specs.Jobs.{IsFit};

use crate::changed::change_over;
use crate::changing::{Ended, begin_disk, copy, format, play};
use command_faults::CommandFault;
use disk_changes::Change;
use image_looks::{comparing_run, look};
use ledger_jobs::Job;
use opened_files::end;
use shop_jobs::dry_run;
use std::alloc::Global;
use std::io::{Seek, Write};

/// Does a job over the bytes of its files. Returns how it ended, with the file.
fn obey<F: Write + Seek + Drop, W: Write>(
    alloc: Global,
    job: &Job<'_>,
    image: &[u8],
    script: &[u8],
    file: Option<F>,
    out: &mut W,
) -> (Option<F>, Ended)
    requires { IsFit job.now }
    ensures { IsJobRun F.stream_position F.stream_bytes F.contents W.contents job.now image.now script.now
        file result.0 out.old out.new result.1 }
{
    match *job {
        Job::Format { tills, .. } | Job::FormatNew { tills, .. } => format(alloc, tills, file, out),
        Job::New { ref name, id, .. } => begin_disk(alloc, name, id, file, out),
        Job::Look { ref what, .. } => (file, look(alloc, what, image, out)),
        Job::Dry { .. } => (file, dry_run(script, out)),
        Job::Play { .. } | Job::PlayLogged { .. } => play(alloc, image, script, file, out),
        Job::Copy { .. } => copy(image, file, out),
        Job::Change {
            effect,
            loss,
            ref kind,
            ..
        } => {
            let what = Change {
                kind,
                loss,
                source: script,
            };
            change_over(alloc, image, &what, effect, file, out)
        }
        Job::Compare { before, after } => (
            file,
            comparing_run(alloc, before, image, after, script, out),
        ),
        // it needs the bytes of each image, or standard error too, or a folder or a log
        Job::Serve { .. }
        | Job::Salvage { .. }
        | Job::Several { .. }
        | Job::Sheet { .. }
        | Job::Describe { .. }
        | Job::Trim { .. }
        | Job::Extract { .. } => (file, Err(CommandFault::File)),
    }
}

/// Does a job over the bytes of its files. Prints the job's output, reports in a line on `err` why it isn't done, and
/// returns the exit status and the file.
///
/// Bytes that the job doesn't read are empty. `image` has the bytes of IMAGE. `script` has those of SCRIPT, RECORDS
/// or FILE. For `Compare` they have the first image and the second one. Lines with a column for
/// each field, or at positions, are made plain before the call (`plain_lines` of `file_rescues`).
///
/// `file` is IMAGE for writing, at its start, for a job that writes it, and the copy for `Copy`. If it is missing, such
/// a job ends with 3 and `FILE`, and nothing is printed. A job that only reads leaves it as it was. There are no logs:
/// `PlayLogged` writes the image itself.
///
/// Five kinds of job end with 3 and `FILE`:
/// - a job over several images, since only one has its bytes here: call `overview_run` for each;
/// - `Extract` and `Serve`, since there is no folder: call `extract_run` and `serve_logged` over one and over a log;
/// - `Salvage`, since there is no log;
/// - `Trim`, which reports on standard error: call `trim_run`.
///
/// `Play` hands the file each sector at 256 times its index, before memory takes it, and nothing else. All other
/// jobs hand it the whole image, the directory's first sector spoiled first and written last. It isn't cut: what a longer
/// file held after an image stays there. The caller decides whether it was there before, and when its sectors are synced. If
/// it fails, the status is 3, and nothing is known of what it was handed in that call.
pub fn run_over<F: Write + Seek + Drop, W: Write, E: Write>(
    alloc: Global,
    job: &Job<'_>,
    image: &[u8],
    script: &[u8],
    file: Option<F>,
    out: &mut W,
    err: &mut E,
) -> (u8, Option<F>)
    requires { IsFit job.now }
    ensures { IsRun F.stream_position F.stream_bytes F.contents W.contents E.contents job.now image.now script.now
        file result.1 out.old out.new err.old err.new result.0 }
{
    let (left, ended) = obey(alloc, job, image, script, file, out);
    (end(ended, err).status, left)
}

/// Does what `run_over` does, and drops the file: pass `&mut` of a file that is needed afterwards. Returns the exit
/// status.
pub fn run<F: Write + Seek + Drop, W: Write, E: Write>(
    alloc: Global,
    job: &Job<'_>,
    image: &[u8],
    script: &[u8],
    file: Option<F>,
    out: &mut W,
    err: &mut E,
) -> u8
    requires { IsFit job.now }
    // the file is dropped in this state
    ensures { (left : Option F) × IsRun F.stream_position F.stream_bytes F.contents W.contents E.contents job.now image.now
        script.now file left out.old out.new err.old err.new result }
{
    let (status, _) = run_over(alloc, job, image, script, file, out, err);
    status
}
