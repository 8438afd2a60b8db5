//! The jobs that make an image, play on it, serve it or copy it, one for each subcommand.
ghost use Rattle.std.specs.Prelude.{codes};
ghost use Rattle.clap.specs.Words.{found_of, rows_of};
ghost use Rattle.ledger_cli.specs.Jobs.{IsRead};

use crate::disk_ids::id_of;
use crate::faults::JobFault;
use crate::file_names::name_of;
use crate::forms::{choice, loss};
use crate::numbers::tills_of;
use crate::values::{is_given, value_of};
use clap::ArgMatches;
use ledger_jobs::Job;

/// The job that makes the image of a shop: with --new it is refused if the image is there.
pub(crate) fn format_job<'a>(matches: &ArgMatches<'a>) -> Result<Job<'a>, JobFault>
    ensures { IsRead (codes "format") (rows_of (found_of matches.now)) result }
{
    let image = value_of(matches, "IMAGE");
    let tills = tills_of(value_of(matches, "TILLS"))?;
    if is_given(matches, "new") {
        Ok(Job::FormatNew { image, tills })
    } else {
        Ok(Job::Format { image, tills })
    }
}

/// The job that makes the image of an empty disk.
pub(crate) fn new_job<'a>(matches: &ArgMatches<'a>) -> Result<Job<'a>, JobFault>
    ensures { IsRead (codes "new") (rows_of (found_of matches.now)) result }
{
    let image = value_of(matches, "IMAGE");
    let name = name_of(value_of(matches, "NAME"))?;
    let id = id_of(value_of(matches, "ID"))?;
    Ok(Job::New { image, name, id })
}

/// The job that plays a script on an image: with --sync over a log, otherwise sector by sector and synced at the end.
pub(crate) fn play_job<'a>(matches: &ArgMatches<'a>) -> Result<Job<'a>, JobFault>
    ensures { IsRead (codes "play") (rows_of (found_of matches.now)) result }
{
    let image = value_of(matches, "IMAGE");
    let script = value_of(matches, "SCRIPT");
    let loss = loss(matches);
    if is_given(matches, "sync") {
        Ok(Job::PlayLogged {
            image,
            script,
            loss,
        })
    } else {
        Ok(Job::Play {
            image,
            script,
            loss,
        })
    }
}

/// The job that plays a script on a disk in memory.
pub(crate) fn dry_job<'a>(matches: &ArgMatches<'a>) -> Result<Job<'a>, JobFault>
    ensures { IsRead (codes "dry") (rows_of (found_of matches.now)) result }
{
    Ok(Job::Dry {
        script: value_of(matches, "SCRIPT"),
    })
}

/// The job that answers the messages of standard input.
pub(crate) fn serve_job<'a>(matches: &ArgMatches<'a>) -> Result<Job<'a>, JobFault>
    ensures { IsRead (codes "serve") (rows_of (found_of matches.now)) result }
{
    Ok(Job::Serve {
        image: value_of(matches, "IMAGE"),
        loss: loss(matches),
    })
}

/// The job that copies an image, or with --log what a log alone has.
pub(crate) fn copy_job<'a>(matches: &ArgMatches<'a>) -> Result<Job<'a>, JobFault>
    ensures { IsRead (codes "copy") (rows_of (found_of matches.now)) result }
{
    let image = value_of(matches, "IMAGE");
    let copy = value_of(matches, "NEW");
    if is_given(matches, "log") {
        Ok(Job::Salvage { log: image, copy })
    } else {
        Ok(Job::Copy { image, copy })
    }
}

/// The job that takes the files out of an image.
pub(crate) fn extract_job<'a>(matches: &ArgMatches<'a>) -> Result<Job<'a>, JobFault>
    ensures { IsRead (codes "extract") (rows_of (found_of matches.now)) result }
{
    Ok(Job::Extract {
        choice: choice(matches),
        image: value_of(matches, "IMAGE"),
        folder: value_of(matches, "FOLDER"),
    })
}

/// The job that prints tracks 1 to 35 of an image.
pub(crate) fn trim_job<'a>(matches: &ArgMatches<'a>) -> Result<Job<'a>, JobFault>
    ensures { IsRead (codes "trim") (rows_of (found_of matches.now)) result }
{
    Ok(Job::Trim {
        image: value_of(matches, "IMAGE"),
    })
}
