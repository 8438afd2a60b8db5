//! The jobs that change an image, one for each subcommand.
ghost use Rattle.std.specs.Prelude.{◌≡◌, codes};
ghost use Rattle.clap.specs.Words.{found_of, rows_of};
ghost use Rattle.command_table.specs.Grammar.{value};
ghost use Rattle.disk_changes.specs.Changes.{IsFit};
ghost use Rattle.ledger_cli.specs.Jobs.{IsChangeIn, IsRead, lock_word, word_of_change};
ghost use Rattle.ledger_cli.specs.Names.{copy_name as named_copy};

use crate::disk_ids::id_of;
use crate::faults::JobFault;
use crate::file_names::{name_of, new_name_of};
use crate::file_types::{entry_type_of, type_of};
use crate::forms::{columns, effect, loss, unowned};
use crate::numbers::length_of;
use crate::values::{is_given, optional_value, value_of};
use clap::ArgMatches;
use disk_changes::{ChangeKind, Lock};
use ledger_jobs::Job;

/// The job that changes an image so, or only prints what that would print.
fn changing<'a>(matches: &ArgMatches<'a>, kind: ChangeKind<'a>) -> Result<Job<'a>, JobFault>
    requires asked { IsChangeIn kind (rows_of (found_of matches.now)) }
    requires fit { IsFit kind }
    ensures { IsRead (word_of_change kind.entry) (rows_of (found_of matches.now)) result }
{
    Ok(Job::Change {
        image: value_of(matches, "IMAGE"),
        effect: effect(matches),
        loss: loss(matches),
        kind,
    })
}

/// The job that repairs an image.
pub(crate) fn repair_job<'a>(matches: &ArgMatches<'a>) -> Result<Job<'a>, JobFault>
    ensures { IsRead (codes "repair") (rows_of (found_of matches.now)) result }
{
    let unowned = unowned(matches);
    if is_given(matches, "sides") {
        changing(matches, ChangeKind::RepairSides { unowned })
    } else {
        changing(matches, ChangeKind::Repair { unowned })
    }
}

/// The job that makes a relative file.
pub(crate) fn make_job<'a>(matches: &ArgMatches<'a>) -> Result<Job<'a>, JobFault>
    ensures { IsRead (codes "make") (rows_of (found_of matches.now)) result }
{
    let name = new_name_of(value_of(matches, "NAME"))?;
    let length = length_of(value_of(matches, "BYTES"))?;
    changing(matches, ChangeKind::Make { length, name })
}

/// The job that stores records in a relative file.
pub(crate) fn store_job<'a>(matches: &ArgMatches<'a>) -> Result<Job<'a>, JobFault>
    ensures { IsRead (codes "store") (rows_of (found_of matches.now)) result }
{
    let records = value_of(matches, "RECORDS");
    let columns = columns(matches)?;
    let name = name_of(value_of(matches, "NAME"))?;
    let kind = ChangeKind::Store {
        records,
        columns,
        name,
    };
    changing(matches, kind)
}

/// The job that puts a file of the host on the disk, or the file of GEOS that a CVT holds.
pub(crate) fn put_job<'a>(matches: &ArgMatches<'a>) -> Result<Job<'a>, JobFault>
    ensures { IsRead (codes "put") (rows_of (found_of matches.now)) result }
{
    let file = value_of(matches, "FILE");
    let name = new_name_of(value_of(matches, "NAME"))?;
    let word = value_of(matches, "TYPE");
    if word == "cvt" {
        return changing(matches, ChangeKind::PutGeos { file, name });
    }
    let kind = type_of(word)?;
    changing(matches, ChangeKind::Put { file, kind, name })
}

/// The name that the words give a copy: that of NEW, otherwise of NAME.
fn copy_name<'a>(matches: &ArgMatches<'a>) -> &'a str
    ensures { result.now ≡ named_copy (rows_of (found_of matches.now)) }
{
    match optional_value(matches, "NEW") {
        Some(name) => name,
        None => value_of(matches, "NAME"),
    }
}

/// The job that copies a file of another image to the disk.
pub(crate) fn copy_file_job<'a>(matches: &ArgMatches<'a>) -> Result<Job<'a>, JobFault>
    ensures { IsRead (codes "copy-file") (rows_of (found_of matches.now)) result }
{
    let from = value_of(matches, "FROM");
    let name = name_of(value_of(matches, "NAME"))?;
    let to = new_name_of(copy_name(matches))?;
    changing(matches, ChangeKind::CopyFile { from, name, to })
}

/// The job that gives a file another name.
pub(crate) fn rename_job<'a>(matches: &ArgMatches<'a>) -> Result<Job<'a>, JobFault>
    ensures { IsRead (codes "rename") (rows_of (found_of matches.now)) result }
{
    let from = name_of(value_of(matches, "OLD"))?;
    let to = new_name_of(value_of(matches, "NEW"))?;
    changing(matches, ChangeKind::Rename { from, to })
}

/// The job that gives the disk another name and ID.
pub(crate) fn title_job<'a>(matches: &ArgMatches<'a>) -> Result<Job<'a>, JobFault>
    ensures { IsRead (codes "title") (rows_of (found_of matches.now)) result }
{
    let name = name_of(value_of(matches, "NAME"))?;
    let id = id_of(value_of(matches, "ID"))?;
    changing(matches, ChangeKind::Title { id, name })
}

/// The job that locks or unlocks a file.
pub(crate) fn lock_job<'a>(matches: &ArgMatches<'a>, lock: Lock) -> Result<Job<'a>, JobFault>
    ensures { IsRead (lock_word lock) (rows_of (found_of matches.now)) result }
{
    let name = name_of(value_of(matches, "NAME"))?;
    changing(matches, ChangeKind::Lock { lock, name })
}

/// The job that deletes a file.
pub(crate) fn delete_job<'a>(matches: &ArgMatches<'a>) -> Result<Job<'a>, JobFault>
    ensures { IsRead (codes "delete") (rows_of (found_of matches.now)) result }
{
    let name = name_of(value_of(matches, "NAME"))?;
    changing(matches, ChangeKind::Delete { name })
}

/// The job that makes a deleted file a file of a type again.
pub(crate) fn undelete_job<'a>(matches: &ArgMatches<'a>) -> Result<Job<'a>, JobFault>
    ensures { IsRead (codes "undelete") (rows_of (found_of matches.now)) result }
{
    let kind = entry_type_of(value_of(matches, "TYPE"))?;
    let name = name_of(value_of(matches, "NAME"))?;
    changing(matches, ChangeKind::Undelete { kind, name })
}

/// The job that sorts the directory.
pub(crate) fn sort_job<'a>(matches: &ArgMatches<'a>) -> Result<Job<'a>, JobFault>
    ensures { IsRead (codes "sort") (rows_of (found_of matches.now)) result }
{
    changing(matches, ChangeKind::Sort)
}
