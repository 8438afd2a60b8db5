//! The forms that the flags ask for.
ghost use Rattle.std.specs.Prelude.{◌≡◌};
ghost use Rattle.clap.specs.Words.{found_of, rows_of};
ghost use Rattle.ledger_cli.specs.Forms.{record_form as of_set};
ghost use Rattle.ledger_cli.specs.Forms.{effect_in, loss_in, unowned_in};
ghost use Rattle.ledger_cli.specs.Forms.{AreAskedColumns, IsAskedForm, byte_form_in, name_form_in, set_in, text_columns};
ghost use Rattle.ledger_cli.specs.Forms.{candidates_in, choice_in};
ghost use Rattle.ledger_cli.specs.Looks.{alone as alone_look, plan_in};

use crate::faults::JobFault;
use crate::positions::columns_asked;
use crate::values::is_given;
use clap::ArgMatches;
use disk_changes::{Columns, Unowned};
use disk_reports::{NameForm, PlanForm};
use file_rescues::{ByteForm, Candidates, Choice, RecordForm};
use image_edits::Effect;
use image_looks::{DiskLook, Look};
use line_text::CharacterSet;
use opened_files::Loss;

/// What is done if the disk has lost a part of a file, or the image its log.
pub(crate) fn loss<'a>(matches: &ArgMatches<'a>) -> Loss
    ensures { result ≡ loss_in (rows_of (found_of matches.now)) }
{
    if is_given(matches, "accept-loss") {
        Loss::Accepted
    } else {
        Loss::Refused
    }
}

/// What a repair does with sectors that are taken and no file's.
pub(crate) fn unowned<'a>(matches: &ArgMatches<'a>) -> Unowned
    ensures { result ≡ unowned_in (rows_of (found_of matches.now)) }
{
    if is_given(matches, "free") {
        Unowned::Freed
    } else {
        Unowned::Kept
    }
}

/// Whether a change writes the image.
pub(crate) fn effect<'a>(matches: &ArgMatches<'a>) -> Effect
    ensures { result ≡ effect_in (rows_of (found_of matches.now)) }
{
    if is_given(matches, "dry-run") {
        Effect::Printed
    } else {
        Effect::Written
    }
}

/// The set of the text that is asked for.
fn text_set<'a>(matches: &ArgMatches<'a>) -> Option<CharacterSet>
    ensures { result ≡ set_in (rows_of (found_of matches.now)) }
{
    if is_given(matches, "mixed") {
        return Some(CharacterSet::Mixed);
    }
    if is_given(matches, "text") {
        return Some(CharacterSet::Graphics);
    }
    None
}

/// How the lines of a text have the records if no columns are asked for.
fn plain_columns<'a>(matches: &ArgMatches<'a>) -> Columns
    ensures { result ≡ text_columns (set_in (rows_of (found_of matches.now))) }
{
    match text_set(matches) {
        Some(set) => Columns::Text(set),
        None => Columns::One,
    }
}

/// How the lines of a text have the records.
pub(crate) fn columns<'a>(matches: &ArgMatches<'a>) -> Result<Columns, JobFault>
    ensures { AreAskedColumns (rows_of (found_of matches.now)) result }
{
    match columns_asked(matches) {
        Ok(Some(form)) => Ok(Columns::Several(form)),
        Ok(None) => Ok(plain_columns(matches)),
        Err(fault) => Err(fault),
    }
}

/// How records are printed if no columns are asked for.
fn plain_form<'a>(matches: &ArgMatches<'a>) -> RecordForm
    ensures { result ≡ of_set (set_in (rows_of (found_of matches.now))) }
{
    match text_set(matches) {
        Some(set) => RecordForm::Text(set),
        None => RecordForm::Lines,
    }
}

/// How records are printed.
pub(crate) fn record_form<'a>(matches: &ArgMatches<'a>) -> Result<RecordForm, JobFault>
    ensures { IsAskedForm (rows_of (found_of matches.now)) result }
{
    match columns_asked(matches) {
        Ok(Some(form)) => Ok(RecordForm::Columns(form)),
        Ok(None) => Ok(plain_form(matches)),
        Err(fault) => Err(fault),
    }
}

/// How the bytes of a file are printed.
pub(crate) fn byte_form<'a>(matches: &ArgMatches<'a>) -> ByteForm
    ensures { result ≡ byte_form_in (rows_of (found_of matches.now)) }
{
    match text_set(matches) {
        Some(set) => ByteForm::Text(set),
        None => ByteForm::Plain,
    }
}

/// Which files may be found by their name.
pub(crate) fn candidates<'a>(matches: &ArgMatches<'a>) -> Candidates
    ensures { result ≡ candidates_in (rows_of (found_of matches.now)) }
{
    if is_given(matches, "unclosed") {
        Candidates::All
    } else {
        Candidates::Closed
    }
}

/// Which entries are taken out.
pub(crate) fn choice<'a>(matches: &ArgMatches<'a>) -> Choice
    ensures { result ≡ choice_in (rows_of (found_of matches.now)) }
{
    Choice {
        scanned: is_given(matches, "scan"),
        deleted: is_given(matches, "deleted"),
    }
}

/// What is printed of a disk alone.
pub(crate) fn alone(what: DiskLook) -> Look
    ensures { result ≡ alone_look what }
{
    match what {
        DiskLook::List(form) => Look::List(form),
        DiskLook::Check => Look::Check,
        DiskLook::Faults => Look::Faults,
        DiskLook::Show(loss) => Look::Show(loss),
    }
}

/// How names of a disk are printed.
pub(crate) fn name_form<'a>(matches: &ArgMatches<'a>) -> NameForm
    ensures { result ≡ name_form_in (rows_of (found_of matches.now)) }
{
    match text_set(matches) {
        Some(set) => NameForm::Text(set),
        None => NameForm::Ascii,
    }
}

/// How a plan is to be printed.
pub(crate) fn plan_form<'a>(matches: &ArgMatches<'a>) -> PlanForm
    ensures { result ≡ plan_in (rows_of (found_of matches.now)) }
{
    if is_given(matches, "json") {
        PlanForm::Json
    } else if is_given(matches, "csv") {
        PlanForm::Csv
    } else {
        PlanForm::Lines
    }
}
