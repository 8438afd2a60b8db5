//! The line that says to a person what is wrong with a line of records.
ghost use Rattle.ledger_jobs.specs.JobRights.{MayExplain};

use crate::bad_lines::{LineFault, fault_of_line};
use crate::failure_lines::tell_of;
use crate::job_files::{image_of, text_of};
use crate::jobs::Job;
use crate::read_again::{bytes_of_text, text_again};
use crate::refusal_subjects::BAD_LINE;
use disk_changes::{ChangeKind, Columns};
use image_file::{HostFiles, ShownPath};
use std::io::Write;

/// How many columns have a letter of their own in a spreadsheet.
const LETTERS: usize = 26;

/// How the lines of a job's text have its records. One column of a job that stores none.
fn columns_of(job: &Job<'_>) -> Columns {
    match job {
        Job::Change {
            kind: ChangeKind::Store { columns, .. },
            ..
        } => *columns,
        _ => Columns::One,
    }
}

/// What is wrong with the line of this number in the text that a job reads, as far as the text can be read again.
fn fault_again<'a, R>(rt: &R, job: &Job<'a>, number: usize) -> Option<(&'a str, LineFault)>
where
    R: HostFiles + AllocGlobal,
    requires { MayExplain R.rights rt.now job.now }
{
    let path = text_again(rt, job)?;
    let text = bytes_of_text(rt, path)?;
    let fault = fault_of_line(text.as_slice(), number, columns_of(job))?;
    Some((path, fault))
}

/// The letter that a spreadsheet has for a column, which is counted from 1 on.
fn letter_of(column: usize) -> Option<char> {
    if column == 0 || column > LETTERS {
        return None;
    }
    Some(char::from(b'A' + (column - 1) as u8))
}

/// Prints what is wrong with a line of records, in which column, and that nothing was done.
pub(crate) fn tell_line<R, E>(rt: &R, job: &Job<'_>, number: usize, err: &mut E)
where
    R: HostFiles + AllocGlobal,
    E: Write,
    requires { MayExplain R.rights rt.now job.now }
{
    let Some((path, LineFault { column, said })) = fault_again(rt, job, number) else {
        return tell_of(err, text_of(job).unwrap_or(image_of(job)), BAD_LINE);
    };
    let shown = ShownPath(path);
    let _ = match column.and_then(letter_of) {
        Some(letter) => writeln!(
            err,
            "ledger: {shown}, line {number}, column {letter}: {said}"
        ),
        None => writeln!(err, "ledger: {shown}, line {number}: {said}"),
    };
}
