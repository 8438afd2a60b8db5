//! The numbers of the records that differ between two versions of a file: each run as its first and its last one.
ghost use Rattle.std.specs.Prelude.{◌≡◌, ◌≤◌, ◌+◌, ◌++◌, [], codes, decimal, if◌then◌else◌, IfErr, OnOk, Some};
ghost use Rattle.std.specs.Io.KnownBytes.{Appends};
ghost use Rattle.disk_pictures.specs.ComparedPages.{record_text, records_cell};
ghost use Rattle.disk_pictures.specs.Comparisons.{is_record_changed as record_changed, is_record_changed_before};
ghost use Rattle.disk_pictures.specs.Drawings.{file_in};
ghost use Rattle.command_faults.specs.declared.faults.CommandFault.TheVariants as faults;

use crate::comparison::versions::Versions;
use command_faults::{CommandFault, print_text};
use std::fmt::{self, Display, Formatter};
use std::io::Write;

/// A number after a mark.
#[derive(Clone, Copy)]
struct Marked {
    mark: &'static str,
    number: usize,
}

impl Display for Marked {
    ghost output = { λ it. Some (it.mark.now ++ decimal it.number) };

    fn fmt<W: fmt::Write>(&self, f: &mut Formatter<W>) -> fmt::Result {
        write!(f, "{}{}", self.mark, self.number)
    }
}

/// Prints record `index`, from 0, which differs as the one before it does, if it is the last one of its run.
fn print_last<W: Write>(out: &mut W, file: &Versions<'_>, index: usize) -> Result<(), CommandFault>
    requires { index ≤ 190000 }
    ensures ok { OnOk result (Appends (W.contents out.old) (W.contents out.new)
        (if record_changed file.now.before.now.sectors.now file.now.after.now.sectors.now (file_in file.now.former.now)
        (file_in file.now.file.now) (index + 1) then [] else codes "-" ++ decimal (index + 1))) }
    ensures err { IfErr result (λ fault. fault ≡ faults.File) }
{
    let number = index + 1;
    if file.is_record_changed(number) {
        Ok(())
    } else {
        print_text(out, Marked { mark: "-", number })
    }
}

/// Prints record `index`, from 0, which differs: the first one of a run, or the last one.
fn print_end<W: Write>(out: &mut W, file: &Versions<'_>, index: usize) -> Result<(), CommandFault>
    requires { index ≤ 190000 }
    ensures ok { OnOk result (Appends (W.contents out.old) (W.contents out.new)
        (if is_record_changed_before file.now.before.now.sectors.now file.now.after.now.sectors.now
        (file_in file.now.former.now) (file_in file.now.file.now) index
        then (if record_changed file.now.before.now.sectors.now file.now.after.now.sectors.now (file_in file.now.former.now)
        (file_in file.now.file.now) (index + 1) then [] else codes "-" ++ decimal (index + 1))
        else codes " " ++ decimal (index + 1))) }
    ensures err { IfErr result (λ fault. fault ≡ faults.File) }
{
    if file.is_record_changed_before(index) {
        print_last(out, file, index)
    } else {
        let number = index + 1;
        print_text(out, Marked { mark: " ", number })
    }
}

/// Prints record `index`, from 0, if it differs and is the first or the last one of its run.
fn print_record<W: Write>(
    out: &mut W,
    file: &Versions<'_>,
    index: usize,
) -> Result<(), CommandFault>
    requires { index ≤ 190000 }
    ensures ok { OnOk result (Appends (W.contents out.old) (W.contents out.new)
        (record_text file.now.before.now.sectors.now file.now.after.now.sectors.now (file_in file.now.former.now)
        (file_in file.now.file.now) index)) }
    ensures err { IfErr result (λ fault. fault ≡ faults.File) }
{
    if file.is_record_changed(index) {
        print_end(out, file, index)
    } else {
        Ok(())
    }
}

/// Prints the numbers of the records that differ.
pub(crate) fn print_records<W: Write>(out: &mut W, file: &Versions<'_>) -> Result<(), CommandFault>
    ensures ok { OnOk result (Appends (W.contents out.old) (W.contents out.new)
        (records_cell file.now.before.now.sectors.now file.now.after.now.sectors.now (file_in file.now.former.now)
        (file_in file.now.file.now))) }
    ensures err { IfErr result (λ fault. fault ≡ faults.File) }
{
    let Some(count) = file.records() else {
        return Ok(());
    };
    for number in 0..count {
        print_record(out, file, number)?;
    }
    Ok(())
}
