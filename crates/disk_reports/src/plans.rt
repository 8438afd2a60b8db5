//! The plan of an image: what a check finds, the files that are hurt, what may be lost, and the next command.
ghost use Rattle.std.specs.Prelude.{◌≡◌, ◌≢◌, ◌++◌, [], IfErr, IfOk, None, OnOk, Some, codes, flat_map};
ghost use Rattle.std.specs.Io.KnownBytes.{Appends};
ghost use Rattle.d64_image.specs.Memory.{disk_image};
ghost use Rattle.disk_reports.specs.Outcomes.{IsDescribeFault};
ghost use Rattle.disk_reports.specs.Rows.{field};
ghost use Rattle.disk_reports.specs.Plans.{AreHurt, IsPlanned, end_of, found_word, lack_part, line_head, line_tail, name_cell, name_cells, next_cell};
ghost use Rattle.disk_reports.specs.Plans.{object_head, object_tail, part, plan_heading as heading_text, plan_line, plan_object, plan_row};
ghost use Rattle.disk_reports.specs.Plans.{plan_text, row_head, row_tail, string_or_null, verdict_word};
ghost use Rattle.command_faults.specs.declared.faults.CommandFault.TheVariants as faults;
ghost use Rattle.disk_reports.specs.declared.plans.PlanVerdict.TheVariants.{Refused};

use crate::concerned::{Slots, list_files};
use crate::json::print_string;
use crate::lines::print_names;
use crate::objects::{print_end, print_files, print_head};
use crate::rows::{LackCells, print_field, print_field_chars};
use arrayvec::ArrayVec;
use command_faults::{CommandFault, load};
use d64_image::MemDisk;
use damaged_files::{Shortfall, entry_name, find_shortfall};
use disk_layout::{Fault, Slot};
use layout_check::verdict;
use line_text::write_text;
use std::alloc::Global;
use std::fmt::{self, Display, Formatter};
use std::io::{self, Write};

/// How a plan is printed.
#[derive(Clone, Copy, Debug, PartialEq, Eq)]
pub enum PlanForm {
    /// A line for each image, for a person.
    Lines,
    /// An object of JSON for each image, in a line of its own.
    Json,
    /// A row of comma-separated values for each image (RFC 4180), below a heading.
    Csv,
}

/// What stands before the first image.
pub fn plan_heading(form: PlanForm) -> &'static [u8]
    ensures { result.now ≡ heading_text form }
{
    match form {
        PlanForm::Csv => b"name,verdict,short,fewer,files,lost,next\n",
        PlanForm::Lines | PlanForm::Json => b"",
    }
}

/// What a check finds of an image, or why the image is refused.
#[derive(Clone, Copy)]
pub enum PlanVerdict {
    /// No fault, or this one.
    Found(Option<Fault>),
    /// This is reported of it.
    Refused(CommandFault),
}

/// What a check finds.
#[derive(Clone, Copy)]
struct FoundWord(Option<Fault>);

impl Display for FoundWord {
    ghost output = { λ found. Some (found_word found.0) };

    fn fmt<W: fmt::Write>(&self, f: &mut Formatter<W>) -> fmt::Result {
        match self.0 {
            None => f.write_str("OK"),
            Some(fault) => write!(f, "{fault}"),
        }
    }
}

impl Display for PlanVerdict {
    ghost output = { λ verdict. Some (verdict_word verdict) };

    fn fmt<W: fmt::Write>(&self, f: &mut Formatter<W>) -> fmt::Result {
        match *self {
            PlanVerdict::Found(found) => write!(f, "{}", FoundWord(found)),
            PlanVerdict::Refused(why) => write!(f, "{why}"),
        }
    }
}

/// What the files lack, after the verdict of a line.
#[derive(Clone, Copy)]
struct LackPart(Option<Shortfall>);

impl Display for LackPart {
    ghost output = { λ lack. Some (lack_part lack.0) };

    fn fmt<W: fmt::Write>(&self, f: &mut Formatter<W>) -> fmt::Result {
        match self.0 {
            None => f.write_str(""),
            Some(lack) => write!(f, ", {lack}"),
        }
    }
}

/// Writes a part of a line, if there is something of it.
fn print_part<W: Write>(out: &mut W, label: &[u8], text: &[u8]) -> io::Result<()>
    ensures { OnOk result (Appends (W.contents out.old) (W.contents out.new) (part label.now text.now)) }
{
    if text.is_empty() {
        return Ok(());
    }
    out.write_all(label)?;
    out.write_all(text)
}

/// Writes the name of an image, and what a check finds.
fn print_line_head<W: Write>(
    out: &mut W,
    name: &[u8],
    verdict: PlanVerdict,
    lack: Option<Shortfall>,
) -> io::Result<()>
    ensures { OnOk result (Appends (W.contents out.old) (W.contents out.new) (line_head name.now verdict lack)) }
{
    out.write_all(name)?;
    write!(out, ": {}{}", verdict, LackPart(lack))
}

/// Writes what may be lost, and what comes next.
fn print_line_tail<W: Write>(out: &mut W, lost: &[u8], next: &[u8]) -> io::Result<()>
    ensures { OnOk result (Appends (W.contents out.old) (W.contents out.new) (line_tail lost.now next.now)) }
{
    print_part(out, b"; may be lost: ", lost)?;
    print_part(out, b"; next: ", next)?;
    out.write_all(b"\n")
}

/// Writes the line of an image.
fn print_plan_line<W: Write>(
    out: &mut W,
    name: &[u8],
    verdict: PlanVerdict,
    lack: Option<Shortfall>,
    files: &[Slot],
    lost: &[u8],
    next: &[u8],
) -> io::Result<()>
    ensures { OnOk result (Appends (W.contents out.old) (W.contents out.new)
        (plan_line name.now verdict lack files.now lost.now next.now)) }
{
    print_line_head(out, name, verdict, lack)?;
    print_names(out, files)?;
    print_line_tail(out, lost, next)
}

/// Writes a string, or `null` if there is nothing.
fn print_string_or_null<W: Write>(out: &mut W, text: &[u8]) -> io::Result<()>
    ensures { OnOk result (Appends (W.contents out.old) (W.contents out.new) (string_or_null text.now)) }
{
    if text.is_empty() {
        return out.write_all(b"null");
    }
    print_string(out, text)
}

/// Writes an object up to the files.
fn print_object_head<W: Write>(
    out: &mut W,
    name: &[u8],
    verdict: PlanVerdict,
    lack: Option<Shortfall>,
) -> io::Result<()>
    ensures { OnOk result (Appends (W.contents out.old) (W.contents out.new) (object_head name.now verdict lack)) }
{
    print_head(out, name)?;
    write!(out, ",\"verdict\":\"{verdict}\"")?;
    print_end(out, lack)
}

/// Writes what may be lost.
fn print_lost<W: Write>(out: &mut W, lost: &[u8]) -> io::Result<()>
    ensures { OnOk result (Appends (W.contents out.old) (W.contents out.new) (codes ",\"lost\":" ++ string_or_null lost.now)) }
{
    out.write_all(b",\"lost\":")?;
    print_string_or_null(out, lost)
}

/// Writes what comes next.
fn print_next<W: Write>(out: &mut W, next: &[u8]) -> io::Result<()>
    ensures { OnOk result (Appends (W.contents out.old) (W.contents out.new) (codes ",\"next\":" ++ string_or_null next.now)) }
{
    out.write_all(b",\"next\":")?;
    print_string_or_null(out, next)
}

/// Writes what may be lost, what comes next, and the end of an object.
fn print_object_tail<W: Write>(out: &mut W, lost: &[u8], next: &[u8]) -> io::Result<()>
    ensures { OnOk result (Appends (W.contents out.old) (W.contents out.new) (object_tail lost.now next.now)) }
{
    print_lost(out, lost)?;
    print_next(out, next)?;
    out.write_all(b"}\n")
}

/// Writes the object of an image.
fn print_plan_object<W: Write>(
    out: &mut W,
    name: &[u8],
    verdict: PlanVerdict,
    lack: Option<Shortfall>,
    files: &[Slot],
    lost: &[u8],
    next: &[u8],
) -> io::Result<()>
    ensures { OnOk result (Appends (W.contents out.old) (W.contents out.new)
        (plan_object name.now verdict lack files.now lost.now next.now)) }
{
    print_object_head(out, name, verdict, lack)?;
    print_files(out, files)?;
    print_object_tail(out, lost, next)
}

/// Writes the name of a file in a field.
fn print_name_cell<W: Write>(out: &mut W, slot: &Slot) -> io::Result<()>
    ensures { OnOk result (Appends (W.contents out.old) (W.contents out.new) (name_cell slot.now)) }
{
    // sixteen bytes of three characters each
    let mut text = ArrayVec::<u8, 48>::new();
    write_text(&mut text, entry_name(slot))?;
    out.write_all(b"\"\"")?;
    print_field_chars(out, text.as_slice())?;
    out.write_all(b"\"\"")
}

/// Writes the name of one file more.
fn print_next_cell<W: Write>(out: &mut W, slot: &Slot) -> io::Result<()>
    ensures { OnOk result (Appends (W.contents out.old) (W.contents out.new) (next_cell slot.now)) }
{
    out.write_all(b" ")?;
    print_name_cell(out, slot)
}

/// Writes the names of more files.
fn print_more_cells<W: Write>(out: &mut W, slots: &[Slot]) -> io::Result<()>
    ensures { OnOk result (Appends (W.contents out.old) (W.contents out.new) (flat_map next_cell slots.now)) }
{
    for slot in slots {
        print_next_cell(out, slot)?;
    }
    Ok(())
}

/// Writes the names of files.
fn print_name_cells<W: Write>(out: &mut W, slots: &[Slot]) -> io::Result<()>
    ensures { OnOk result (Appends (W.contents out.old) (W.contents out.new) (name_cells slots.now)) }
{
    let [first, rest @ ..] = slots else {
        return Ok(());
    };
    print_name_cell(out, first)?;
    print_more_cells(out, rest)
}

/// Writes a row up to the files.
fn print_plan_head<W: Write>(
    out: &mut W,
    name: &[u8],
    verdict: PlanVerdict,
    lack: Option<Shortfall>,
) -> io::Result<()>
    ensures { OnOk result (Appends (W.contents out.old) (W.contents out.new) (row_head name.now verdict lack)) }
{
    print_field(out, name)?;
    write!(out, ",{},{},\"", verdict, LackCells(lack))
}

/// Writes the end of the files, and a field.
fn print_lost_cell<W: Write>(out: &mut W, lost: &[u8]) -> io::Result<()>
    ensures { OnOk result (Appends (W.contents out.old) (W.contents out.new) (codes "\"," ++ field lost.now)) }
{
    out.write_all(b"\",")?;
    print_field(out, lost)
}

/// Writes the last field.
fn print_last_cell<W: Write>(out: &mut W, next: &[u8]) -> io::Result<()>
    ensures { OnOk result (Appends (W.contents out.old) (W.contents out.new) (codes "," ++ field next.now)) }
{
    out.write_all(b",")?;
    print_field(out, next)
}

/// Writes what may be lost, what comes next, and the end of a row.
fn print_plan_tail<W: Write>(out: &mut W, lost: &[u8], next: &[u8]) -> io::Result<()>
    ensures { OnOk result (Appends (W.contents out.old) (W.contents out.new) (row_tail lost.now next.now)) }
{
    print_lost_cell(out, lost)?;
    print_last_cell(out, next)?;
    out.write_all(b"\n")
}

/// Writes the row of an image.
fn print_plan_row<W: Write>(
    out: &mut W,
    name: &[u8],
    verdict: PlanVerdict,
    lack: Option<Shortfall>,
    files: &[Slot],
    lost: &[u8],
    next: &[u8],
) -> io::Result<()>
    ensures { OnOk result (Appends (W.contents out.old) (W.contents out.new)
        (plan_row name.now verdict lack files.now lost.now next.now)) }
{
    print_plan_head(out, name, verdict, lack)?;
    print_name_cells(out, files)?;
    print_plan_tail(out, lost, next)
}

/// Writes what is printed of an image in a form.
fn print_plan<W: Write>(
    out: &mut W,
    form: PlanForm,
    name: &[u8],
    verdict: PlanVerdict,
    lack: Option<Shortfall>,
    files: &[Slot],
    lost: &[u8],
    next: &[u8],
) -> io::Result<()>
    ensures { OnOk result (Appends (W.contents out.old) (W.contents out.new)
        (plan_text form name.now verdict lack files.now lost.now next.now)) }
{
    match form {
        PlanForm::Lines => print_plan_line(out, name, verdict, lack, files, lost, next),
        PlanForm::Json => print_plan_object(out, name, verdict, lack, files, lost, next),
        PlanForm::Csv => print_plan_row(out, name, verdict, lack, files, lost, next),
    }
}

/// The sector where a file ends that lacks something, as a fault that concerns the files that have it.
fn end_fault(lack: Option<Shortfall>) -> Option<Fault>
    ensures { result ≡ end_of lack }
{
    match lack {
        None => None,
        Some(Shortfall::Short(place)) | Some(Shortfall::Fewer(place)) => Some(Fault::MapWrong(
            place,
        )),
    }
}

/// Lists the files that are hurt: those that the fault concerns, or if it concerns none, the one that lacks something.
fn list_hurt(disk: &mut MemDisk, found: Option<Fault>, lack: Option<Shortfall>, files: &mut Slots)
    ensures files { AreHurt (disk_image disk.old) found lack files.new.items }
    ensures same { disk_image disk.new ≡ disk_image disk.old }
{
    list_files(disk, found, files);
    if files.is_empty() {
        list_files(disk, end_fault(lack), files);
    }
}

/// Prints the plan of an image: its name, and what a check finds, as `check` prints it. Then follow where the first file is cut
/// short, or has fewer blocks than its entry says, and the names of the files that are hurt, as they can be typed: those that the
/// fault concerns, or if it concerns none, the one that ends there. Last come the two texts that are handed in: what may be lost,
/// and the next command; an empty one is left out of a line, and `null` in JSON. Returns the fault.
///
/// `ImageSize`; `NoMemory`: nothing was printed then. `File` if the output failed, which may then have a part.
pub fn plan_image<W: Write>(
    alloc: Global,
    form: PlanForm,
    name: &[u8],
    image: &[u8],
    lost: &[u8],
    next: &[u8],
    out: &mut W,
) -> Result<Option<Fault>, CommandFault>
    ensures ok { IfOk result (IsPlanned W.contents form name.now image.now lost.now next.now out.old out.new) }
    ensures err { IfErr result (IsDescribeFault image.now) }
    // Only if the output failed something may have been printed at a refusal.
    ensures untouched { IfErr result (λ fault. (fault ≢ faults.File) → out.new ≡ out.old) }
{
    let mut disk = load(alloc, image)?;
    let found = verdict(&mut disk);
    let lack = find_shortfall(&mut disk);
    let mut files = ArrayVec::new();
    list_hurt(&mut disk, found, lack, &mut files);
    let verdict = PlanVerdict::Found(found);
    match print_plan(out, form, name, verdict, lack, files.as_slice(), lost, next) {
        Ok(()) => Ok(found),
        Err(_) => Err(CommandFault::File),
    }
}

/// Prints the same of an image that is refused for this reason: its name, the reason, and the next command. `File` if the output
/// failed, which may then have a part.
pub fn plan_refusal<W: Write>(
    form: PlanForm,
    name: &[u8],
    why: CommandFault,
    next: &[u8],
    out: &mut W,
) -> Result<(), CommandFault>
    ensures ok { OnOk result (Appends (W.contents out.old) (W.contents out.new)
        (plan_text form name.now (Refused why) None [] [] next.now)) }
    ensures err { IfErr result (λ fault. fault ≡ faults.File) }
{
    let verdict = PlanVerdict::Refused(why);
    match print_plan(out, form, name, verdict, None, &[], b"", next) {
        Ok(()) => Ok(()),
        Err(_) => Err(CommandFault::File),
    }
}
