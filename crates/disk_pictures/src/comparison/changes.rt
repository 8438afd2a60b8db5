//! The files that differ between two disks, a row each.
ghost use Rattle.std.specs.Prelude.{◌≡◌, ◌≤◌, ◌||◌, [], if◌then◌else◌, IfErr, OnOk, Some, length, map};
ghost use Rattle.std.specs.Io.KnownBytes.{Appends};
ghost use Rattle.disk_pictures.specs.ComparedOutcomes.{disk_in};
ghost use Rattle.disk_pictures.specs.ComparedPages.{changed_row, changes_text, difference_row, entry_head, entry_row};
ghost use Rattle.disk_pictures.specs.ComparedPages.{former_row, gone_row};
ghost use Rattle.disk_pictures.specs.ComparedPages.{new_row, parts_text};
ghost use Rattle.disk_pictures.specs.Comparisons.{are_bytes_changed, are_sectors_changed as sectors_changed};
ghost use Rattle.disk_pictures.specs.Comparisons.{is_entry_changed as entry_changed};
ghost use Rattle.disk_pictures.specs.Drawings.{file_in};
ghost use Rattle.disk_pictures.specs.Html.{html_of};
ghost use Rattle.disk_pictures.specs.Petscii.{petscii_of};
ghost use Rattle.disk_pictures.specs.Texts.{numbered};
ghost use Rattle.command_faults.specs.declared.faults.CommandFault.TheVariants as faults;

use crate::comparison::changed_records::print_records;
use crate::comparison::compared::Compared;
use crate::comparison::counterparts::counterpart;
use crate::comparison::differences::are_changed;
use crate::comparison::versions::Versions;
use crate::drawn_file::DrawnFile;
use crate::html::Html;
use crate::pages::arcs::Look;
use crate::pages::page::Link;
use crate::petscii::Petscii;
use command_faults::{CommandFault, print_text};
use damaged_files::entry_name;
use std::fmt::{self, Display, Formatter};
use std::io::Write;

/// The end of a row.
const ROW_END: &str = "</td></tr>\n";

/// This word, if it is true.
fn word_if(is_so: bool, word: &'static str) -> &'static str
    ensures { result.now ≡ (if is_so then word.now else []) }
{
    if is_so { word } else { "" }
}

/// In what a file differs.
#[derive(Clone, Copy)]
struct ChangedParts {
    /// In its directory entry.
    entry: bool,
    /// In one of its sectors.
    sectors: bool,
    /// In its contents.
    bytes: bool,
}

impl Display for ChangedParts {
    ghost output = { λ parts. Some (parts_text parts.entry parts.sectors parts.bytes) };

    fn fmt<W: fmt::Write>(&self, f: &mut Formatter<W>) -> fmt::Result {
        let entry = word_if(self.entry, "entry ");
        let sectors = word_if(self.sectors, "sectors ");
        let bytes = word_if(self.bytes, "bytes");
        write!(f, "{entry}{sectors}{bytes}")
    }
}

/// Whether the directory entry of a file differs.
fn is_entry_changed(file: &Versions<'_>) -> bool
    ensures { result ≡ entry_changed (file_in file.now.former.now) (file_in file.now.file.now) }
{
    let former = &file.former.slot.bytes[..];
    let entry = &file.file.slot.bytes[..];
    former[2..] != entry[2..]
}

/// Whether one of the sectors of a file differs.
fn are_sectors_changed(file: &Versions<'_>) -> bool
    ensures { result ≡ sectors_changed file.now.before.now.sectors.now file.now.after.now.sectors.now
        (file_in file.now.file.now) }
{
    let blocks = are_changed(file.before, file.after, file.file.blocks.as_slice());
    let sides = are_changed(file.before, file.after, file.file.sides.as_slice());
    blocks || sides
}

/// Whether the entry of a file differs, or one of its sectors.
fn is_changed(file: &Versions<'_>) -> bool
    ensures { result ≡ (entry_changed (file_in file.now.former.now) (file_in file.now.file.now)
        || sectors_changed file.now.before.now.sectors.now file.now.after.now.sectors.now (file_in file.now.file.now)) }
{
    let entry = is_entry_changed(file);
    let sectors = are_sectors_changed(file);
    entry || sectors
}

/// In what a file differs from its counterpart.
fn parts_of(file: &Versions<'_>) -> ChangedParts
    ensures entry { result.entry ≡ entry_changed (file_in file.now.former.now) (file_in file.now.file.now) }
    ensures sectors { result.sectors ≡ sectors_changed file.now.before.now.sectors.now file.now.after.now.sectors.now
        (file_in file.now.file.now) }
    ensures bytes { result.bytes ≡ are_bytes_changed file.now.before.now.sectors.now file.now.after.now.sectors.now
        (file_in file.now.former.now) (file_in file.now.file.now) }
{
    ChangedParts {
        entry: is_entry_changed(file),
        sectors: are_sectors_changed(file),
        bytes: file.are_bytes_changed(),
    }
}

/// The beginning of the row of an entry.
#[derive(Clone, Copy)]
struct EntryHead<'a> {
    number: usize,
    file: &'a DrawnFile,
    state: &'static str,
    parts: ChangedParts,
}

impl Display for EntryHead<'_> {
    ghost output = { λ head. Some (entry_head html_of petscii_of head.number (file_in head.file.now) head.state.now
        (parts_text head.parts.entry head.parts.sectors head.parts.bytes)) };

    fn fmt<W: fmt::Write>(&self, f: &mut Formatter<W>) -> fmt::Result {
        let number = self.number;
        let name = entry_name(&self.file.slot);
        write!(
            f,
            "<tr><td><i class=\"{}\"></i></td><td>{}</td><td>{}</td><td>{}</td><td>",
            Look(number),
            self.state,
            Link { number, name },
            self.parts
        )
    }
}

/// Prints the row of an entry that isn't on the first disk.
fn print_new<W: Write>(out: &mut W, number: usize, file: &DrawnFile) -> Result<(), CommandFault>
    ensures ok { OnOk result (Appends (W.contents out.old) (W.contents out.new)
        (new_row html_of petscii_of number (file_in file.now))) }
    ensures err { IfErr result (λ fault. fault ≡ faults.File) }
{
    let head = EntryHead {
        number,
        file,
        state: "new",
        parts: ChangedParts {
            entry: false,
            sectors: false,
            bytes: false,
        },
    };
    print_text(out, head)?;
    print_text(out, ROW_END)
}

/// Prints the row of an entry that differs from its counterpart.
fn print_row<W: Write>(out: &mut W, number: usize, file: &Versions<'_>) -> Result<(), CommandFault>
    ensures ok { OnOk result (Appends (W.contents out.old) (W.contents out.new)
        (difference_row html_of petscii_of file.now.before.now.sectors.now file.now.after.now.sectors.now number
        (file_in file.now.former.now) (file_in file.now.file.now))) }
    ensures err { IfErr result (λ fault. fault ≡ faults.File) }
{
    let parts = parts_of(file);
    let head = EntryHead {
        number,
        file: file.file,
        state: "changed",
        parts,
    };
    print_text(out, head)?;
    print_records(out, file)?;
    print_text(out, ROW_END)
}

/// Prints the row of an entry that is on both disks, if it or one of its sectors differs.
fn print_changed<W: Write>(
    out: &mut W,
    number: usize,
    file: &Versions<'_>,
) -> Result<(), CommandFault>
    ensures ok { OnOk result (Appends (W.contents out.old) (W.contents out.new)
        (changed_row html_of petscii_of file.now.before.now.sectors.now file.now.after.now.sectors.now number
        (file_in file.now.former.now) (file_in file.now.file.now))) }
    ensures err { IfErr result (λ fault. fault ≡ faults.File) }
{
    if is_changed(file) {
        print_row(out, number, file)
    } else {
        Ok(())
    }
}

/// Prints the row of an entry of the second disk.
fn print_entry<W: Write>(
    out: &mut W,
    before: &Compared<'_>,
    after: &Compared<'_>,
    number: usize,
    file: &DrawnFile,
) -> Result<(), CommandFault>
    requires { number ≤ length after.now.drawing.files.items }
    ensures ok { OnOk result (Appends (W.contents out.old) (W.contents out.new)
        (entry_row html_of petscii_of (disk_in before.now) (disk_in after.now) number (file_in file.now))) }
    ensures err { IfErr result (λ fault. fault ≡ faults.File) }
{
    let others = before.drawing.files.as_slice();
    match counterpart(others, after.drawing.files.as_slice(), number, file) {
        None => print_new(out, number, file),
        Some(former) => print_changed(
            out,
            number,
            &Versions {
                before,
                after,
                former,
                file,
            },
        ),
    }
}

/// The row of an entry that is gone.
#[derive(Clone, Copy)]
struct GoneRow<'a>(&'a [u8]);

impl Display for GoneRow<'_> {
    ghost output = { λ row. Some (gone_row html_of petscii_of row.0.now) };

    fn fmt<W: fmt::Write>(&self, f: &mut Formatter<W>) -> fmt::Result {
        writeln!(
            f,
            "<tr><td></td><td>gone</td><td>{}<bdi>{}</bdi></td><td></td><td></td></tr>",
            Html(self.0),
            Petscii(self.0)
        )
    }
}

/// Prints the row of an entry of the first disk, if it is gone.
fn print_former<W: Write>(
    out: &mut W,
    before: &Compared<'_>,
    after: &Compared<'_>,
    number: usize,
    file: &DrawnFile,
) -> Result<(), CommandFault>
    requires { number ≤ length before.now.drawing.files.items }
    ensures ok { OnOk result (Appends (W.contents out.old) (W.contents out.new)
        (former_row html_of petscii_of (disk_in before.now) (disk_in after.now) number (file_in file.now))) }
    ensures err { IfErr result (λ fault. fault ≡ faults.File) }
{
    let others = after.drawing.files.as_slice();
    match counterpart(others, before.drawing.files.as_slice(), number, file) {
        None => print_text(out, GoneRow(entry_name(&file.slot))),
        Some(_) => Ok(()),
    }
}

/// Prints the rows of the second disk's entries.
fn print_entries<W: Write>(
    out: &mut W,
    before: &Compared<'_>,
    after: &Compared<'_>,
) -> Result<(), CommandFault>
    ensures ok { OnOk result (Appends (W.contents out.old) (W.contents out.new) (numbered
        (entry_row html_of petscii_of (disk_in before.now) (disk_in after.now)) 0
        (map file_in after.now.drawing.files.items))) }
    ensures err { IfErr result (λ fault. fault ≡ faults.File) }
{
    let files = after.drawing.files.as_slice();
    for (number, file) in files.iter().enumerate() {
        print_entry(out, before, after, number, file)?;
    }
    Ok(())
}

/// Prints the rows of the first disk's entries that are gone.
fn print_formers<W: Write>(
    out: &mut W,
    before: &Compared<'_>,
    after: &Compared<'_>,
) -> Result<(), CommandFault>
    ensures ok { OnOk result (Appends (W.contents out.old) (W.contents out.new) (numbered
        (former_row html_of petscii_of (disk_in before.now) (disk_in after.now)) 0
        (map file_in before.now.drawing.files.items))) }
    ensures err { IfErr result (λ fault. fault ≡ faults.File) }
{
    let files = before.drawing.files.as_slice();
    for (number, file) in files.iter().enumerate() {
        print_former(out, before, after, number, file)?;
    }
    Ok(())
}

/// Prints the rows of the files that changed: those of the second disk in its order, then those that are gone.
pub(crate) fn print_changes<W: Write>(
    out: &mut W,
    before: &Compared<'_>,
    after: &Compared<'_>,
) -> Result<(), CommandFault>
    ensures ok { OnOk result (Appends (W.contents out.old) (W.contents out.new)
        (changes_text html_of petscii_of (disk_in before.now) (disk_in after.now))) }
    ensures err { IfErr result (λ fault. fault ≡ faults.File) }
{
    print_entries(out, before, after)?;
    print_formers(out, before, after)
}
