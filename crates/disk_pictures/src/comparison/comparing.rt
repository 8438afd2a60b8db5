//! Two disks compared, as an HTML page with an SVG drawing.
ghost use Rattle.std.specs.Prelude.{◌≡◌, ◌≢◌, IfErr, IfOk, OnOk, Some};
ghost use Rattle.std.specs.Io.KnownBytes.{Appends};
ghost use Rattle.disk_pictures.specs.ComparedOutcomes.{IsComparisonFault, IsComparisonPrinted, disk_in};
ghost use Rattle.disk_pictures.specs.ComparedPages.{compared_text, comparison_page};
ghost use Rattle.disk_pictures.specs.Html.{html_of};
ghost use Rattle.command_faults.specs.declared.faults.CommandFault.TheVariants as faults;

use crate::comparison::changes::print_changes;
use crate::comparison::compared::Compared;
use crate::comparison::differences::{count, print_marks};
use crate::html::Html;
use crate::pages::page::{END, TRACKS, Title, Told};
use crate::pages::picture_printing::print_drawing;
use command_faults::{CommandFault, flush, print_text};
use damaged_files::disk_name;
use disk_layout::Fault;
use std::alloc::Global;
use std::fmt::{self, Display, Formatter};
use std::io::Write;

/// The beginning of the sentence that says which images are compared.
const START: &str = "<div>\n<p><b>";

/// The meaning of the marks and the colours, and the head of the table.
const LEGEND: &str = ".</p>\n<ul>\n\
    <li class=\"differs\"><i></i>a sector that differs has a line along it</li>\n\
    <li class=\"map\"><i></i>map of free sectors</li>\n<li class=\"dir\"><i></i>directory</li>\n\
    <li class=\"free\"><i></i>free</li>\n<li class=\"lost\"><i></i>taken in the map, in no file</li>\n\
    <li class=\"open\"><i></i>in use, but free in the map</li>\n\
    <li class=\"fault\"><i></i>the fault, with a mark at the rim</li>\n</ul>\n<table>\n\
    <tr><th></th><th></th><th>name</th><th>differs in</th><th>records</th></tr>\n";

/// Which image is compared with which, and what marks and colours mean.
#[derive(Clone, Copy)]
struct ComparedText<'a> {
    before: &'a Compared<'a>,
    after: &'a Compared<'a>,
}

impl Display for ComparedText<'_> {
    ghost output = { λ told. Some (compared_text html_of (disk_in told.before.now) (disk_in told.after.now)) };

    fn fmt<W: fmt::Write>(&self, f: &mut Formatter<W>) -> fmt::Result {
        write!(
            f,
            "{TRACKS}{START}{}</b> compared with <b>{}</b>, {} ({}). Sectors that differ: {}{LEGEND}",
            Html(self.after.path.as_bytes()),
            Html(self.before.path.as_bytes()),
            Html(disk_name(&self.before.drawing.map)),
            self.before.verdict,
            count(self.before, self.after)
        )
    }
}

/// Prints the page.
fn print_comparison<W: Write>(
    out: &mut W,
    before: &Compared<'_>,
    after: &Compared<'_>,
) -> Result<(), CommandFault>
    ensures ok { OnOk result (Appends (W.contents out.old) (W.contents out.new)
        (comparison_page (disk_in before.now) (disk_in after.now))) }
    ensures err { IfErr result (λ fault. fault ≡ faults.File) }
{
    let drawing = &after.drawing;
    let verdict = after.verdict;
    print_text(out, Title(&drawing.map))?;
    print_text(out, Told { drawing, verdict })?;
    print_drawing(out, verdict.found, drawing)?;
    print_marks(out, before, after)?;
    print_text(out, ComparedText { before, after })?;
    print_changes(out, before, after)?;
    print_text(out, END)?;
    flush(out)
}

/// Prints two disks, before and after, as one HTML page: the drawing of the second one as `picture_image` has it, with a
/// mark on each sector in which they differ. It says at which paths their images are, what the first one is and how many
/// sectors differ, and has a row for each file that changed. The page has no script and loads nothing. Names of the disks
/// and the paths stand in it only as text; a path's bytes are shown as those of names (`sheet_tile`). The result is what a check of the second disk reports. A damaged disk is drawn and compared as far as its links go.
///
/// An entry's counterpart is the other disk's entry of its name that has as many entries of that name before it. A file
/// without one is `new`, or `gone`. Another file is `changed` if its entry or one of its sectors differs. If both are
/// relative files with records of one length, the numbers of the records that differ follow, from 1.
///
/// `ImageSize`; `NoMemory`; `Layout` if the directory's sectors aren't a chain on track 18, of either image: nothing was
/// printed then. `File` if the output failed, which may then have a part.
pub fn compare_images<W: Write>(
    alloc: Global,
    before_path: &str,
    before: &[u8],
    after_path: &str,
    after: &[u8],
    out: &mut W,
) -> Result<Option<Fault>, CommandFault>
    ensures ok { IfOk result (IsComparisonPrinted W.contents before_path.now before.now
        after_path.now after.now out.old out.new) }
    ensures err { IfErr result (IsComparisonFault before.now after.now) }
    ensures untouched { IfErr result (λ fault. (fault ≢ faults.File) → out.new ≡ out.old) }
{
    let first = Compared::of(alloc, before_path, before)?;
    let second = Compared::of(alloc, after_path, after)?;
    print_comparison(out, &first, &second)?;
    Ok(second.verdict.found)
}
