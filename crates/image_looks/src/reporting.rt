//! What is printed of the disk in an image, and then what isn't on that disk.
ghost use Rattle.std.specs.Prelude.{◌≡◌, ◌≢◌, ◌++◌, IfErr, IfOk, OnOk};
ghost use Rattle.std.specs.Io.KnownBytes.{Appends};
ghost use Rattle.command_faults.specs.declared.faults.CommandFault.TheVariants as faults;
ghost use Rattle.disk_pictures.specs.Missing.{IsMissing};
ghost use Rattle.disk_reports.specs.AllFaults.{AreListed};
ghost use Rattle.disk_reports.specs.Outcomes.{IsDescribeFault};
ghost use Rattle.image_looks.specs.WiderMaps.{maps_text};
ghost use Rattle.image_looks.specs.Reports.{IsReportEnd, IsReportFault, IsReported, on_page, on_poster, reported_end as end_of, told_as};

use crate::wider_maps::wider_maps;
use command_faults::{CommandFault, flush};
use damaged_files::disk_in;
use disk_layout::Fault;
use disk_pictures::{
    map_image, missing_lines, picture_image, poster_image, print_missing_block, print_poster_end,
};
use disk_reports::{check_among, check_image, list_faults};
use std::alloc::Global;
use std::io::Write;

/// What is printed of a disk before what isn't on it.
#[derive(Clone, Copy)]
pub(crate) enum Report {
    /// The verdict of a check: that it is clean, or the first fault.
    Verdict,
    /// The same as of one of several disks: also where its first file is cut short.
    Among,
    /// All faults.
    Faults,
    /// Its map for a terminal.
    Map,
    /// Its picture as a page.
    Picture,
    /// Its picture as a poster.
    Poster,
}

/// Prints all faults of an image that hold, and hands on what the output held back.
pub(crate) fn faults_image<W: Write>(
    alloc: Global,
    image: &[u8],
    out: &mut W,
) -> Result<Option<Fault>, CommandFault>
    ensures ok { IfOk result (AreListed W.contents image.now out.old out.new) }
    ensures err { IfErr result (IsDescribeFault image.now) }
    ensures untouched { IfErr result (λ fault. (fault ≢ faults.File) → out.new ≡ out.old) }
{
    let found = list_faults(alloc, image, out)?;
    flush(out)?;
    Ok(found)
}

/// Prints this of a disk. Returns the first fault that a check finds.
fn report_disk<W: Write>(
    alloc: Global,
    report: Report,
    disk: &[u8],
    out: &mut W,
) -> Result<Option<Fault>, CommandFault>
    ensures ok { IfOk result (IsReported W.contents report disk.now out.old out.new) }
    ensures err { IfErr result (IsReportFault report disk.now) }
    ensures untouched { IfErr result (λ fault. (fault ≢ faults.File) → out.new ≡ out.old) }
{
    match report {
        Report::Verdict => check_image(alloc, disk, out),
        Report::Among => check_among(alloc, disk, out),
        Report::Faults => faults_image(alloc, disk, out),
        Report::Map => map_image(alloc, disk, out),
        Report::Picture => picture_image(alloc, disk, out),
        Report::Poster => poster_image(alloc, disk, out),
    }
}

/// Whether it is a page.
fn is_page(report: Report) -> bool
    ensures { result ≡ on_page report }
{
    matches!(report, Report::Picture)
}

/// Whether it is a poster.
fn is_poster(report: Report) -> bool
    ensures { result ≡ on_poster report }
{
    matches!(report, Report::Poster)
}

/// Prints lines as they are.
fn print_plain<W: Write>(lines: &[u8], out: &mut W) -> Result<(), CommandFault>
    ensures ok { OnOk result (Appends (W.contents out.old) (W.contents out.new) lines.now) }
    ensures err { IfErr result (λ fault. fault ≡ faults.File) }
{
    match out.write_all(lines) {
        Ok(()) => Ok(()),
        Err(_) => Err(CommandFault::File),
    }
}

/// Prints lines as text, and then these others.
fn print_both<W: Write>(lines: &[u8], maps: &[u8], out: &mut W) -> Result<(), CommandFault>
    ensures ok { OnOk result (Appends (W.contents out.old) (W.contents out.new) (lines.now ++ maps.now)) }
    ensures err { IfErr result (λ fault. fault ≡ faults.File) }
{
    print_plain(lines, out)?;
    print_plain(maps, out)
}

/// Prints lines for a page or a poster, or as text, in which these others follow.
fn print_either<W: Write>(
    report: Report,
    lines: &[u8],
    maps: &[u8],
    out: &mut W,
) -> Result<(), CommandFault>
    ensures ok { OnOk result (Appends (W.contents out.old) (W.contents out.new) (told_as report lines.now maps.now)) }
    ensures err { IfErr result (λ fault. fault ≡ faults.File) }
{
    if is_page(report) {
        return print_missing_block(lines, out);
    }
    if is_poster(report) {
        return print_poster_end(lines, out);
    }
    print_both(lines, maps, out)
}

/// The same, and hands on what the output held back.
fn print_lines<W: Write>(
    report: Report,
    lines: &[u8],
    maps: &[u8],
    out: &mut W,
) -> Result<(), CommandFault>
    ensures ok { OnOk result (Appends (W.contents out.old) (W.contents out.new) (told_as report lines.now maps.now)) }
    ensures err { IfErr result (λ fault. fault ≡ faults.File) }
{
    print_either(report, lines, maps, out)?;
    flush(out)
}

/// How a look ends that found this fault or none, where these lines say what isn't on the disk.
pub(crate) fn reported_end(
    found: Option<Fault>,
    lines: &[u8],
) -> Result<Option<Fault>, CommandFault>
    ensures { result ≡ end_of found lines.now }
{
    match found {
        Some(fault) => Ok(Some(fault)),
        None if lines.is_empty() => Ok(None),
        None => Err(CommandFault::Trimmed),
    }
}

/// Prints this of the disk in an image, and then these lines, which say what isn't on that disk, and which systems of other drives
/// have a map of more tracks on it.
fn report_with<W: Write>(
    alloc: Global,
    report: Report,
    image: &[u8],
    lines: &[u8],
    maps: &[u8],
    out: &mut W,
) -> Result<Option<Fault>, CommandFault>
    requires missing { IsMissing image.now lines.now }
    requires maps { maps.now ≡ maps_text image.now }
    ensures { IsReportEnd W.contents report image.now out.old out.new result }
{
    let found = report_disk(alloc, report, disk_in(image), out)?;
    print_lines(report, lines, maps, out)?;
    reported_end(found, lines)
}

/// Prints this of the disk in an image of 35, 40 or 42 tracks, with error bytes or without. Then follows a line for each of its sectors that
/// a drive couldn't read, and for each file that goes on past track 35; none of an image that is a disk alone. In text there is also
/// one for each system of another drive whose map of tracks 36 to 40 stands in 18/0 of a longer image. Returns the first fault that a
/// check finds.
///
/// `Trimmed`: the check found no fault, and there are such lines. `ImageSize`, `NoMemory`, and for a drawing `Layout`: nothing was
/// printed. `File` if the output failed, which may then have a part.
pub(crate) fn report_image<W: Write>(
    alloc: Global,
    report: Report,
    image: &[u8],
    out: &mut W,
) -> Result<Option<Fault>, CommandFault>
    ensures { IsReportEnd W.contents report image.now out.old out.new result }
{
    let lines = missing_lines(alloc, image)?;
    let maps = wider_maps(alloc, image)?;
    report_with(alloc, report, image, lines.as_slice(), maps.as_slice(), out)
}
