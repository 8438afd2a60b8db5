//! Two images compared, each read as if it were alone.
ghost use Rattle.std.specs.Prelude.{◌≡◌, ◌++◌, ℕ, List, IfErr, IfOk, OnOk};
ghost use Rattle.std.specs.Io.KnownBytes.{Appends};
ghost use Rattle.command_faults.specs.declared.faults.CommandFault.TheVariants as faults;
ghost use Rattle.damaged_files.specs.reached.Sizes.{disk_of};
ghost use Rattle.disk_pictures.specs.ComparedOutcomes.{IsComparisonFault};
ghost use Rattle.disk_pictures.specs.Missing.{IsMissing, missing_block};
ghost use Rattle.disk_pictures.specs.Outcomes.{IsPictureFault};
ghost use Rattle.image_looks.specs.Comparisons.{AreBothMissing, IsComparingRun};
ghost use Rattle.image_looks.specs.LookRuns.{IsComparedOver};
ghost use Rattle.line_text.specs.Named.{named};
ghost use Rattle.opened_files.specs.Rights.{MayReadImage};

use crate::reporting::reported_end;
use command_faults::{CommandFault, flush};
use damaged_files::disk_in;
use disk_layout::Fault;
use disk_pictures::{compare_images, missing_lines, print_missing_block};
use image_file::{HostFiles, Locks, ShownPath};
use line_text::print_named;
use opened_files::{Extent, image_as};
use std::alloc::Global;
use std::fs::OpenFile;
use std::io::{Read, Write};

/// Adds the lines of `missing_lines` of the image at a path, each after the path, a colon and a space. `ImageSize`, `NoMemory`.
fn add_missing(
    alloc: Global,
    lines: &mut Vec<u8>,
    path: &str,
    image: &[u8],
) -> Result<(), CommandFault>
    ensures ok { OnOk result ((name : List ℕ) × (missing : List ℕ) × IsMissing image.now missing
        × (lines.new.items ≡ lines.old.items ++ named name missing)) }
    ensures err { IfErr result (IsPictureFault (disk_of image.now)) }
{
    let missing = missing_lines(alloc, image)?;
    let Ok(name) = format!(in alloc; "{}", ShownPath(path)) else {
        return Err(CommandFault::NoMemory);
    };
    if print_named(lines, name.as_bytes(), missing.as_slice()).is_err() {
        return Err(CommandFault::NoMemory);
    }
    Ok(())
}

/// These lines of both images.
fn both_missing(
    alloc: Global,
    before_path: &str,
    before: &[u8],
    after_path: &str,
    after: &[u8],
) -> Result<Vec<u8>, CommandFault>
    ensures ok { IfOk result (λ lines. AreBothMissing before.now after.now lines.items) }
    ensures err { IfErr result (IsComparisonFault (disk_of before.now) (disk_of after.now)) }
{
    let mut lines = Vec::new(alloc);
    add_missing(alloc, &mut lines, before_path, before)?;
    add_missing(alloc, &mut lines, after_path, after)?;
    Ok(lines)
}

/// Prints these lines below a drawing, and hands on what the output held back.
fn print_block<W: Write>(lines: &[u8], out: &mut W) -> Result<(), CommandFault>
    ensures ok { OnOk result (Appends (W.contents out.old) (W.contents out.new) (missing_block lines.now)) }
    ensures err { IfErr result (λ fault. fault ≡ faults.File) }
{
    print_missing_block(lines, out)?;
    flush(out)
}

/// Draws the comparison of two images, and prints these lines below it.
fn compare_with<W: Write>(
    alloc: Global,
    before_path: &str,
    before: &[u8],
    after_path: &str,
    after: &[u8],
    lines: &[u8],
    out: &mut W,
) -> Result<Option<Fault>, CommandFault>
    requires { AreBothMissing before.now after.now lines.now }
    ensures { IsComparingRun W.contents before_path.now before.now after_path.now after.now out.old out.new result }
{
    let (first, second) = (disk_in(before), disk_in(after));
    let found = compare_images(alloc, before_path, first, after_path, second, out)?;
    print_block(lines, out)?;
    reported_end(found, lines)
}

/// Draws the disk in the second of two images, each at its path, with what differs from the first one, and returns the fault that a check
/// of the second one reports. Below the drawing stand the lines of `missing_lines` of both images, each after the image's path.
///
/// `Trimmed`: the check found no fault, and there are such lines. `ImageSize`; `Layout` if the directory's sectors aren't a chain on track
/// 18, of either image; `NoMemory`: nothing was printed then. `File` if the output failed.
// Out of line: its frame is large, and a frame touches each page of it.
#[inline(never)]
pub fn comparing_run<W: Write>(
    alloc: Global,
    before_path: &str,
    before: &[u8],
    after_path: &str,
    after: &[u8],
    out: &mut W,
) -> Result<Option<Fault>, CommandFault>
    ensures { IsComparingRun W.contents before_path.now before.now after_path.now after.now out.old out.new result }
{
    let lines = both_missing(alloc, before_path, before, after_path, after)?;
    compare_with(
        alloc,
        before_path,
        before,
        after_path,
        after,
        lines.as_slice(),
        out,
    )
}

/// Compares the images at two paths.
pub fn do_comparing<F, R, W>(
    rt: &R,
    before: &str,
    after: &str,
    out: &mut W,
) -> Result<Option<Fault>, CommandFault>
where
    F: Read + Locks + OpenFile + Drop,
    R: HostFiles<File = F> + Input + AllocGlobal,
    W: Write,
    requires before { MayReadImage R.rights rt.now before.now }
    requires after { MayReadImage R.rights rt.now after.now }
    ensures { IsComparedOver R.rights R.stands W.contents rt.now before.now after.now out.old out.new result }
{
    let first = image_as(rt, Extent::Whole, before)?;
    let second = image_as(rt, Extent::Whole, after)?;
    comparing_run(
        rt.alloc(),
        before,
        first.as_slice(),
        after,
        second.as_slice(),
        out,
    )
}
