//! What is wrong with the layout of an image, as it is printed.
ghost use Rattle.std.specs.Prelude.{◌≡◌, ◌≢◌, IfErr, IfOk, OnOk, length};
ghost use Rattle.std.specs.Io.KnownBytes.{Appends};
ghost use Rattle.d64_image.specs.Memory.{sectors_in};
ghost use Rattle.disk_layout.specs.declared.faults.Fault.{Fault};
ghost use Rattle.disk_layout.specs.Clean.{IsVerdict};
ghost use Rattle.disk_reports.specs.Listings.{IsCheckFault};
ghost use Rattle.disk_reports.specs.Outcomes.{IsCheckedAmong, cut_line};
ghost use Rattle.disk_reports.specs.Texts.{verdict_text};
ghost use Rattle.command_faults.specs.declared.faults.CommandFault.TheVariants as faults;

use command_faults::{CommandFault, flush, load, print_line};
use d64_image::Place;
use damaged_files::{Shortfall, sound_cut};
use disk_layout::Fault;
use layout_check::verdict;
use std::alloc::Global;
use std::io::Write;

/// Prints what a check found on a line of its own.
fn print_verdict<W: Write>(out: &mut W, found: Option<Fault>) -> Result<(), CommandFault>
    ensures ok { OnOk result
        (Appends (W.contents out.old) (W.contents out.new) (verdict_text found)) }
    ensures err { IfErr result (λ fault. fault ≡ faults.File) }
{
    match found {
        None => print_line(out, "OK")?,
        Some(fault) => print_line(out, fault)?,
    }
    flush(out)
}

/// Checks the layout of the image, and prints `OK` if it is clean, otherwise a fault and its place. Returns that fault.
/// If several hold, it may be any of them. `ImageSize` if the image hasn't the size of a disk, `NoMemory` if there was
/// none for the disk, `File` if the output failed.
pub fn check_image<W: Write>(
    alloc: Global,
    image: &[u8],
    out: &mut W,
) -> Result<Option<Fault>, CommandFault>
    ensures size { IfOk result (λ _. length image.now ≡ 174848) }
    // A clean image is called so, and a fault that is returned holds.
    ensures verdict { IfOk result (IsVerdict (sectors_in image.now)) }
    // That is what was printed, and nothing else.
    ensures printed { IfOk result
        (λ found. Appends (W.contents out.old) (W.contents out.new) (verdict_text found)) }
    ensures err { IfErr result (IsCheckFault image.now) }
    // At a refusal something was printed only if the output failed.
    ensures untouched { IfErr result (λ fault. (fault ≢ faults.File) → out.new ≡ out.old) }
{
    let mut disk = load(alloc, image)?;
    let found = verdict(&mut disk);
    print_verdict(out, found)?;
    Ok(found)
}

/// Prints where a file is cut short, if one is.
fn print_cut<W: Write>(out: &mut W, cut: Option<Place>) -> Result<(), CommandFault>
    ensures ok { OnOk result (Appends (W.contents out.old) (W.contents out.new) (cut_line cut)) }
    ensures err { IfErr result (λ fault. fault ≡ faults.File) }
{
    match cut {
        Some(place) => print_line(out, Shortfall::Short(place)),
        None => Ok(()),
    }
}

/// Checks the layout of one image of several: prints what `check_image` does, and then `SHORT` and the sector where the
/// first file that is cut short ends, if one is. Returns the fault. The errors are those of `check_image`.
pub fn check_among<W: Write>(
    alloc: Global,
    image: &[u8],
    out: &mut W,
) -> Result<Option<Fault>, CommandFault>
    ensures ok { IfOk result (IsCheckedAmong W.contents image.now out.old out.new) }
    ensures err { IfErr result (IsCheckFault image.now) }
    ensures untouched { IfErr result (λ fault. (fault ≢ faults.File) → out.new ≡ out.old) }
{
    let mut disk = load(alloc, image)?;
    let fault = verdict(&mut disk);
    let cut = sound_cut(&mut disk, None);
    print_verdict(out, fault)?;
    print_cut(out, cut)?;
    Ok(fault)
}
