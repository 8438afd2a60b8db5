//! All faults of an image, printed.
ghost use Rattle.std.specs.Prelude.{◌≡◌, ◌≢◌, ◌⊎◌, ◌≤◌, ◌∷◌, IfErr, IfOk, OnOk, Some, codes, length};
ghost use Rattle.std.specs.Io.KnownBytes.{Appends};
ghost use Rattle.d64_image.specs.Memory.{disk_image};
ghost use Rattle.disk_reports.specs.AllFaults.{AreListed, ArePrinted, IsListed, shortfall_line};
ghost use Rattle.disk_reports.specs.Outcomes.{IsDescribeFault};
ghost use Rattle.command_faults.specs.declared.faults.CommandFault.TheVariants as faults;

use crate::gathering::find_others;
use crate::lines::print_lines;
use crate::links::{Links, follow_all};
use command_faults::{CommandFault, load, print_line};
use d64_image::MemDisk;
use damaged_files::{Shortfall, find_shortfall};
use disk_layout::Fault;
use layout_check::verdict;
use std::alloc::Global;
use std::io::{self, Write};

/// Writes the lines of the first fault and of the others.
fn print_all<W: Write>(out: &mut W, links: &Links, first: Fault, others: &[Fault]) -> io::Result<()>
    requires { length links.now.trails.items ≤ 144 }
    ensures { OnOk result (ArePrinted links.now (first ∷ others.now) (W.contents out.old) (W.contents out.new)) }
{
    print_lines(out, links, &[first])?;
    print_lines(out, links, others)
}

/// Prints that there is no fault.
fn print_none<W: Write>(out: &mut W) -> Result<(), CommandFault>
    ensures ok { OnOk result (Appends (W.contents out.old) (W.contents out.new) (codes "OK\n")) }
    ensures err { IfErr result (λ fault. fault ≡ faults.File) }
{
    if out.write_all(b"OK\n").is_err() {
        return Err(CommandFault::File);
    }
    Ok(())
}

/// Prints the first fault of a disk, and all others that hold. `NoMemory` or `File`.
fn print_faults<W: Write>(
    alloc: Global,
    disk: &mut MemDisk,
    first: Fault,
    out: &mut W,
) -> Result<(), CommandFault>
    ensures ok { OnOk result (IsListed (disk_image disk.old) (Some first) (W.contents out.old) (W.contents out.new)) }
    ensures err { IfErr result (λ fault. (fault ≡ faults.File) ⊎ ((fault ≡ faults.NoMemory) × (out.new ≡ out.old))) }
{
    let links = follow_all(alloc, disk)?;
    let others = find_others(alloc, &links, first)?;
    match print_all(out, &links, first, others.as_slice()) {
        Ok(()) => Ok(()),
        Err(_) => Err(CommandFault::File),
    }
}

/// Prints what a check of a disk finds, and all other faults that hold. `NoMemory` or `File`.
fn print_found<W: Write>(
    alloc: Global,
    disk: &mut MemDisk,
    found: Option<Fault>,
    out: &mut W,
) -> Result<(), CommandFault>
    ensures ok { OnOk result (IsListed (disk_image disk.old) found (W.contents out.old) (W.contents out.new)) }
    ensures err { IfErr result (λ fault. (fault ≡ faults.File) ⊎ ((fault ≡ faults.NoMemory) × (out.new ≡ out.old))) }
{
    match found {
        Some(first) => print_faults(alloc, disk, first, out),
        None => print_none(out),
    }
}

/// Prints what a file lacks, if one lacks something.
fn print_shortfall<W: Write>(out: &mut W, lack: Option<Shortfall>) -> Result<(), CommandFault>
    ensures ok { OnOk result (Appends (W.contents out.old) (W.contents out.new) (shortfall_line lack)) }
    ensures err { IfErr result (λ fault. fault ≡ faults.File) }
{
    match lack {
        Some(lack) => print_line(out, lack),
        None => Ok(()),
    }
}

/// Prints every fault of an image that holds, a line each: first the one that a check finds, and then all others in the
/// order of the disk, by track and sector. After each stand the names of the files that it concerns, between quotation
/// marks and as they can be typed: `OWNEDTWICE 6/17 "LETTER 02" "LETTER 04"`. Prints `OK` if the image is clean. Then
/// follows `SHORT` and the sector where the first file that is cut short ends, if one is; otherwise `FEWER` and where the
/// first one ends that has fewer blocks than its entry says. Returns the first fault.
///
/// Each entry is followed for itself, and a damaged directory is read as far as it goes. `MapWrong` is listed only if the
/// disk has no other fault that a survey finds: only then it is known what the map has wrong.
///
/// `ImageSize`; `NoMemory`: nothing was printed then. `File` if the output failed, which may then have a part.
pub fn list_faults<W: Write>(
    alloc: Global,
    image: &[u8],
    out: &mut W,
) -> Result<Option<Fault>, CommandFault>
    ensures ok { IfOk result (AreListed W.contents image.now out.old out.new) }
    ensures err { IfErr result (IsDescribeFault image.now) }
    // Only if the output failed something may have been printed at a refusal.
    ensures untouched { IfErr result (λ fault. (fault ≢ faults.File) → out.new ≡ out.old) }
{
    let mut disk = load(alloc, image)?;
    let found = verdict(&mut disk);
    let lack = find_shortfall(&mut disk);
    print_found(alloc, &mut disk, found, out)?;
    print_shortfall(out, lack)?;
    Ok(found)
}
