//! An image described as a row of a table.
ghost use Rattle.std.specs.Prelude.{◌≡◌, ◌≢◌, IfErr, IfOk, OnOk};
ghost use Rattle.std.specs.Io.KnownBytes.{Appends};
ghost use Rattle.disk_reports.specs.Outcomes.{IsDescribeFault, IsDescribed};
ghost use Rattle.disk_reports.specs.Rows.{heading as heading_text, heading_as_is as as_is_text, refused_as_is, refused_row, row_as_is};
ghost use Rattle.command_faults.specs.declared.faults.CommandFault.TheVariants as faults;

use crate::rows::{Missing, print_refused_as_is, print_refused_row, print_row, print_row_as_is};
use command_faults::{CommandFault, load};
use damaged_files::{Shortfall, find_shortfall};
use disk_layout::{Fault, map_place};
use layout_check::verdict;
use std::alloc::Global;
use std::io::Write;

/// What stands before the first row: what the columns are called.
pub fn heading() -> &'static [u8]
    ensures { result.now ≡ heading_text }
{
    b"name,size,verdict,track,sector,free,disk,id,short,fewer,sha1,sha256\n"
}

/// Prints the row of the image (comma-separated values, RFC 4180): its name and size, and what a check finds, as `check` prints it.
/// Then follow the track and the sector of a fault. Then come the free blocks as the map counts them, the disk's name and id, and the
/// sector where the first file ends that is cut short, or has fewer blocks than its entry says. Last are the SHA-1 and the SHA-256 of
/// the image, in hexadecimal digits. Returns the fault.
///
/// `ImageSize`; `NoMemory`: nothing was printed then. `File` if the output failed, which may then have a part.
pub fn describe_image<W: Write>(
    alloc: Global,
    name: &[u8],
    image: &[u8],
    out: &mut W,
) -> Result<Option<Fault>, CommandFault>
    ensures ok { IfOk result (IsDescribed W.contents name.now image.now out.old out.new) }
    ensures err { IfErr result (IsDescribeFault image.now) }
    // Only if the output failed something may have been printed at a refusal.
    ensures untouched { IfErr result (λ fault. (fault ≢ faults.File) → out.new ≡ out.old) }
{
    let mut disk = load(alloc, image)?;
    let found = verdict(&mut disk);
    let lack = find_shortfall(&mut disk);
    match print_row(out, name, found, disk.sector(map_place()), lack, image) {
        Ok(()) => Ok(found),
        Err(_) => Err(CommandFault::File),
    }
}

/// Prints the row of an image that is refused for this reason: its name, the size of its file in bytes, if it is known, and
/// the reason. `File` if the output failed, which may then have a part.
pub fn describe_refusal<W: Write>(
    name: &[u8],
    size: Option<u64>,
    why: &[u8],
    out: &mut W,
) -> Result<(), CommandFault>
    ensures ok { OnOk result (Appends (W.contents out.old) (W.contents out.new) (refused_row name.now size why.now)) }
    ensures err { IfErr result (λ fault. fault ≡ faults.File) }
{
    match print_refused_row(out, name, size, why) {
        Ok(()) => Ok(()),
        Err(_) => Err(CommandFault::File),
    }
}

/// What stands before the first row of images that are described as they are: two columns more.
pub fn heading_as_is() -> &'static [u8]
    ensures { result.now ≡ as_is_text }
{
    b"name,size,verdict,track,sector,free,disk,id,short,fewer,sha1,sha256,errors,beyond\n"
}

/// Prints the row of an image that is described as it is, of whose first 35 tracks this was found: as `describe_image` does, with its
/// size and the hashes of all of it, and then how many sectors weren't read, and at how many places files go on past track 35. `map` is
/// 18/0. `File` if the output failed, which may then have a part.
pub fn describe_as_is<W: Write>(
    name: &[u8],
    image: &[u8],
    found: Option<Fault>,
    map: &[u8; 256],
    lack: Option<Shortfall>,
    missing: Missing,
    out: &mut W,
) -> Result<(), CommandFault>
    ensures ok { OnOk result (Appends (W.contents out.old) (W.contents out.new)
        (row_as_is name.now found map.now lack image.now missing.errors missing.beyond)) }
    ensures err { IfErr result (λ fault. fault ≡ faults.File) }
{
    match print_row_as_is(out, name, found, map, lack, image, missing) {
        Ok(()) => Ok(()),
        Err(_) => Err(CommandFault::File),
    }
}

/// Prints the row of an image that is refused for this reason, as `describe_refusal` does, among those that are described as they are.
pub fn refusal_as_is<W: Write>(
    name: &[u8],
    size: Option<u64>,
    why: &[u8],
    out: &mut W,
) -> Result<(), CommandFault>
    ensures ok { OnOk result (Appends (W.contents out.old) (W.contents out.new) (refused_as_is name.now size why.now)) }
    ensures err { IfErr result (λ fault. fault ≡ faults.File) }
{
    match print_refused_as_is(out, name, size, why) {
        Ok(()) => Ok(()),
        Err(_) => Err(CommandFault::File),
    }
}
