//! The directory of an image, as it is printed.
ghost use Rattle.std.specs.Prelude.{◌≡◌, ◌≢◌, IfErr, IfOk, OnOk, flat_map};
ghost use Rattle.std.specs.Io.KnownBytes.{Appends};
ghost use Rattle.disk_reports.specs.Listings.{IsListFault, IsListed};
ghost use Rattle.disk_reports.specs.Texts.{entry_line, listing};
ghost use Rattle.command_faults.specs.declared.faults.CommandFault.TheVariants as faults;

use crate::texts::{DiskText, EntryText, FreeText, NameForm};
use arrayvec::ArrayVec;
use command_faults::{CommandFault, flush, load, print_line};
use disk_layout::{BamView, Slot, map_place, read_directory};
use std::alloc::Global;
use std::io::Write;

/// Prints a line for each of these entries.
fn print_entries<W: Write>(out: &mut W, form: NameForm, slots: &[Slot]) -> Result<(), CommandFault>
    ensures ok { OnOk result
        (Appends (W.contents out.old) (W.contents out.new) (flat_map (entry_line form) slots.now)) }
    ensures err { IfErr result (λ fault. fault ≡ faults.File) }
{
    for slot in slots {
        print_line(out, EntryText { form, slot })?;
    }
    Ok(())
}

/// Prints the disk's name, id and version, a line for each entry, and the free blocks as the map
/// counts them.
fn print_directory<W: Write>(
    out: &mut W,
    form: NameForm,
    map: &BamView<'_>,
    slots: &[Slot],
) -> Result<(), CommandFault>
    ensures ok { OnOk result
        (Appends (W.contents out.old) (W.contents out.new) (listing form map.now.bytes.now slots.now)) }
    ensures err { IfErr result (λ fault. fault ≡ faults.File) }
{
    print_line(out, DiskText { form, map: *map })?;
    print_entries(out, form, slots)?;
    print_line(out, FreeText(map.blocks_free()))?;
    flush(out)
}

/// Prints the directory of the image, with its names in this form. It is read and checked whole before anything is
/// printed.
///
/// `ImageSize` if the image hasn't the size of a disk; `Layout` if the directory's sectors aren't a chain on track 18
/// outside 18/0; `NoMemory` if there was none for the disk. `File` if the output failed, which may then have a part.
pub fn list_image<W: Write>(
    alloc: Global,
    image: &[u8],
    form: NameForm,
    out: &mut W,
) -> Result<(), CommandFault>
    // What is listed has a directory, whose listing was printed; and what is reported holds.
    ensures ok { OnOk result (IsListed W.contents form image.now out.old out.new) }
    ensures err { IfErr result (IsListFault image.now) }
    // At a refusal something was printed only if the output failed.
    ensures untouched { IfErr result (λ fault. (fault ≢ faults.File) → out.new ≡ out.old) }
{
    let mut disk = load(alloc, image)?;
    let mut slots = ArrayVec::new();
    if let Err(fault) = read_directory(&mut disk, &mut slots) {
        return Err(CommandFault::Layout(fault));
    }
    let map = BamView::new(disk.sector(map_place()));
    print_directory(out, form, &map, slots.as_slice())
}
