//! The names of an image that are near to one that was asked for.
ghost use Rattle.std.specs.Prelude.{◌≡◌, ◌≢◌, IfErr, OnOk, flat_map, length, take};
ghost use Rattle.std.specs.Io.KnownBytes.{Appends};
ghost use Rattle.disk_reports.specs.NearNames.{AreNearPrinted, near_name, shown_type};
ghost use Rattle.disk_reports.specs.Outcomes.{IsDescribeFault};
ghost use Rattle.command_faults.specs.declared.faults.CommandFault.TheVariants as faults;

use crate::lines::print_name;
use arrayvec::ArrayVec;
use command_faults::{CommandFault, load};
use damaged_files::{near_entries, read_so_far, type_name};
use disk_layout::Slot;
use std::alloc::Global;
use std::io::{self, Write};

/// How many names are printed at most.
const MOST_NAMES: usize = 3;

/// Writes a type as a directory shows it.
fn print_type<W: Write>(out: &mut W, type_byte: u8) -> io::Result<()>
    ensures { OnOk result (Appends (W.contents out.old) (W.contents out.new) (shown_type type_byte)) }
{
    let mark = if type_byte < 128 { "*" } else { "" };
    write!(out, "{mark}{}", type_name(type_byte % 16))
}

/// Writes a space, and the name and the type of an entry.
fn print_near<W: Write>(out: &mut W, slot: &Slot) -> io::Result<()>
    ensures { OnOk result (Appends (W.contents out.old) (W.contents out.new) (near_name slot.now)) }
{
    print_name(out, slot)?;
    out.write_all(b" ")?;
    print_type(out, slot.bytes[2])
}

/// Writes the names and the types of entries.
fn print_all_near<W: Write>(out: &mut W, slots: &[Slot]) -> io::Result<()>
    ensures { OnOk result (Appends (W.contents out.old) (W.contents out.new) (flat_map near_name slots.now)) }
{
    for slot in slots {
        print_near(out, slot)?;
    }
    Ok(())
}

/// The first three of these, or all.
fn first_three(slots: &[Slot]) -> &[Slot]
    ensures { result.now ≡ take 3 slots.now }
{
    &slots[..slots.len().min(MOST_NAMES)]
}

/// Prints the first three names of an image's directory that are near to this one. After a space each stands between
/// quotation marks, as it can be typed, with its type: ` "LETTER 02" *PRG`. A name is near if it differs at most in the
/// case of letters, in shifted spaces, and in spaces at its end. The entry may have any type. Prints nothing if no name
/// is near. A damaged directory is read as far as it goes.
///
/// `ImageSize`; `NoMemory`: nothing was printed then. `File` if the output failed, which may then have a part.
pub fn print_near_names<W: Write>(
    alloc: Global,
    image: &[u8],
    name: &[u8],
    out: &mut W,
) -> Result<(), CommandFault>
    ensures ok { OnOk result (AreNearPrinted W.contents image.now name.now out.old out.new) }
    ensures err { IfErr result (IsDescribeFault image.now) }
    // Only if the output failed something may have been printed at a refusal.
    ensures untouched { IfErr result (λ fault. (fault ≢ faults.File) → out.new ≡ out.old) }
{
    let disk = load(alloc, image)?;
    let (mut directory, mut entries) = (ArrayVec::new(), ArrayVec::new());
    let _ = read_so_far(&disk, &mut directory, &mut entries);
    let mut near = ArrayVec::new();
    near_entries(entries.as_slice(), name, &mut near);
    match print_all_near(out, first_three(near.as_slice())) {
        Ok(()) => Ok(()),
        Err(_) => Err(CommandFault::File),
    }
}
