//! The disk of an image with its side sectors built anew, and then repaired.
ghost use Rattle.std.specs.Prelude.{◌≡◌, ◌++◌, IfErr, IfOk, Ok, Some};
ghost use Rattle.disk_changes.specs.Rebuilds.{
  IsBuilt,
  IsBuiltAnew,
  IsNamedAndBuilt,
  IsRebuildRefusal,
  IsRebuilt,
  IsUnbuilt,
};
ghost use Rattle.command_faults.specs.declared.faults.CommandFault.TheVariants.{NoMemory};
ghost use Rattle.disk_changes.specs.declared.changes.Changed as declared;

use crate::changes::Changed;
use crate::mended::mending::print_changed;
use crate::mended::rebuilding::rebuild_image;
use crate::outcomes::in_memory;
use crate::repairing::repaired;
use command_faults::{CommandFault, load};
use d64_image::MemDisk;
use damaged_files::{Loss, name_sides};
use std::alloc::Global;

/// The disk of an image with its side sectors built anew, and a line for each that changed, which goes to `text`.
fn built(
    alloc: Global,
    image: &[u8],
    cut: Loss,
    text: &mut Vec<u8>,
) -> Result<MemDisk, CommandFault>
    ensures ok { IfOk result (IsBuilt image.now text.old.items text.new.items) }
    ensures err { IfErr result (IsUnbuilt image.now) }
{
    let mut disk = load(alloc, image)?;
    match rebuild_image(alloc, image, cut, &mut disk, text) {
        Ok(()) => Ok(disk),
        Err(fault) => Err(in_memory(fault)),
    }
}

/// What comes of the second of two changes, with the text of the first before its own.
fn after(mut text: Vec<u8>, then: Changed) -> Result<Changed, CommandFault>
    ensures ok { IfOk result (λ made. (made.disk ≡ then.disk) × (made.left ≡ then.left)
        × (made.text.items ≡ text.items ++ then.text.items)) }
    ensures err { IfErr result (λ why. why ≡ NoMemory) }
{
    match text.extend_from_slice(then.text.as_slice()) {
        Ok(()) => Ok(Changed {
            disk: then.disk,
            text,
            left: then.left,
        }),
        Err(_) => Err(CommandFault::NoMemory),
    }
}

/// The image with its side sectors built anew and its disk repaired, and a line for each sector that either mended. The
/// places of first side sectors are those that the entries name.
fn built_anew(alloc: Global, image: &[u8], free: bool, cut: Loss) -> Result<Changed, CommandFault>
    ensures ok { IfOk result (IsBuiltAnew image.now free cut) }
    ensures err { IfErr result (IsRebuildRefusal image.now free cut) }
{
    let mut text = Vec::new(alloc);
    let disk = built(alloc, image, cut, &mut text)?;
    let then = repaired(alloc, disk.bytes(), free, cut)?;
    after(text, then)
}

/// The same, once entries that name no side sector have a place for one. None if there is no such entry.
fn named_and_built(
    alloc: Global,
    image: &[u8],
    free: bool,
    cut: Loss,
) -> Result<Option<Changed>, CommandFault>
    ensures { (made : declared.Changed) → result ≡ Ok (Some made) → IsNamedAndBuilt image.now free cut made }
{
    let mut before = load(alloc, image)?;
    let mut named = load(alloc, image)?;
    if !name_sides(&mut before, &mut named) {
        return Ok(None);
    }
    let mut text = Vec::new(alloc);
    print_changed(&mut text, &before, &mut named)?;
    let then = built_anew(alloc, named.bytes(), free, cut)?;
    let made = after(text, then)?;
    Ok(Some(made))
}

/// The image with its side sectors built anew and its disk repaired, and a line for each sector that was mended. An entry
/// that names no side sector gets a place for one first.
pub(crate) fn rebuilt(
    alloc: Global,
    image: &[u8],
    free: bool,
    cut: Loss,
) -> Result<Changed, CommandFault>
    ensures ok { IfOk result (IsRebuilt image.now free cut) }
    ensures err { IfErr result (IsRebuildRefusal image.now free cut) }
{
    match named_and_built(alloc, image, free, cut) {
        Ok(Some(made)) => Ok(made),
        _ => built_anew(alloc, image, free, cut),
    }
}
