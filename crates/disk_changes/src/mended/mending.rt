//! The repair of a disk, and what is printed of it.
ghost use Rattle.std.specs.Prelude.{◌≡◌, ◌++◌, IfErr, IfOk, OnErr, OnOk, codes, flat_map};
ghost use Rattle.std.specs.Io.KnownBytes.{Appends};
ghost use Rattle.d64_image.specs.History.{WritesNothing};
ghost use Rattle.d64_image.specs.Images.{sector};
ghost use Rattle.d64_image.specs.Memory.{disk_image, sectors_in};
ghost use Rattle.d64_image.specs.Places.{places};
ghost use Rattle.disk_layout.specs.Directory.{map_place};
ghost use Rattle.disk_layout.specs.Texts.{place_text};
ghost use Rattle.command_faults.specs.Outputs.{HandsPart};
ghost use Rattle.disk_changes.specs.mended.Repairs.{IsRepairDone, IsRepairFault, IsRepairPart, MendsAs, TellsKeep, changed_text, freed_at};
ghost use Rattle.disk_changes.specs.mended.Repairs.{is_freed as freed, mended_at, mended_text, repair_fault};
ghost use Rattle.disk_changes.specs.mended.Repairs.{kept_text};
ghost use Rattle.command_faults.specs.declared.faults.CommandFault.TheVariants as faults;

use crate::mended::kinds::judge_kind;
use arrayvec::ArrayVec;
use command_faults::{CommandFault, flush, load, put};
use d64_image::{MemDisk, Place, SECTORS, Sectors};
use disk_layout::{BamView, Fault, map_place};
use layout_check::{repair, repair_keeping};
use std::alloc::Global;
use std::io::Write;

/// More bytes than the longest line has: `MENDED 35/16` and its end have 13.
const LINE: usize = 16;

/// The maps of a disk before and after its repair: 18/0 as it was, and as it is.
#[derive(Clone, Copy)]
struct Maps {
    had: [u8; 256],
    has: [u8; 256],
}

/// The maps of the two disks. `Device` if the second couldn't be read.
fn maps_of<D: Sectors>(before: &MemDisk, after: &mut D) -> Result<Maps, CommandFault>
    ensures ok { IfOk result (λ maps. (maps.had ≡ sector (disk_image before.now) map_place)
        × (maps.has ≡ sector (D.history.image after.old) map_place)) }
    ensures quiet { WritesNothing D.history after.old after.new }
    ensures told { TellsKeep D.history after.old after.new result }
{
    let mut has = [0; 256];
    if after.read(map_place(), &mut has).is_err() {
        return Err(CommandFault::Device);
    }
    let had = *before.sector(map_place());
    Ok(Maps { had, has })
}

/// Whether the sector was taken and is free now.
fn is_freed(maps: &Maps, place: Place) -> bool
    ensures { result ≡ freed maps.now.had maps.now.has place }
{
    !BamView::new(&maps.had).is_free(place) && BamView::new(&maps.has).is_free(place)
}

/// The line that has this word and the sector's place. `File` if it has no room, as such a line has.
fn line_about(word: &str, place: Place) -> Result<ArrayVec<u8, LINE>, CommandFault>
    ensures ok { IfOk result (λ line. line.items ≡ word.now ++ codes " " ++ place_text place ++ codes "\n") }
    ensures err { IfErr result (λ fault. fault ≡ faults.File) }
{
    let mut line = ArrayVec::new();
    if writeln!(line, "{word} {}/{}", place.track(), place.sector()).is_err() {
        return Err(CommandFault::File);
    }
    Ok(line)
}

/// Prints this word and the sector's place on a line.
fn print_about<W: Write>(out: &mut W, word: &str, place: Place) -> Result<(), CommandFault>
    ensures ok { OnOk result (Appends (W.contents out.old) (W.contents out.new)
        (word.now ++ codes " " ++ place_text place ++ codes "\n")) }
    ensures part { OnErr result (HandsPart (W.contents out.old) (W.contents out.new)
        (word.now ++ codes " " ++ place_text place ++ codes "\n")) }
    ensures err { IfErr result (λ fault. fault ≡ faults.File) }
{
    let line = line_about(word, place)?;
    put(out, line.as_slice())
}

/// Prints the line of a sector that became free, if it did.
fn print_freed<W: Write>(out: &mut W, maps: &Maps, place: Place) -> Result<(), CommandFault>
    ensures ok { OnOk result (Appends (W.contents out.old) (W.contents out.new)
        (freed_at maps.now.had maps.now.has place)) }
    ensures part { OnErr result (HandsPart (W.contents out.old) (W.contents out.new)
        (freed_at maps.now.had maps.now.has place)) }
    ensures err { IfErr result (λ fault. fault ≡ faults.File) }
{
    if !is_freed(maps, place) {
        return Ok(());
    }
    print_about(out, "FREED", place)
}

/// Prints the line of a sector, if the two disks differ in it, or if it became free.
fn print_place<D: Sectors, W: Write>(
    out: &mut W,
    before: &MemDisk,
    after: &mut D,
    maps: &Maps,
    place: Place,
) -> Result<(), CommandFault>
    ensures ok { OnOk result (Appends (W.contents out.old) (W.contents out.new)
        (mended_at (disk_image before.now) (D.history.image after.old) maps.now.had maps.now.has place)) }
    ensures part { OnErr result (HandsPart (W.contents out.old) (W.contents out.new)
        (mended_at (disk_image before.now) (D.history.image after.old) maps.now.had maps.now.has place)) }
    ensures quiet { WritesNothing D.history after.old after.new }
    ensures told { TellsKeep D.history after.old after.new result }
{
    let mut new = [0; 256];
    if after.read(place, &mut new).is_err() {
        return Err(CommandFault::Device);
    }
    if *before.sector(place) == new {
        return print_freed(out, maps, place);
    }
    print_about(out, "MENDED", place)
}

/// Prints a line for each sector that the two disks have otherwise or that became free, by track and sector.
fn print_places<D: Sectors, W: Write>(
    out: &mut W,
    before: &MemDisk,
    after: &mut D,
    maps: &Maps,
) -> Result<(), CommandFault>
    ensures ok { OnOk result (Appends (W.contents out.old) (W.contents out.new) (flat_map
        (mended_at (disk_image before.now) (D.history.image after.old) maps.now.had maps.now.has) places)) }
    ensures part { OnErr result (HandsPart (W.contents out.old) (W.contents out.new) (flat_map
        (mended_at (disk_image before.now) (D.history.image after.old) maps.now.had maps.now.has) places)) }
    ensures quiet { WritesNothing D.history after.old after.new }
    ensures told { TellsKeep D.history after.old after.new result }
{
    for index in 0..SECTORS {
        print_place(out, before, after, maps, Place::nth(index))?;
    }
    Ok(())
}

/// Prints how a repair ends: `OK`, or `KEPT` and how many sectors stay taken that nobody owns. `File` if it failed.
fn print_kept<W: Write>(out: &mut W, kept: u16) -> Result<(), CommandFault>
    ensures ok { OnOk result (Appends (W.contents out.old) (W.contents out.new) (kept_text kept)) }
    ensures part { OnErr result (HandsPart (W.contents out.old) (W.contents out.new) (kept_text kept)) }
    ensures err { IfErr result (λ fault. fault ≡ faults.File) }
{
    if kept == 0 {
        return put(out, b"OK\n");
    }
    let mut line: ArrayVec<u8, LINE> = ArrayVec::new();
    if writeln!(line, "KEPT {kept}").is_err() {
        return Err(CommandFault::File);
    }
    put(out, line.as_slice())
}

/// Prints a line for each sector that the two disks have otherwise or that became free by their maps.
pub(crate) fn print_changed<D: Sectors, W: Write>(
    out: &mut W,
    before: &MemDisk,
    after: &mut D,
) -> Result<(), CommandFault>
    ensures ok { OnOk result (Appends (W.contents out.old) (W.contents out.new)
        (changed_text (disk_image before.now) (D.history.image after.old))) }
    ensures part { OnErr result (HandsPart (W.contents out.old) (W.contents out.new)
        (changed_text (disk_image before.now) (D.history.image after.old))) }
    ensures quiet { WritesNothing D.history after.old after.new }
    ensures told { TellsKeep D.history after.old after.new result }
{
    let maps = maps_of(before, after)?;
    print_places(out, before, after, &maps)
}

/// Prints what was mended and what is left, and hands it over.
pub(crate) fn print_mended<D: Sectors, W: Write>(
    out: &mut W,
    before: &MemDisk,
    after: &mut D,
    kept: u16,
) -> Result<(), CommandFault>
    ensures ok { OnOk result (Appends (W.contents out.old) (W.contents out.new)
        (mended_text (disk_image before.now) (D.history.image after.old) kept)) }
    ensures part { OnErr result (HandsPart (W.contents out.old) (W.contents out.new)
        (mended_text (disk_image before.now) (D.history.image after.old) kept)) }
    ensures quiet { WritesNothing D.history after.old after.new }
    ensures told { TellsKeep D.history after.old after.new result }
{
    print_changed(out, before, after)?;
    print_kept(out, kept)?;
    flush(out)
}

/// What is reported if a repair ends with this fault.
pub(crate) fn refusal(fault: Fault) -> CommandFault
    ensures { result ≡ repair_fault fault }
{
    match fault {
        Fault::Device(_) => CommandFault::Device,
        fault => CommandFault::Layout(fault),
    }
}

/// Repairs the disk, its unowned sectors freed or left taken: how many are left.
fn mended<D: Sectors>(disk: &mut D, free: bool) -> Result<u16, Fault>
    ensures { MendsAs free D.history disk.old disk.new result }
{
    if !free {
        return repair_keeping(disk);
    }
    repair(disk)?;
    Ok(0)
}

/// Repairs the disk, and prints `MENDED t/s` for each sector that it changed, and `FREED t/s` for each that it freed, by
/// track and sector, and then `OK`; or `KEPT n` if n sectors stay taken that no file owns. Returns their number. `image`
/// is what the disk holds: its 174,848 bytes.
///
/// If `free` is false no sector becomes free: those that the map calls taken and no file owns are left. If it is true
/// these become free, and none is left. Except for what is left, a sound disk is made clean, with its files. Each sector
/// that isn't right is written once, and every image that the disk holds on the way is sound and has these files. Files
/// that are whole stay so in each of these images: no cut of power leaves one cut short.
///
/// `ImageSize`, `NoMemory`, `Geos` if 18/0 has GEOS's signature, `Format` if its format byte isn't $41, and `Layout` if
/// the disk isn't sound, for a fault that holds: then nothing was written or printed. `Device` if the device failed; what
/// was mended until then stays. `File` if the output failed: the disk is mended. Then nothing was printed, or a first part
/// of what is printed of the disk as it is mended.
pub fn repair_image<D: Sectors, W: Write>(
    alloc: Global,
    image: &[u8],
    free: bool,
    disk: &mut D,
    out: &mut W,
) -> Result<u16, CommandFault>
    requires holds { D.history.image disk.old ≡ sectors_in image.now }
    ensures ok { IfOk result
        (IsRepairDone free D.history W.contents image.now disk.old disk.new out.old out.new) }
    ensures err { IfErr result (IsRepairFault free D.history image.now disk.old disk.new out.old out.new) }
    ensures part { OnErr result
        (IsRepairPart free D.history W.contents image.now disk.old disk.new out.old out.new) }
{
    let before = load(alloc, image)?;
    judge_kind(&before)?;
    match mended(disk, free) {
        Err(fault) => Err(refusal(fault)),
        Ok(kept) => match print_mended(out, &before, disk, kept) {
            Err(fault) => Err(fault),
            Ok(()) => Ok(kept),
        },
    }
}
