//! A disk read as far as it is drawn.
ghost use Rattle.std.specs.Prelude.{◌≡◌, ◌≤◌, IfErr, IfOk, MatchResult, length, map};
ghost use Rattle.d64_image.specs.Images.{sector};
ghost use Rattle.d64_image.specs.Memory.{disk_image};
ghost use Rattle.disk_layout.specs.Directory.{map_place as map_at};
ghost use Rattle.disk_layout.specs.Fault.{HoldsOfDirectory, nowhere};
ghost use Rattle.disk_pictures.specs.Drawings.{AreDrawn, IsDrawn, file_in};
ghost use Rattle.disk_pictures.specs.Held.{drawn_in};
ghost use Rattle.disk_pictures.specs.Faults.{IsDrawFault, IsMemoryFault, layout_fault_of};

use crate::drawing::Drawing;
use crate::drawn_file::DrawnFile;
use crate::files::{Places, draw_file, list_of, walk};
use arrayvec::ArrayVec;
use command_faults::CommandFault;
use d64_image::MemDisk;
use disk_layout::{Fault, Slot, directory_start, map_place, read_directory};
use std::alloc::Global;

/// What is drawn of these entries, with room for the sectors of a walk.
fn draw_files(
    alloc: Global,
    disk: &MemDisk,
    slots: &[Slot],
    places: &mut Places,
) -> Result<Vec<DrawnFile>, CommandFault>
    requires { length slots.now ≤ 144 }
    ensures ok { IfOk result
        (λ files. AreDrawn (disk_image disk.now) slots.now (map file_in files.items)) }
    ensures few { IfOk result (λ files. length files.items ≤ 144) }
    ensures err { IfErr result IsMemoryFault }
{
    let mut files = Vec::new(alloc);
    for slot in slots {
        let file = draw_file(alloc, disk, slot, places)?;
        if files.push(file).is_err() {
            return Err(CommandFault::NoMemory);
        }
    }
    Ok(files)
}

/// What is drawn of the disk. `Layout` if the directory's sectors aren't a chain on track 18, or `NoMemory`.
pub(crate) fn draw(alloc: Global, disk: &mut MemDisk) -> Result<Drawing, CommandFault>
    ensures ok { IfOk result (λ drawing. IsDrawn (disk_image disk.old) (drawn_in drawing)) }
    ensures map { IfOk result (λ drawing. drawing.map ≡ sector (disk_image disk.old) map_at) }
    ensures same { disk_image disk.new ≡ disk_image disk.old }
    ensures err { IfErr result (IsDrawFault (disk_image disk.old)) }
{
    let mut slots = ArrayVec::new();
    if let Err(fault) = read_directory(disk, &mut slots) {
        return Err(CommandFault::Layout(fault));
    }
    let map = *disk.sector(map_place());
    let mut places = ArrayVec::new();
    walk(disk, Some(directory_start()), &mut places);
    let directory = list_of(alloc, places.as_slice())?;
    let files = draw_files(alloc, disk, slots.as_slice(), &mut places)?;
    Ok(Drawing::new(map, directory, files))
}

/// What the directory has wrong, if that is why nothing is drawn.
fn layout_fault(why: CommandFault) -> Option<Fault>
    ensures { result ≡ layout_fault_of why }
{
    match why {
        CommandFault::Layout(fault) => Some(fault),
        _ => None,
    }
}

/// What is drawn of the disk, or why its directory can't be read. `NoMemory`.
pub(crate) fn draw_or_fault(
    alloc: Global,
    disk: &mut MemDisk,
) -> Result<Result<Drawing, Fault>, CommandFault>
    ensures ok { IfOk result (λ drawn. MatchResult drawn
        (λ drawing. IsDrawn (disk_image disk.old) (drawn_in drawing)
        × (drawing.map ≡ sector (disk_image disk.old) map_at))
        (HoldsOfDirectory nowhere (disk_image disk.old))) }
    ensures err { IfErr result IsMemoryFault }
{
    match draw(alloc, disk) {
        Ok(drawing) => Ok(Ok(drawing)),
        Err(why) => match layout_fault(why) {
            Some(fault) => Ok(Err(fault)),
            None => Err(why),
        },
    }
}
