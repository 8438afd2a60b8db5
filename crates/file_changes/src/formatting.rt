//! An empty disk.
ghost use Rattle.std.specs.Prelude.{◌≡◌, ◌≤◌, IfErr, IfOk, length};
ghost use Rattle.d64_image.specs.Memory.{disk_image};
ghost use Rattle.d64_image.specs.declared.faults.ImageFault.TheVariants.{NoMemory};
ghost use Rattle.file_changes.specs.Formats.{Formats, IsNewDisk, empty_directory};

use d64_image::{DeviceFault, ImageFault, MemDisk, Sectors};
use disk_layout::{blank_header, directory_start, map_place};
use layout_check::repair;
use std::alloc::Global;

/// 18/1 as the only sector of a directory without an entry.
fn directory_bytes() -> [u8; 256]
    ensures { result ≡ empty_directory }
{
    let mut bytes = [0; 256];
    bytes[1] = 0xFF;
    bytes
}

/// Makes an empty disk of this name, of at most sixteen bytes, and this id, as NEW of CBM DOS 2.6 does: 18/0 has the map,
/// in which all sectors but two are free, the name, the id and `2A`; 18/1 is the directory. All other sectors stay as
/// they are, so a disk of zeros is handed in for an image of which nothing else is to be known.
///
/// At an error some of the two sectors are written.
pub fn format_disk<D: Sectors>(disk: &mut D, name: &[u8], id: [u8; 2]) -> Result<(), DeviceFault>
    requires name { length name.now ≤ 16 }
    ensures { Formats D.history disk.old disk.new name.now id result }
{
    disk.write(map_place(), &blank_header(name, id))?;
    disk.write(directory_start(), &directory_bytes())?;
    match repair(disk) {
        Ok(_) => Ok(()),
        // the disk is sound: its map alone is wrong
        Err(_) => Err(DeviceFault),
    }
}

/// An empty disk in memory, of this name, of at most sixteen bytes, and this id: `format_disk` on a disk of zeros.
/// `NoMemory` if there is none for its 174,848 bytes.
pub fn new_disk(alloc: Global, name: &[u8], id: [u8; 2]) -> Result<MemDisk, ImageFault>
    requires name { length name.now ≤ 16 }
    ensures ok { IfOk result (λ disk. IsNewDisk name.now id (disk_image disk)) }
    ensures err { IfErr result (λ fault. fault ≡ NoMemory) }
{
    let mut disk = MemDisk::zeroed(alloc)?;
    match format_disk(&mut disk, name, id) {
        Ok(()) => Ok(disk),
        // a disk in memory has no such fault
        Err(_) => Err(ImageFault::NoMemory),
    }
}
