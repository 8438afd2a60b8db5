//! Images taken into memory.
ghost use Rattle.std.specs.Prelude.{◌≡◌, IfErr, IfOk, length};
ghost use Rattle.d64_image.specs.Memory.{disk_image, sectors_in};
ghost use Rattle.command_faults.specs.Faults.{IsLoadFault};

use crate::faults::CommandFault;
use d64_image::MemDisk;
use std::alloc::Global;

/// The disk in memory that holds the image. `ImageSize` if it hasn't the size of a disk, otherwise `NoMemory` if there
/// was none for it.
pub fn load(alloc: Global, image: &[u8]) -> Result<MemDisk, CommandFault>
    ensures ok { IfOk result (λ disk. (length image.now ≡ 174848)
        × (disk_image disk ≡ sectors_in image.now)) }
    ensures err { IfErr result (IsLoadFault image.now) }
{
    Ok(MemDisk::load(alloc, image)?)
}
