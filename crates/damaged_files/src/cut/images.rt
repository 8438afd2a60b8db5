//! What the files of a disk lack, by the bytes of its image.
ghost use Rattle.std.specs.Prelude.{◌≢◌, ◌↔◌, IfOk, IsErrOf, length};
ghost use Rattle.d64_image.specs.Memory.{sectors_in};
ghost use Rattle.d64_image.specs.declared.faults.ImageFault.TheVariants.{Size};
ghost use Rattle.damaged_files.specs.cut.Told.{IsShortfallOf};

use crate::cut::cuts::find_shortfall;
use crate::cut::shortfalls::Shortfall;
use d64_image::{ImageFault, MemDisk};
use std::alloc::Global;

/// Finds what the files lack, as `find_shortfall` does, of the disk whose image has these bytes. The error is `Size`
/// exactly if they aren't 174,848 bytes, and `NoMemory` if the memory for another 174,848 bytes was refused.
pub fn find_image_shortfall(alloc: Global, image: &[u8]) -> Result<Option<Shortfall>, ImageFault>
    ensures ok { IfOk result (IsShortfallOf (sectors_in image.now)) }
    ensures size { IsErrOf result Size ↔ (length image.now ≢ 174848) }
{
    let mut disk = MemDisk::load(alloc, image)?;
    Ok(find_shortfall(&mut disk))
}
