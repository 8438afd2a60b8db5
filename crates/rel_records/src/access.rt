//! Sectors read and written for relative files: a device's failure is returned as `Device`.
ghost use Rattle.std.specs.Prelude.{[], ◌∷◌, ◌≡◌};
ghost use Rattle.d64_image.specs.Images.{sector};
ghost use Rattle.rel_records.specs.Calls.{ReadsAtMost};
ghost use Rattle.rel_records.specs.Puts.{PutsEach};

use crate::faults::RelFault;
use d64_image::{Place, Sectors};
use disk_layout::{read_sector, write_sector};

/// Reads a sector as it was last written.
pub(crate) fn read<D: Sectors>(
    disk: &mut D,
    place: Place,
    to: &mut [u8; 256],
) -> Result<(), RelFault>
    ensures { ReadsAtMost D.history disk.old disk.new 1 result
        (λ done. to.new ≡ sector (D.history.image disk.old) place) }
{
    match read_sector(disk, place, to) {
        Ok(()) => Ok(()),
        Err(_) => Err(RelFault::Device),
    }
}

/// Writes a sector; at an error it is written and stays so, or the disk was as before at each moment of the call.
// In line, as all on the way to a device's write is: a return right after a system call is slow.
#[inline(always)]
pub(crate) fn write<D: Sectors>(
    disk: &mut D,
    place: Place,
    from: &[u8; 256],
) -> Result<(), RelFault>
    ensures { PutsEach D.history disk.old disk.new ((place, from.now) ∷ []) 0 result }
{
    match write_sector(disk, place, from) {
        Ok(()) => Ok(()),
        Err(_) => Err(RelFault::Device),
    }
}
