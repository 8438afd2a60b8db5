//! Finds a data block of a file, by reading one side sector.
ghost use Rattle.std.specs.Prelude.{◌≡◌, ◌<◌, Some, slice_get};
ghost use Rattle.rel_records.specs.Calls.{ReadsAtMost};
ghost use Rattle.rel_records.specs.File.{IsOf, OfItsFile, blocks_of};

use crate::access::read;
use crate::faults::RelFault;
use crate::rel_file::RelFile;
use d64_image::{Place, Sectors};
use disk_layout::{POINTERS, POINTERS_AT};

/// The data block of this number, from 0, as its side sector names it.
pub(crate) fn block_at<D: Sectors>(
    disk: &mut D,
    file: &RelFile,
    block: usize,
) -> Result<Place, RelFault>
    requires of { IsOf (D.history.image disk.old) file.now }
    requires there { block < blocks_of file.now }
    ensures { ReadsAtMost D.history disk.old disk.new 1 result (λ p.
        OfItsFile (D.history.image disk.old) file.now (λ l n f. slice_get f.blocks block ≡ Some p)) }
{
    let side = file.sides[block / POINTERS];
    let mut sector = [0; 256];
    read(disk, side, &mut sector)?;
    let pointer = POINTERS_AT + 2 * (block % POINTERS);
    Ok(Place::known(sector[pointer], sector[pointer + 1]))
}
