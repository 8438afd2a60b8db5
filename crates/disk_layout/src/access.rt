//! Sectors read and written for the layout: a device's failure is returned as a fault of the sector.
ghost use Rattle.std.specs.Prelude.{◌≡◌};
ghost use Rattle.d64_image.specs.Calls.{ReadsSector, WritesSector};
ghost use Rattle.d64_image.specs.History.{WritesNothing};
ghost use Rattle.d64_image.specs.Images.{sector};
ghost use Rattle.disk_layout.specs.InOrder.{WritesOther};
ghost use Rattle.disk_layout.specs.declared.faults.Fault.TheVariants.{Device};

use crate::faults::Fault;
use d64_image::{Place, Sectors};

/// Reads the 256 bytes of a sector as they were last written.
///
/// The only error is `Device` at this place: the device failed there, and the buffer holds any bytes. The disk is the
/// same after each call.
pub fn read_sector<D: Sectors>(disk: &mut D, place: Place, to: &mut [u8; 256]) -> Result<(), Fault>
    ensures { ReadsSector D.history disk.old disk.new place to.new (Device place) result }
{
    disk.read(place, to).map_err(|_| Fault::Device(place))
}

/// Writes the 256 bytes of a sector.
///
/// The only error is `Device` at this place: the device failed there. Then the sector is written and stays so, or the
/// disk was as before at each moment of the call. Nothing else changes, and nothing else was ever held.
// In line, as all on the way to a device's write is: a return right after a system call is slow.
#[inline(always)]
pub fn write_sector<D: Sectors>(disk: &mut D, place: Place, from: &[u8; 256]) -> Result<(), Fault>
    ensures { WritesSector D.history disk.old disk.new place from.now (Device place) result }
{
    disk.write(place, from).map_err(|_| Fault::Device(place))
}

/// Writes a sector, as `write_sector` does, if the wanted bytes differ from those that it has. The caller passes both.
pub fn write_other<D: Sectors>(
    disk: &mut D,
    place: Place,
    had: &[u8; 256],
    wanted: &[u8; 256],
) -> Result<(), Fault>
    requires { had.now ≡ sector (D.history.image disk.old) place }
    ensures write { WritesSector D.history disk.old disk.new place wanted.now (Device place) result }
    ensures once { WritesOther D.history disk.old disk.new place }
    // a sector that is right is not written
    ensures quiet { had.now ≡ wanted.now → WritesNothing D.history disk.old disk.new }
{
    if had == wanted {
        return Ok(());
    }
    write_sector(disk, place, wanted)
}
