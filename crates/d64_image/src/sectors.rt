//! A disk as the layers above see it: its sectors, read and written one at a time.
ghost use Rattle.d64_image.specs.Calls.{ReadsSector, WritesSector};
ghost use Rattle.d64_image.specs.Faults.{device_fault};
ghost use Rattle.d64_image.specs.History.{History};

use crate::faults::DeviceFault;
use crate::place::Place;

/// A disk of 683 sectors of 256 bytes. Its history names what it holds now and what it may have held since an earlier
/// moment. It also counts the calls that passed and failed, and says where a call failed.
///
/// An implementer who knows only the image that the device holds now gives: `moment` 0, `held` that image alone, and
/// `reads`, `writes`, `failures` and `last` 0 (the count of failures is spent from the start). `reached` holds between
/// any two devices, and `failed_at` at each place. For a device that never fails `last` is 1 and `failed_at` holds
/// nowhere, as for `MemDisk`.
pub trait Sectors {
    /// What a device of this type holds and held, and how often it failed.
    ghost history: { History Self };

    /// Reads a sector as it was last written. At an error the buffer holds any bytes. The disk stays the same.
    fn read(&mut self, place: Place, to: &mut [u8; 256]) -> Result<(), DeviceFault>
        ensures { ReadsSector history self.old self.new place to.new device_fault result };

    /// Writes a sector. At an error the disk holds the sector when the call ends, or it was as before at each moment of
    /// the call. Nothing else changes, and nothing else was ever held.
    fn write(&mut self, place: Place, from: &[u8; 256]) -> Result<(), DeviceFault>
        ensures { WritesSector history self.old self.new place from.now device_fault result };
}
