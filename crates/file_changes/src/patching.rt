//! A sector in which some bytes are written over.
ghost use Rattle.std.specs.Prelude.{◌≡◌, ◌≤◌, ◌+◌, length};
ghost use Rattle.d64_image.specs.Offsets.{overwritten};
ghost use Rattle.file_changes.specs.Patches.{PatchesSector};

use d64_image::{DeviceFault, Place, Sectors};

/// Writes these bytes over those of a sector from byte `at` on.
pub fn overwrite(bytes: &mut [u8; 256], at: usize, new: &[u8])
    requires { at + length new.now ≤ 256 }
    ensures { bytes.new ≡ overwritten bytes.old at new.now }
{
    bytes[at..at + new.len()].copy_from_slice(new);
}

/// Reads the sector at `place`, and writes it with these bytes over its own from byte `at` on.
///
/// At an error the sector has the new bytes or is as before; nothing else changes, and nothing else was ever held.
pub(crate) fn patch_sector<D: Sectors>(
    disk: &mut D,
    place: Place,
    at: usize,
    new: &[u8],
) -> Result<(), DeviceFault>
    requires { at + length new.now ≤ 256 }
    ensures { PatchesSector D.history disk.old disk.new place at new.now result }
{
    let mut bytes = [0; 256];
    disk.read(place, &mut bytes)?;
    overwrite(&mut bytes, at, new);
    disk.write(place, &bytes)
}
