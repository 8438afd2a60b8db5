//! What kind of disk an image is, by its 18/0: whether a repair understands it.
ghost use Rattle.std.specs.Prelude.{◌≡◌, ◌↔◌, IfErr, IsTrue, OnOk};
ghost use Rattle.d64_image.specs.Images.{sector};
ghost use Rattle.d64_image.specs.Memory.{disk_image};
ghost use Rattle.disk_layout.specs.Directory.{map_place};
ghost use Rattle.disk_changes.specs.mended.Kinds.{HasFormatByte, HasGeosSign, IsGeosDisk, IsKindFault, IsPlainDisk};

use command_faults::CommandFault;
use d64_image::MemDisk;
use damaged_files::has_geos_entry;
use disk_layout::map_place;

/// GEOS's signature, from byte 173 of 18/0 on, up to the version's number.
const GEOS_SIGN: &[u8; 13] = b"GEOS format V";

/// Whether 18/0 has GEOS's signature.
pub fn has_geos_sign(bytes: &[u8; 256]) -> bool
    ensures { IsTrue result ↔ HasGeosSign bytes.now }
{
    &bytes[173..186] == &GEOS_SIGN[..]
}

/// Checks by 18/0 whether the disk is one of the 1541, and none of GEOS: `Geos` or `Format` if it isn't.
pub(crate) fn judge_kind(disk: &MemDisk) -> Result<(), CommandFault>
    ensures plain { OnOk result (IsPlainDisk (sector (disk_image disk.now) map_place)) }
    ensures other { IfErr result (IsKindFault (sector (disk_image disk.now) map_place)) }
{
    let bytes = disk.sector(map_place());
    if has_geos_sign(bytes) {
        return Err(CommandFault::Geos);
    }
    if bytes[2] != b'A' {
        return Err(CommandFault::Format);
    }
    Ok(())
}

/// Whether the disk is one of GEOS by its signature, or has a file of GEOS.
pub(crate) fn is_geos_disk(disk: &mut MemDisk) -> bool
    ensures geos { IsTrue result ↔ IsGeosDisk (disk_image disk.old) }
    ensures same { disk_image disk.new ≡ disk_image disk.old }
{
    has_geos_sign(disk.sector(map_place())) || has_geos_entry(disk)
}
