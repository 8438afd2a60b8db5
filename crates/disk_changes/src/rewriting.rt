//! A file that isn't relative, found by its name and written over where it stands.
ghost use Rattle.std.specs.Prelude.{◌≡◌, ◌≤◌, ◌<◌, IfErr, IfOk, IsFalse, IsTrue, None, length};
ghost use Rattle.d64_image.specs.Images.{put as put_at};
ghost use Rattle.d64_image.specs.Memory.{disk_image};
ghost use Rattle.command_faults.specs.declared.faults.CommandFault.TheVariants.{NoFile};
ghost use Rattle.disk_changes.specs.Rewrites.{IsPlainNamed};
ghost use Rattle.disk_layout.specs.Layout.{IsLayout, IsSound, Layout};

use crate::copying::is_relative;
use arrayvec::ArrayVec;
use command_faults::CommandFault;
use d64_image::{MemDisk, Place, Sectors};
use damaged_files::{Reach, read_so_far};
use disk_layout::{Slot, padded_name};
use file_changes::choose_named;

/// The first entry of that name of a sound disk. `NoFile` if none has it, or if it is that of a relative file.
pub(crate) fn plain_named(disk: &MemDisk, name: &[u8]) -> Result<Slot, CommandFault>
    requires sound { IsSound (disk_image disk.now) }
    requires name { length name.now ≤ 16 }
    ensures ok { IfOk result (λ s. (l : Layout) → IsLayout (disk_image disk.now) l → IsPlainNamed l name.now s) }
    ensures low { IfOk result (λ s. s.number < 8) }
    ensures err { IfErr result (λ why. why ≡ NoFile) }
{
    let mut sectors = ArrayVec::new();
    let mut entries = ArrayVec::new();
    let _ = read_so_far(disk, &mut sectors, &mut entries);
    let slot = choose_named(entries.as_slice(), &padded_name(name))?;
    if is_relative(&slot) {
        return Err(CommandFault::NoFile);
    }
    Ok(slot)
}

/// Whether a fault is in the way of more.
pub(crate) fn is_broken(reach: &Reach) -> bool
    ensures { IsFalse result → reach.now.fault ≡ None }
{
    reach.fault.is_some()
}

/// Writes the sector at a place.
pub(crate) fn put_sector(disk: &mut MemDisk, place: Place, bytes: &[u8; 256])
    ensures { disk_image disk.new ≡ put_at (disk_image disk.old) place bytes.now }
{
    let _ = disk.write(place, bytes);
}

/// Whether both are the same bytes.
pub(crate) fn are_same(one: &[u8], other: &[u8]) -> bool
    ensures { IsTrue result → one.now ≡ other.now }
{
    one == other
}
