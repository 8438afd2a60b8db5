//! What is wrong with a disk in memory.
ghost use Rattle.std.specs.Prelude.{◌≡◌, ◌↔◌, IsNone, MatchOption};
ghost use Rattle.d64_image.specs.Memory.{disk_image};
ghost use Rattle.disk_layout.specs.Clean.{IsVerdict};
ghost use Rattle.disk_layout.specs.Fault.{Holds, nowhere};
ghost use Rattle.disk_layout.specs.Layout.{IsSound};

use crate::checking::check;
use crate::survey_walk::survey;
use d64_image::MemDisk;
use disk_layout::Fault;

/// The fault that `check` finds; None if the disk is clean.
pub fn verdict(disk: &mut MemDisk) -> Option<Fault>
    ensures verdict { IsVerdict (disk_image disk.old) result }
    ensures same { disk_image disk.new ≡ disk_image disk.old }
{
    check(disk).err()
}

/// The fault that `survey` finds; None if the disk is sound.
pub fn unsoundness(disk: &mut MemDisk) -> Option<Fault>
    ensures fault { MatchOption result (IsSound (disk_image disk.old)) (Holds nowhere (disk_image disk.old)) }
    ensures sound { IsNone result ↔ IsSound (disk_image disk.old) }
    ensures same { disk_image disk.new ≡ disk_image disk.old }
{
    survey(disk).err()
}
