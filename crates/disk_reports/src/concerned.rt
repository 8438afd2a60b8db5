//! The entries that a fault concerns.
ghost use Rattle.std.specs.Prelude.{◌≡◌, ◌≤◌, IsFalse, IsTrue, length};
ghost use Rattle.d64_image.specs.Memory.{disk_image};
ghost use Rattle.disk_reports.specs.Outcomes.{AreConcerned, AreFilesOf, AreFound, IsConcerned, IsUnconcerned};

use crate::following::follow;
use crate::showing::shows;
use arrayvec::ArrayVec;
use d64_image::MemDisk;
use disk_layout::{Fault, Slot, read_directory};

/// Used entries of a directory.
pub(crate) type Slots = ArrayVec<Slot, 144>;

/// Whether the fault concerns an entry.
fn is_concerned(disk: &MemDisk, slot: &Slot, fault: Fault) -> bool
    ensures concerned { IsTrue result → IsConcerned (disk_image disk.now) fault slot.now }
    ensures other { IsFalse result → IsUnconcerned (disk_image disk.now) fault slot.now }
{
    shows(&follow(disk, slot), fault)
}

/// Lists those of these entries that the fault concerns.
fn keep_concerned(disk: &MemDisk, slots: &[Slot], fault: Fault, files: &mut Slots)
    requires { length slots.now ≤ 144 }
    ensures { AreConcerned (disk_image disk.now) fault slots.now files.new.items }
{
    files.clear();
    for slot in slots {
        if is_concerned(disk, slot, fault) {
            files.push(*slot);
        }
    }
}

/// Lists the entries of the directory that the fault concerns; none if the directory's chain has a fault itself.
fn list_concerned(disk: &mut MemDisk, fault: Fault, files: &mut Slots)
    ensures files { AreFilesOf (disk_image disk.old) fault files.new.items }
    ensures same { disk_image disk.new ≡ disk_image disk.old }
{
    files.clear();
    let mut slots = ArrayVec::new();
    if let Err(_broken) = read_directory(disk, &mut slots) {
        return;
    }
    keep_concerned(disk, slots.as_slice(), fault, files);
}

/// Lists the entries that the fault concerns that a check found, if it found one; none if the directory's chain has a fault itself.
pub fn list_files(disk: &mut MemDisk, found: Option<Fault>, files: &mut Slots)
    ensures files { AreFound (disk_image disk.old) found files.new.items }
    ensures same { disk_image disk.new ≡ disk_image disk.old }
{
    match found {
        Some(fault) => list_concerned(disk, fault, files),
        None => files.clear(),
    }
}
