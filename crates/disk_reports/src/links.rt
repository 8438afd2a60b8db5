//! What the links of a disk come to, of one that is damaged too.
ghost use Rattle.std.specs.Prelude.{◌≡◌, IfErr, IfOk, length};
ghost use Rattle.d64_image.specs.Memory.{disk_image};
ghost use Rattle.disk_reports.specs.AllFaults.{AreFollowed, AreLinks};
ghost use Rattle.command_faults.specs.declared.faults.CommandFault.TheVariants as faults;

use crate::following::follow;
use crate::trail::Trail;
use arrayvec::ArrayVec;
use command_faults::CommandFault;
use d64_image::MemDisk;
use damaged_files::{DirectorySectors, read_so_far};
use disk_layout::{Fault, Slot, map_place};
use layout_check::unsoundness;
use std::alloc::Global;

/// What the links of a disk come to.
#[derive(Drop)]
pub(crate) struct Links {
    /// The sectors of its directory, as far as they can be read.
    pub(crate) directory: DirectorySectors,
    /// What ends them before the directory's end: `BadLink` or `Loop`.
    pub(crate) end: Option<Fault>,
    /// Its entries, in the order of the directory.
    pub(crate) trails: Vec<Trail>,
    /// The bytes of 18/0.
    pub(crate) header: [u8; 256],
    /// Whether the disk is sound, so that it is known who owns which sector.
    pub(crate) is_sound: bool,
}

/// What the links of these entries come to. The only error is `NoMemory`.
fn follow_entries(alloc: Global, disk: &MemDisk, slots: &[Slot]) -> Result<Vec<Trail>, CommandFault>
    ensures ok { IfOk result (λ trails. AreFollowed (disk_image disk.now) slots.now trails.items) }
    ensures few { IfOk result (λ trails. length trails.items ≡ length slots.now) }
    ensures err { IfErr result (λ fault. fault ≡ faults.NoMemory) }
{
    let mut trails = Vec::new(alloc);
    for slot in slots {
        let trail = follow(disk, slot);
        if trails.push(trail).is_err() {
            return Err(CommandFault::NoMemory);
        }
    }
    Ok(trails)
}

/// What the links of the disk come to. The only error is `NoMemory`.
pub(crate) fn follow_all(alloc: Global, disk: &mut MemDisk) -> Result<Links, CommandFault>
    ensures ok { IfOk result (AreLinks (disk_image disk.old)) }
    ensures err { IfErr result (λ fault. fault ≡ faults.NoMemory) }
{
    let mut directory = ArrayVec::new();
    let mut entries = ArrayVec::new();
    let end = read_so_far(disk, &mut directory, &mut entries);
    let header = *disk.sector(map_place());
    let is_sound = unsoundness(disk).is_none();
    let trails = follow_entries(alloc, disk, entries.as_slice())?;
    Ok(Links {
        directory,
        end,
        trails,
        header,
        is_sound,
    })
}
