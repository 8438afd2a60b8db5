//! Making the disk of an empty shop.
ghost use Rattle.std.specs.Prelude.{◌≡◌, ◌≤◌, IfErr, IfOk};
ghost use Rattle.d64_image.specs.Memory.{disk_image};
ghost use Rattle.shop_commands.specs.Images.{IsFreshDisk};
ghost use Rattle.command_faults.specs.declared.faults.CommandFault.TheVariants as faults;

use command_faults::CommandFault;
use d64_image::MemDisk;
use disk_layout::blank_image;
use std::alloc::Global;

/// The name of a fresh disk.
const NAME: &[u8] = b"STOCK LEDGER";

/// The id of a fresh disk.
const ID: [u8; 2] = *b"01";

/// A disk in memory that holds an empty shop with 1 to 64 tills. An odd number of tills gives one more. `NoMemory` if
/// there is none for the disk.
pub fn fresh_disk(alloc: Global, tills: u8) -> Result<MemDisk, CommandFault>
    requires some { 1 ≤ tills }
    requires few { tills ≤ 64 }
    ensures ok { IfOk result (λ disk. IsFreshDisk (disk_image disk) tills) }
    ensures err { IfErr result (λ fault. fault ≡ faults.NoMemory) }
{
    let Ok(mut disk) = MemDisk::zeroed(alloc) else {
        return Err(CommandFault::NoMemory);
    };
    match blank_image(&mut disk, NAME, ID, tills) {
        Ok(()) => Ok(disk),
        Err(_) => Err(CommandFault::Device),
    }
}
