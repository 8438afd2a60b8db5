//! What came of a change on the disk in memory, as it is returned.
ghost use Rattle.std.specs.Prelude.{◌≡◌, IfErr, IfOk};
ghost use Rattle.command_faults.specs.declared.faults.CommandFault.TheVariants.{NoMemory};
ghost use Rattle.disk_changes.specs.Judged.{in_memory as in_memory_of};

use crate::changes::Changed;
use command_faults::CommandFault;
use d64_image::MemDisk;
use std::alloc::Global;

/// The disk after a change, and the text that is printed.
pub(crate) fn changed(alloc: Global, disk: MemDisk, text: &[u8]) -> Result<Changed, CommandFault>
    ensures ok { IfOk result (λ made. (made.disk ≡ disk) × (made.text.items ≡ text.now)) }
    ensures err { IfErr result (λ why. why ≡ NoMemory) }
{
    match Vec::from_slice(alloc, text) {
        Ok(text) => Ok(Changed {
            disk,
            text,
            left: 0,
        }),
        Err(_) => Err(CommandFault::NoMemory),
    }
}

/// What is reported if a change in memory ends so: its output fails only if there is no memory for it.
pub(crate) fn in_memory(fault: CommandFault) -> CommandFault
    ensures { result ≡ in_memory_of fault }
{
    match fault {
        CommandFault::File => CommandFault::NoMemory,
        fault => fault,
    }
}
