//! An image that is put in the place of all that a folder has.
ghost use Rattle.std.specs.Prelude.{◌≡◌, ◌⊎◌, IfErr, List, OnOk, Option, length, true, ℕ};
ghost use Rattle.d64_image.specs.Images.{Image};
ghost use Rattle.d64_image.specs.Memory.{sectors_in};
ghost use Rattle.command_faults.specs.declared.faults.CommandFault.TheVariants as faults;
ghost use Rattle.image_log.specs.life.Bringing.{RestsAlone, RestsWith};
ghost use Rattle.image_log.specs.life.Folders.{LeavesFolders};
ghost use Rattle.image_log.specs.life.Replacing.{KeepsOrGives};

use command_faults::CommandFault;
use image_log::{LogFile, LogFolder, LogRoom, image_room, sectors_of, supersede};
use std::alloc::Global;

/// Puts an image in the place of all that a folder has, all or nothing: of IMAGE, whatever it is, and of a log beside it. A power
/// loss at any moment, and an error, leave the folder as it was, or one that gives the image; at Ok IMAGE is that, with no log.
///
/// `NoMemory`: nothing was done. `File`: the folder or its log's file failed.
pub fn put_image_in<F: LogFile, D: LogFolder<F>>(
    alloc: Global,
    folder: &mut D,
    image: &[u8],
) -> Result<(), CommandFault>
    requires { length image.now ≡ 174848 }
    ensures any_moment { (log : Option (List ℕ)) (before : Image) → RestsWith D.history folder.old log before
        → LeavesFolders D.history folder.old folder.new (KeepsOrGives log before (sectors_in image.now)) }
    ensures ok { OnOk result ((log : Option (List ℕ)) (before : Image) → RestsWith D.history folder.old log before
        → RestsAlone D.history folder.new (sectors_in image.now)) }
    ensures err { IfErr result (λ fault. ((fault ≡ faults.NoMemory) × (folder.new ≡ folder.old))
        ⊎ ((fault ≡ faults.File) × (D.history.has_failed folder.new ≡ true))) }
{
    let Ok(room) = LogRoom::new(alloc) else {
        return Err(CommandFault::NoMemory);
    };
    let Ok(mut now) = image_room(alloc) else {
        return Err(CommandFault::NoMemory);
    };
    match supersede(folder, room, now.as_mut_slice(), sectors_of(image)) {
        Ok(()) => Ok(()),
        Err(_) => Err(CommandFault::File),
    }
}
