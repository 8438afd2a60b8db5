//! A file of an image deleted.
ghost use Rattle.std.specs.Prelude.{IfErr, IfOk};
ghost use Rattle.disk_changes.specs.Deletes.{IsDeleted, IsDeleteRefusal};

use crate::changes::Changed;
use crate::judging::{accepted_for, usable_disk};
use crate::outcomes::changed;
use crate::shop_files::has_shop_file;
use command_faults::CommandFault;
use damaged_files::Loss;
use file_changes::delete;
use std::alloc::Global;

/// The image without the first file that has this name, of whatever type. If this file is cut short, that needn't be accepted.
pub(crate) fn deleted(
    alloc: Global,
    image: &[u8],
    name: &[u8],
    cut: Loss,
) -> Result<Changed, CommandFault>
    ensures ok { IfOk result (IsDeleted image.now name.now cut) }
    ensures err { IfErr result (IsDeleteRefusal image.now name.now cut) }
{
    let used = accepted_for(alloc, image, name, cut)?;
    let mut disk = usable_disk(alloc, image, used)?;
    if has_shop_file(alloc, image, name)? {
        return Err(CommandFault::ShopFile);
    }
    if name.len() > 16 {
        return Err(CommandFault::NoFile);
    }
    delete(&mut disk, name)?;
    changed(alloc, disk, b"DELETED\n")
}
