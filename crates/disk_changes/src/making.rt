//! A relative file made in an image.
ghost use Rattle.std.specs.Prelude.{◌≡◌, ◌≤◌, IfErr, IfOk, length};
ghost use Rattle.disk_changes.specs.Makes.{IsMade, IsMakeRefusal};
ghost use Rattle.rel_records.specs.File.{IsLength};

use crate::changes::Changed;
use crate::judging::usable_disk;
use crate::outcomes::changed;
use command_faults::CommandFault;
use damaged_files::Loss;
use rel_records::create;
use std::alloc::Global;

/// The image with a new relative file of this name, whose records have `size` bytes. The name was judged before.
pub(crate) fn made(
    alloc: Global,
    image: &[u8],
    name: &[u8],
    size: u8,
    cut: Loss,
) -> Result<Changed, CommandFault>
    requires name { length name.now ≤ 16 }
    requires size { IsLength size }
    ensures ok { IfOk result (IsMade image.now name.now size cut) }
    ensures err { IfErr result (IsMakeRefusal image.now name.now cut) }
{
    let mut disk = usable_disk(alloc, image, cut)?;
    create(&mut disk, name, size)?;
    changed(alloc, disk, b"MADE\n")
}
