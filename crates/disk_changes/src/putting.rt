//! A file put into an image.
ghost use Rattle.std.specs.Prelude.{◌≤◌, IfErr, IfOk, length};
ghost use Rattle.disk_changes.specs.Puts.{IsPut, IsPutRefusal};

use crate::changes::Changed;
use crate::judging::usable_disk;
use crate::outcomes::changed;
use command_faults::CommandFault;
use damaged_files::Loss;
use file_changes::{FileType, put_file};
use std::alloc::Global;

/// The image with a new file of this name, type and data. The name was judged before.
pub(crate) fn put(
    alloc: Global,
    image: &[u8],
    name: &[u8],
    kind: FileType,
    content: &[u8],
    cut: Loss,
) -> Result<Changed, CommandFault>
    requires name { length name.now ≤ 16 }
    ensures ok { IfOk result (IsPut image.now name.now kind content.now cut) }
    ensures err { IfErr result (IsPutRefusal image.now name.now kind content.now cut) }
{
    let mut disk = usable_disk(alloc, image, cut)?;
    put_file(&mut disk, name, kind, content)?;
    changed(alloc, disk, b"PUT\n")
}
