//! The disk of an image with another name and ID.
ghost use Rattle.std.specs.Prelude.{◌≡◌, ◌≤◌, IfErr, IfOk, length};
ghost use Rattle.d64_image.specs.Memory.{disk_image};
ghost use Rattle.command_faults.specs.Faults.{IsSoundFault};
ghost use Rattle.disk_changes.specs.Titles.{IsTitled, retitled};

use crate::changes::Changed;
use crate::judging::sound_disk;
use crate::outcomes::changed;
use command_faults::CommandFault;
use d64_image::{MemDisk, Sectors};
use disk_layout::{map_place, padded_name};
use file_changes::overwrite;
use std::alloc::Global;

/// Writes the name and the ID over those in 18/0.
fn set_title(disk: &mut MemDisk, name: &[u8], id: [u8; 2])
    requires { length name.now ≤ 16 }
    ensures { disk_image disk.new ≡ retitled (disk_image disk.old) name.now id }
{
    let mut bytes = *disk.sector(map_place());
    overwrite(&mut bytes, 144, &padded_name(name));
    overwrite(&mut bytes, 162, &id);
    let _ = disk.write(map_place(), &bytes);
}

/// The image whose disk has this name and this ID.
pub(crate) fn titled(
    alloc: Global,
    image: &[u8],
    name: &[u8],
    id: [u8; 2],
) -> Result<Changed, CommandFault>
    requires name { length name.now ≤ 16 }
    ensures ok { IfOk result (IsTitled image.now name.now id) }
    ensures err { IfErr result (IsSoundFault image.now) }
{
    let mut disk = sound_disk(alloc, image)?;
    set_title(&mut disk, name, id);
    changed(alloc, disk, b"TITLED\n")
}
