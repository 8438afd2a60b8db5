//! The image of an empty disk, in a file of its own.
ghost use Rattle.std.specs.Prelude.{◌≤◌, IfOk, length};
ghost use Rattle.d64_image.specs.Memory.{disk_image};
ghost use Rattle.file_changes.specs.Formats.{IsNewDisk};
ghost use Rattle.file_changes.specs.Names.{name_bytes};
ghost use Rattle.image_edits.specs.NewDisks.{IsNewDiskEnd};
ghost use Rattle.opened_files.specs.Rights.{MayMakeImage};

use crate::copying::make_told;
use command_faults::CommandFault;
use d64_image::MemDisk;
use disk_layout::Fault;
use file_changes::{Name, new_disk};
use image_file::{EndedFile, HostFiles, Locks};
use std::alloc::Global;
use std::fs::OpenFile;
use std::io::Write;

/// The empty disk of this name and this id. `NoMemory` if there is none for it.
fn made_disk(alloc: Global, name: &[u8], id: [u8; 2]) -> Result<MemDisk, CommandFault>
    requires name { length name.now ≤ 16 }
    ensures ok { IfOk result (λ disk. IsNewDisk name.now id (disk_image disk)) }
{
    match new_disk(alloc, name, id) {
        Ok(disk) => Ok(disk),
        Err(_) => Err(CommandFault::NoMemory),
    }
}

/// Makes the image of an empty disk of this name, of at most sixteen bytes, and this id at a path, and prints `FORMATTED`. No
/// file may stand there. `NoMemory` if there is none for the disk; the errors of `make_image`; and `File` if `out` failed, which
/// then has a beginning of what is printed.
pub fn do_new<F, R, W>(
    rt: &R,
    path: &str,
    name: &Name,
    id: [u8; 2],
    out: &mut W,
) -> Result<Option<Fault>, CommandFault>
where
    F: EndedFile + Locks + OpenFile + Drop,
    R: HostFiles<File = F> + AllocGlobal,
    W: Write,
    requires image { MayMakeImage R.rights rt.now path.now }
    requires name { length (name_bytes name.now) ≤ 16 }
    ensures { IsNewDiskEnd R.traces F.EndedFile.remains W.contents rt.now path.now (name_bytes name.now) id
        out.old out.new result }
{
    let disk = made_disk(rt.alloc(), name.as_bytes(), id)?;
    make_told(rt, path, None, disk.bytes(), b"FORMATTED\n", out)
}
