//! A file put on a disk.
ghost use Rattle.std.specs.Prelude.{◌≡◌, ◌≤◌, length};
ghost use Rattle.file_changes.specs.Puts as specs;
ghost use Rattle.file_changes.specs.Puts.{Puts};
ghost use Rattle.rel_records.specs.Usable.{IsUsable};

use crate::file_type::FileType;
use crate::put_writes::write_file;
use command_faults::CommandFault;
use d64_image::Sectors;
use rel_records::choose_site;

/// What an empty file gets: a carriage return.
const EMPTY: [u8; 1] = [0x0D];

/// The data that a new file gets.
fn stored(content: &[u8]) -> &[u8]
    ensures { result.now ≡ specs.stored content.now }
{
    if content.is_empty() { &EMPTY } else { content }
}

/// Puts a new file of this name, type and data on a disk. The disk is clean, but sectors may be taken in its map that
/// nobody owns: these, and no others, are so afterwards too. The data lie in a chain of sectors, 254 bytes in each,
/// the rest of the last one 0. The sectors are those that `Bam::pick` names, one after another. The entry goes into the
/// first free slot of the directory or, if all are used, into a new directory sector, the lowest free one of track 18.
/// If there are no data, the file gets a carriage return, as the drive gives one to an empty file when it closes it.
///
/// `FileExists` if an entry has the name, of whatever type; otherwise `DiskFull` if the disk has fewer free blocks than the file
/// takes, or the directory neither a free slot nor a free sector. Both write nothing. The name isn't judged: whoever
/// asks sees to it that it doesn't end in a shifted space. `Device` if the device failed: the file is there, whole, or
/// it isn't. If not, the map perhaps calls sectors taken that nobody owns, which `layout_check::repair` mends.
///
/// At most fifty-five sectors are read, unless the device fails. The map is written first, then the chain, then the
/// directory; the last write makes the file. In each image that the disk holds on the way all other files are as they
/// were, and whole files stay whole.
pub fn put_file<D: Sectors>(
    disk: &mut D,
    name: &[u8],
    kind: FileType,
    content: &[u8],
) -> Result<(), CommandFault>
    requires usable { IsUsable (D.history.image disk.old) }
    requires name { length name.now ≤ 16 }
    ensures { Puts D.history disk.old disk.new name.now kind content.now result }
{
    let content = stored(content);
    let site = choose_site(disk, name, (content.len() + 253) / 254)?;
    match write_file(disk, &site, name, kind, content) {
        Ok(()) => Ok(()),
        Err(_) => Err(CommandFault::Device),
    }
}
