//! Creation of a relative file.
ghost use Rattle.std.specs.Prelude.{◌≡◌, ◌≤◌, IfErr, IfOk, OnOk, length};
ghost use Rattle.d64_image.specs.History.{OnlyReads, WritesNothing};
ghost use Rattle.disk_layout.specs.Layout.{IsLayout, IsSound, Layout};
ghost use Rattle.rel_records.specs.Calls.{Chooses, Creates};
ghost use Rattle.rel_records.specs.Faults.{TellsRelFault};
ghost use Rattle.rel_records.specs.File.{IsLength};
ghost use Rattle.rel_records.specs.Usable.{IsUsable};
ghost use Rattle.rel_records.specs.creation.Site.{IsFileAt, IsRoomOf};
ghost use Rattle.rel_records.specs.declared.faults.RelFault.TheVariants.{Device};

pub(crate) mod directory_room;
pub(crate) mod new_file;
pub(crate) mod site;

use crate::creation::directory_room::{Room, find_room, has_name};
use crate::creation::new_file::write_file;
use crate::creation::site::{Site, take_site};
use crate::faults::RelFault;
use crate::reading::finding::list_slots;
use crate::rel_file::RelFile;
use crate::sizes::last_index;
use arrayvec::ArrayVec;
use d64_image::Sectors;
use disk_layout::{Bam, directory_start, padded_name, walk_chain};

/// Finds the directory's room for an entry on a sound disk. `Device` if the device failed, the only error. Nothing is
/// written.
fn read_room<D: Sectors>(disk: &mut D) -> Result<Room, RelFault>
    requires sound { IsSound (D.history.image disk.old) }
    ensures ok { (l : Layout) → IsLayout (D.history.image disk.old) l
        → IfOk result (IsRoomOf (D.history.image disk.old) l) }
    ensures err { IfErr result (λ fault. fault ≡ Device) }
    // twice the eighteen sectors of the directory
    ensures reads { OnOk result (OnlyReads D.history disk.old disk.new 36) }
    ensures quiet { WritesNothing D.history disk.old disk.new }
    ensures failures { TellsRelFault D.history disk.old disk.new result }
{
    let mut places = ArrayVec::new();
    let Ok(_) = walk_chain(disk, directory_start(), &mut places) else {
        return Err(RelFault::Device);
    };
    let Ok(room) = find_room(disk, places.as_slice()) else {
        return Err(RelFault::Device);
    };
    Ok(room)
}

/// Chooses what a new file of this name takes of a disk: this number of sectors, and an entry's slot. The disk is clean,
/// but sectors may be taken in its map that nobody owns; they stay taken. `Exists` if an entry has the name, of whatever
/// type; otherwise `Full` if fewer blocks are free, or if the directory has neither a free slot nor a free sector;
/// `Device` if the device failed. Nothing is written. At most fifty-five sectors are read, unless the device fails.
pub fn choose_site<D: Sectors>(disk: &mut D, name: &[u8], count: usize) -> Result<Site, RelFault>
    requires usable { IsUsable (D.history.image disk.old) }
    requires name { length name.now ≤ 16 }
    ensures { Chooses D.history disk.old disk.new name.now count result }
{
    let mut used = ArrayVec::new();
    list_slots(disk, &mut used)?;
    if has_name(used.as_slice(), &padded_name(name)) {
        return Err(RelFault::Exists);
    }
    let room = read_room(disk)?;
    let Ok(map) = Bam::read(disk) else {
        return Err(RelFault::Device);
    };
    let Some(site) = take_site(map, room, count) else {
        return Err(RelFault::Full);
    };
    Ok(site)
}

/// The new file, as its site has it.
fn file_at(site: &Site, size: u8) -> RelFile
    requires size { IsLength size }
    requires two { length site.now.blocks.items ≡ 2 }
    ensures { IsFileAt size site.now result }
{
    let mut sides = ArrayVec::new();
    sides.push(site.blocks[1]);
    RelFile {
        entry: site.entry,
        sector: site.fresh.unwrap_or(site.place),
        number: site.number,
        size,
        sides,
        blocks: 1,
        last: last_index(1, size),
    }
}

/// Creates a relative file of this name and record length, in bytes, with one data block of empty records. Its entry
/// goes into the first free slot of the directory. If all slots are used, the entry goes into a new directory sector,
/// the lowest free one of track 18.
/// The disk is clean, but sectors may be taken in its map that nobody owns: these, and no others, are so afterwards too.
///
/// `Exists` is returned if an entry has the name, of whatever type; otherwise `Full` if fewer than two blocks are free,
/// or if the directory has neither a free slot nor a free sector. Neither writes anything. The name isn't checked: the
/// caller ensures that it has no shifted space, and that the first closed relative file of that name, if any, has
/// another record length.
///
/// At most fifty-five sectors are read, unless the device fails. The last write makes the file. Whole files stay whole
/// in each image that the disk holds on the way.
pub fn create<D: Sectors>(disk: &mut D, name: &[u8], size: u8) -> Result<RelFile, RelFault>
    requires usable { IsUsable (D.history.image disk.old) }
    requires name { length name.now ≤ 16 }
    requires low { 1 ≤ size }
    requires high { size ≤ 254 }
    ensures { Creates D.history disk.old disk.new name.now size result }
{
    let site = choose_site(disk, name, 2)?;
    let Ok(()) = write_file(disk, &site, name, size) else {
        return Err(RelFault::Device);
    };
    Ok(file_at(&site, size))
}
