//! A file of an image locked or unlocked.
ghost use Rattle.std.specs.Prelude.{◌≡◌, ◌<◌, IfErr, IfOk};
ghost use Rattle.d64_image.specs.Memory.{disk_image};
ghost use Rattle.disk_changes.specs.Locks.{IsLockRefusal, IsLockSet, locked_text, locked_type, with_lock};

use crate::changes::{Changed, Lock};
use crate::judging::sound_disk;
use crate::outcomes::changed;
use crate::shop_files::has_shop_file;
use command_faults::CommandFault;
use d64_image::{MemDisk, Sectors};
use disk_layout::Slot;
use file_changes::{find_entry, overwrite};
use std::alloc::Global;

/// The byte of a slot that has its type.
const TYPE_AT: usize = 2;

/// The bit of a type that says that the file is locked.
const LOCK_BIT: u8 = 0x40;

/// The type byte with this bit 6.
fn type_with(kind: u8, lock: Lock) -> u8
    ensures { result ≡ locked_type lock kind }
{
    match lock {
        Lock::Set => kind | LOCK_BIT,
        Lock::Cleared => kind & !LOCK_BIT,
    }
}

/// Writes the type of an entry with this bit 6 over its own.
fn put_lock(disk: &mut MemDisk, entry: &Slot, lock: Lock)
    requires { entry.now.number < 8 }
    ensures { disk_image disk.new ≡ with_lock (disk_image disk.old) entry.now lock }
{
    let mut bytes = *disk.sector(entry.sector);
    let kind = type_with(entry.bytes[TYPE_AT], lock);
    overwrite(&mut bytes, 32 * entry.number as usize + TYPE_AT, &[kind]);
    let _ = disk.write(entry.sector, &bytes);
}

/// What is printed.
fn said(lock: Lock) -> &'static [u8]
    ensures { result.now ≡ locked_text lock }
{
    match lock {
        Lock::Set => b"LOCKED\n",
        Lock::Cleared => b"UNLOCKED\n",
    }
}

/// The image with the first entry that has this name locked or unlocked. One that is so already stays.
pub(crate) fn relocked(
    alloc: Global,
    image: &[u8],
    name: &[u8],
    lock: Lock,
) -> Result<Changed, CommandFault>
    ensures ok { IfOk result (IsLockSet image.now name.now lock) }
    ensures err { IfErr result (IsLockRefusal image.now name.now) }
{
    let mut disk = sound_disk(alloc, image)?;
    if has_shop_file(alloc, image, name)? {
        return Err(CommandFault::ShopFile);
    }
    if name.len() > 16 {
        return Err(CommandFault::NoFile);
    }
    let entry = find_entry(&mut disk, name)?;
    put_lock(&mut disk, &entry, lock);
    changed(alloc, disk, said(lock))
}
