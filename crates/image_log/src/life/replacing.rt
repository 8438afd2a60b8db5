//! An image that takes the place of another, all or nothing.
ghost use Rattle.std.specs.Prelude.{◌≡◌, [], IfErr, IfOk, List, OnErr, OnOk, Option, Some, ℕ, length, true};
ghost use Rattle.d64_image.specs.Images.{Image};
ghost use Rattle.d64_image.specs.Memory.{sectors_in};
ghost use Rattle.image_log.specs.life.Bringing.{IsWith, RestsAlone, RestsWith};
ghost use Rattle.image_log.specs.life.Folders.{AllLeft, LeavesFolders};
ghost use Rattle.image_log.specs.life.Replacing.{IsCommitted, IsMade, IsMarkedFor, IsUnbegun, KeepsOrGives};
ghost use Rattle.image_log.specs.Marks.{Covers};
ghost use Rattle.image_log.specs.declared.life.replacing.ReplaceFault.TheVariants.{Unfinished};

use crate::blocks::BLOCK;
use crate::filling::fill;
use crate::life::bringing::{unlog, write_changed};
use crate::life::log_folder::LogFolder;
use crate::life::marking::write_mark;
use crate::log::LOG_BYTES;
use crate::log_file::LogFile;
use crate::log_room::LogRoom;
use d64_image::SECTORS;
use std::io;

/// The sectors of an image.
pub fn sectors_of(image: &[u8]) -> &[[u8; 256]]
    requires { length image.now ≡ 174848 }
    ensures value { result.now ≡ sectors_in image.now }
    ensures sized { length result.now ≡ 683 }
{
    let (sectors, _) = image.as_chunks::<256>();
    sectors
}

/// Which sectors differ in two images.
fn changed(now: &[[u8; 256]], shop: &[[u8; 256]]) -> [bool; 683]
    requires now { length now.now ≡ 683 }
    requires shop { length shop.now ≡ 683 }
    ensures { Covers result now.now shop.now }
{
    let mut changed = [true; 683];
    for i in 0..SECTORS {
        if now[i] == shop[i] {
            changed[i] = false;
        }
    }
    changed
}

/// Writes a log into an empty file: an image as its base, another one as its commit, and the mark. Its length is synced
/// first, so that a power loss leaves a file of a log's length. The rest is synced once, since nobody reads it before it has
/// the log's name. At an error the file failed.
fn make_marked<F: LogFile>(
    file: &mut F,
    room: &mut [[u8; 4096]],
    now: &[[u8; 256]],
    shop: &[[u8; 256]],
) -> io::Result<()>
    requires room { length room.old ≡ 46 }
    requires now { length now.now ≡ 683 }
    requires shop { length shop.now ≡ 683 }
    ensures ok { OnOk result (F.history.held file.old ≡ Some [] → IsMarkedFor F.history file.new now.now shop.now) }
    ensures cause { OnErr result (F.history.has_failed file.new ≡ true) }
{
    file.lengthen(LOG_BYTES)?;
    file.sync()?;
    let n = fill(room, now, &[true; 683], 0);
    file.write_at(0, room[..n].as_flattened())?;
    let m = fill(room, shop, &changed(now, shop), n);
    file.write_at(BLOCK * n, room[..m].as_flattened())?;
    write_mark(file)
}

/// Makes a log in the making that gives this image beside each mix of it and the one that IMAGE has, and syncs its file.
fn make_replacing<F: LogFile, D: LogFolder<F>>(
    folder: &mut D,
    room: LogRoom,
    now: &[[u8; 256]],
    shop: &[[u8; 256]],
) -> io::Result<F>
    requires now { length now.now ≡ 683 }
    requires shop { length shop.now ≡ 683 }
    ensures any_moment { (log : Option (List ℕ)) → RestsWith D.history folder.old log now.now
        → LeavesFolders D.history folder.old folder.new (IsWith log now.now) }
    ensures ok { IfOk result (λ file. (log : Option (List ℕ)) → RestsWith D.history folder.old log now.now
        → IsMade D.history F.history folder.new file log now.now shop.now) }
    ensures cause { OnErr result (D.history.has_failed folder.new ≡ true) }
{
    let LogRoom { mut blocks } = room;
    let mut file = folder.make_log()?;
    match make_marked(&mut file, &mut blocks, now, shop) {
        Ok(()) => Ok(file),
        Err(error) => {
            folder.leave_making(file);
            Err(error)
        }
    }
}

/// Gives the log in the making the name of the log. From the renaming on the folder gives the log's image.
fn commit_made<F: LogFile, D: LogFolder<F>>(folder: &mut D, file: F) -> io::Result<()>
    ensures any_moment { (log : Option (List ℕ)) (before after : Image)
        → IsMade D.history F.history folder.old file log before after
        → LeavesFolders D.history folder.old folder.new (KeepsOrGives log before after) }
    ensures ok { OnOk result ((log : Option (List ℕ)) (before after : Image)
        → IsMade D.history F.history folder.old file log before after
        → IsCommitted D.history folder.new before after) }
    ensures cause { OnErr result (D.history.has_failed folder.new ≡ true) }
{
    folder.sync_folder()?;
    folder.name_log(&file)?;
    folder.sync_folder()?;
    folder.close_log(file)
}

/// Why an image wasn't put in the place of another: a call of the folder, or of the log's file, failed.
#[derive(Debug)]
pub enum ReplaceFault {
    /// The log that gives the new image wasn't made. Nothing was written to IMAGE, and the folder has a log only if it had one before.
    Unbegun(io::Error),
    /// A later call failed: the folder gives the old image, or the new one.
    Unfinished(io::Error),
}

impl ReplaceFault {
    /// The error of the call that failed.
    pub fn into_error(self) -> io::Error {
        match self {
            ReplaceFault::Unbegun(error) | ReplaceFault::Unfinished(error) => error,
        }
    }
}

impl From<io::Error> for ReplaceFault {
    ghost from_gives = { λ error fault. fault ≡ Unfinished error };

    fn from(error: io::Error) -> ReplaceFault {
        ReplaceFault::Unfinished(error)
    }
}

/// Puts an image in the place of the one that IMAGE has, all or nothing. `now` is what IMAGE has, with no log beside it,
/// and both are synced, as `land` leaves them. A power loss at any moment, and an error, leave a folder that gives `now` or
/// `shop`; at Ok IMAGE is `shop`, with no log. At `Unbegun`, and until then, the folder has `now`, as it was.
pub fn replace<F: LogFile, D: LogFolder<F>>(
    folder: &mut D,
    room: LogRoom,
    now: &[[u8; 256]],
    shop: &[[u8; 256]],
) -> Result<(), ReplaceFault>
    requires now { length now.now ≡ 683 }
    requires shop { length shop.now ≡ 683 }
    ensures any_moment { (log : Option (List ℕ)) → RestsWith D.history folder.old log now.now
        → LeavesFolders D.history folder.old folder.new (KeepsOrGives log now.now shop.now) }
    ensures ok { OnOk result ((log : Option (List ℕ)) → RestsWith D.history folder.old log now.now
        → RestsAlone D.history folder.new shop.now) }
    ensures unbegun { IfErr result (λ fault. IsUnbegun fault → (log : Option (List ℕ)) → RestsWith D.history folder.old log now.now
        → LeavesFolders D.history folder.old folder.new (IsWith log now.now)) }
    ensures cause { OnErr result (D.history.has_failed folder.new ≡ true) }
{
    let file = match make_replacing(folder, room, now, shop) {
        Ok(file) => file,
        Err(error) => return Err(ReplaceFault::Unbegun(error)),
    };
    commit_made(folder, file)?;
    write_changed(folder, now, shop)?;
    unlog(folder)?;
    Ok(())
}
