//! An image that takes the place of all that a folder has.
ghost use Rattle.std.specs.Prelude.{◌≡◌, List, OnErr, OnOk, Option, length, true, ℕ};
ghost use Rattle.d64_image.specs.Images.{Image};
ghost use Rattle.image_log.specs.life.Bringing.{RestsAlone, RestsWith};
ghost use Rattle.image_log.specs.life.Folders.{LeavesFolders};
ghost use Rattle.image_log.specs.life.Replacing.{KeepsOrGives};

use crate::life::landing::find;
use crate::life::log_folder::LogFolder;
use crate::life::replacing::replace;
use crate::log_file::LogFile;
use crate::log_room::LogRoom;
use std::io;

/// Settles the folder and reads IMAGE. A log that stands there is opened, so that it is known, and closed.
fn image_found<F: LogFile, D: LogFolder<F>>(folder: &mut D, now: &mut [[u8; 256]]) -> io::Result<()>
    requires sized { length now.old ≡ 683 }
    ensures sized { length now.new ≡ 683 }
    ensures any_moment { LeavesFolders D.history folder.old folder.new (D.history.may_leave folder.old) }
    ensures ok { OnOk result ((log : Option (List ℕ)) (before : Image) → RestsWith D.history folder.old log before
        → RestsWith D.history folder.new log before × (now.new ≡ before)) }
    ensures cause { OnErr result (D.history.has_failed folder.new ≡ true) }
{
    if let Some(log) = find(folder, now)? {
        folder.leave_log(log);
    }
    Ok(())
}

/// Puts an image in the place of all that the folder has, all or nothing: of IMAGE, and of a log that stands beside it,
/// whether that gives an image or not. `now` is room for what IMAGE has. A power loss at any moment, and an error, leave the
/// folder as it was, or one that gives `shop`. So the log stays until another one that gives `shop` has its name. At Ok IMAGE
/// is `shop`, with no log. The only error is that the folder or its log's file failed.
pub fn supersede<F: LogFile, D: LogFolder<F>>(
    folder: &mut D,
    room: LogRoom,
    now: &mut [[u8; 256]],
    shop: &[[u8; 256]],
) -> io::Result<()>
    requires now { length now.old ≡ 683 }
    requires shop { length shop.now ≡ 683 }
    ensures any_moment { (log : Option (List ℕ)) (before : Image) → RestsWith D.history folder.old log before
        → LeavesFolders D.history folder.old folder.new (KeepsOrGives log before shop.now) }
    ensures ok { OnOk result ((log : Option (List ℕ)) (before : Image) → RestsWith D.history folder.old log before
        → RestsAlone D.history folder.new shop.now) }
    ensures cause { OnErr result (D.history.has_failed folder.new ≡ true) }
{
    image_found(folder, now)?;
    match replace(folder, room, now, shop) {
        Ok(()) => Ok(()),
        Err(fault) => Err(fault.into_error()),
    }
}
