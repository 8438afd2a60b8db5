//! A new log beside its image.
ghost use Rattle.std.specs.Prelude.{◌≡◌, IfOk, OnErr, Some, false, length, true};
ghost use Rattle.image_log.specs.life.Bringing.{IsBrought};
ghost use Rattle.image_log.specs.life.Folders.{AllLeft, Folder, LeavesFolders};
ghost use Rattle.image_log.specs.life.Serving.{IsServing};
ghost use Rattle.image_log.specs.life.Shops.{Gives};
ghost use Rattle.image_log.specs.Logs.{takes_none};

use crate::life::log_folder::LogFolder;
use crate::log::Log;
use crate::log_file::LogFile;
use crate::log_room::LogRoom;
use std::io;

/// Makes a log whose base is the image, under the name of one in the making, and syncs its bytes and that name. Then it
/// gives it the log's name, in place of a log that may have it and gives that image too, syncs that, and tags IMAGE.
pub(crate) fn make_new<F: LogFile, D: LogFolder<F>>(
    folder: &mut D,
    room: LogRoom,
    shop: &[[u8; 256]],
) -> io::Result<Log<F>>
    requires sized { length shop.now ≡ 683 }
    ensures any_moment { (s : Folder) → D.history.held folder.old ≡ Some s
        → AllLeft D.history folder.old (IsBrought shop.now)
        → LeavesFolders D.history folder.old folder.new (IsBrought shop.now) }
    ensures ok { IfOk result (λ log. (s : Folder) → D.history.held folder.old ≡ Some s → s.image ≡ shop.now
        → AllLeft D.history folder.old (IsBrought shop.now) → IsServing D.history folder.new log shop.now) }
    ensures room { IfOk result (λ log. takes_none log ≡ false) }
    ensures tagged { IfOk result (λ log. (named : D) × D.IsTagged named folder.new) }
    // an error is returned only after a failure of the folder, or of the log's file
    ensures cause { OnErr result (D.history.has_failed folder.new ≡ true) }
{
    let file = folder.make_log()?;
    let log = match Log::begin_in(room, file, shop) {
        Ok(log) => log,
        Err((error, file)) => {
            folder.leave_making(file);
            return Err(error);
        }
    };
    folder.sync_folder()?;
    folder.name_log(log.file())?;
    folder.sync_folder()?;
    folder.tag()?;
    Ok(log)
}
