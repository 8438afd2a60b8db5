//! A full log that is renewed.
ghost use Rattle.std.specs.Prelude.{◌≡◌, Bool, IfOk, IsErr, OnErr, Some, false, length, true};
ghost use Rattle.image_log.specs.life.LiveLogs.{IsLeftAlone, IsRenewing, Stands};
ghost use Rattle.image_log.specs.life.Serving.{IsServing};
ghost use Rattle.image_log.specs.Logs.{log_file, takes_none};

use crate::life::bringing::write_changed;
use crate::life::log_folder::LogFolder;
use crate::life::making::make_new;
use crate::life::marking::mark_found;
use crate::log::Log;
use crate::log_file::LogFile;
use std::io;

/// Marks the log, copies this image into IMAGE, and makes a new log with the image as its base, which takes the name of
/// the old one. `base` is what IMAGE has. At an error the folder gives the image.
pub(crate) fn renew<F: LogFile, D: LogFolder<F>>(
    folder: &mut D,
    log: Log<F>,
    base: &[[u8; 256]],
    now: &[[u8; 256]],
) -> io::Result<Log<F>>
    requires base { length base.now ≡ 683 }
    requires sized { length now.now ≡ 683 }
    ensures any_moment { (used : Bool) → Stands D.history folder.old (Some log) used base.now now.now
        → IsRenewing D.history folder.old (Some log) used folder.new now.now }
    ensures ok { IfOk result (λ new. (used : Bool) → Stands D.history folder.old (Some log) used base.now now.now
        → IsServing D.history folder.new new now.now) }
    ensures room { IfOk result (λ new. takes_none new ≡ false) }
    // a log whose name has gone is left alone
    ensures away { D.IsAway folder.old (log_file log) → IsErr result × IsLeftAlone D.history folder.old (Some log) folder.new }
    // an error is returned only after a failure of the folder, or of a log's file
    ensures cause { OnErr result (D.history.has_failed folder.new ≡ true) }
{
    let (file, room) = log.into_parts();
    folder.close_log(file)?;
    mark_found(folder)?;
    write_changed(folder, base, now)?;
    make_new(folder, room, now)
}
