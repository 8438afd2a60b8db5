//! The beginning of a service over a log.
ghost use Rattle.std.specs.Prelude.{◌≡◌, ◌⊎◌, IfErr, IfOk, List, Some, length, true};
ghost use Rattle.d64_image.specs.Images.{Image};
ghost use Rattle.image_log.specs.life.Faults.{IsMisfit};
ghost use Rattle.image_log.specs.life.Folders.{AllLeft, Folder, LeavesFolders};
ghost use Rattle.image_log.specs.life.Serving.{IsServing};
ghost use Rattle.image_log.specs.life.Shops.{Gives, GivesOneOf};

use crate::life::landing::{LogFault, land};
use crate::life::log_folder::LogFolder;
use crate::life::making::make_new;
use crate::log::Log;
use crate::log_file::LogFile;
use crate::log_room::LogRoom;

/// Lands a log that is there, and makes a new one, whose base is the image that was found. `shop` is that image. A power
/// loss at any moment, and an error, leave a folder from which the next beginning finds an image that it might have found
/// before.
pub fn begin<F: LogFile, D: LogFolder<F>>(
    folder: &mut D,
    room: LogRoom,
    now: &mut [[u8; 256]],
    base: &mut [[u8; 256]],
    shop: &mut [[u8; 256]],
) -> Result<Log<F>, LogFault>
    requires now { length now.old ≡ 683 }
    requires base { length base.old ≡ 683 }
    requires shop { length shop.old ≡ 683 }
    ensures any_moment { (shops : List Image) (s : Folder) → D.history.held folder.old ≡ Some s → GivesOneOf shops s
        → AllLeft D.history folder.old (GivesOneOf shops)
        → LeavesFolders D.history folder.old folder.new (GivesOneOf shops) }
    ensures ok { IfOk result (λ log. (shops : List Image) (s : Folder) → D.history.held folder.old ≡ Some s
        → GivesOneOf shops s → AllLeft D.history folder.old (GivesOneOf shops)
        → Gives s shop.new × IsServing D.history folder.new log shop.new) }
    // an error is returned only if the log gives no image, or after a failure of the folder or of the log's file
    ensures cause { IfErr result (λ e. IsMisfit e ⊎ (D.history.has_failed folder.new ≡ true)) }
{
    land(folder, now, base, shop)?;
    let log = make_new(folder, room, shop)?;
    Ok(log)
}
