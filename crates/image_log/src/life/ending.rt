//! The end of a service over a log.
ghost use Rattle.std.specs.Prelude.{◌≡◌, Bool, IfSome, IsErr, List, OnOk, Some, length, true, ℕ};
ghost use Rattle.d64_image.specs.Images.{Image};
ghost use Rattle.image_log.specs.life.Bringing.{IsFound, RestsAlone};
ghost use Rattle.image_log.specs.life.Folders.{Folder, LeavesFolders};
ghost use Rattle.image_log.specs.life.LiveLogs.{IsLeftAlone, IsRenewing, Stands, is_shut};
ghost use Rattle.image_log.specs.life.Shops.{GivesOneOf, LogGives};
ghost use Rattle.image_log.specs.Logs.{log_file};

use crate::life::judging::{Misfit, is_same};
use crate::life::landing::{LogFault, land_found};
use crate::life::log_folder::LogFolder;
use crate::life::memory::image_room;
use crate::log::Log;
use crate::log_file::LogFile;
use std::alloc::Global;
use std::io;

/// An error if IMAGE isn't this image. Nothing is written.
fn see_image<F: LogFile, D: LogFolder<F>>(
    alloc: Global,
    folder: &mut D,
    image: &[[u8; 256]],
) -> Result<(), LogFault>
    ensures any_moment { (shops : List Image) (s : Folder) → IsFound D.history folder.old shops s
        → LeavesFolders D.history folder.old folder.new (GivesOneOf shops) }
    ensures ok { OnOk result ((shops : List Image) (s : Folder) → IsFound D.history folder.old shops s
        → IsFound D.history folder.new shops s) }
    ensures own { OnOk result ((s : Folder) → D.history.held folder.old ≡ Some s → s.image ≡ image.now) }
{
    let mut now = image_room(alloc)?;
    folder.read_image(now.as_mut_slice())?;
    if !is_same(now.as_slice(), image) {
        return Err(Misfit::Foreign.into());
    }
    Ok(())
}

/// Lands the log that stands in the folder, of whose base and image memory has a copy each: the log isn't read again. If IMAGE
/// isn't the base, somebody else wrote it: an error, and the files stay as they are.
fn land_kept<F: LogFile, D: LogFolder<F>>(
    alloc: Global,
    folder: &mut D,
    base: &[[u8; 256]],
    shop: &[[u8; 256]],
) -> Result<(), LogFault>
    requires base { length base.now ≡ 683 }
    requires shop { length shop.now ≡ 683 }
    ensures any_moment { (shops : List Image) (s : Folder) (f : List ℕ) → IsFound D.history folder.old shops s
        → s.log ≡ Some f → base.now ≡ s.image → LogGives f s.image shop.now
        → LeavesFolders D.history folder.old folder.new (GivesOneOf shops) }
    ensures ok { OnOk result ((shops : List Image) (s : Folder) (f : List ℕ) → IsFound D.history folder.old shops s
        → s.log ≡ Some f → base.now ≡ s.image → LogGives f s.image shop.now
        → RestsAlone D.history folder.new shop.now) }
    ensures own { OnOk result ((s : Folder) → D.history.held folder.old ≡ Some s → s.image ≡ base.now) }
{
    see_image(alloc, folder, base)?;
    land_found(folder, base, shop)?;
    Ok(())
}

/// Closes an open log, and lands it: IMAGE gets the image for which the log stands, of which memory has a copy. `base` is what the
/// log began with. If the log takes no more commits, or its name leads to another file, it is closed and an error is returned;
/// and so if IMAGE isn't the base any more.
pub(crate) fn end_log<F: LogFile, D: LogFolder<F>>(
    alloc: Global,
    folder: &mut D,
    log: Option<Log<F>>,
    base: &[[u8; 256]],
    shop: &[[u8; 256]],
) -> Result<(), LogFault>
    requires base { length base.now ≡ 683 }
    requires shop { length shop.now ≡ 683 }
    ensures any_moment { (used : Bool) → Stands D.history folder.old log used base.now shop.now
        → IsRenewing D.history folder.old log used folder.new shop.now }
    ensures ok { OnOk result ((used : Bool) → Stands D.history folder.old log used base.now shop.now
        → RestsAlone D.history folder.new shop.now) }
    // a closed one is left alone
    ensures over { is_shut D.history log ≡ true → IsErr result × IsLeftAlone D.history folder.old log folder.new }
    // and so is one whose name has gone
    ensures away { IfSome log (λ l. D.IsAway folder.old (log_file l) → IsErr result
        × IsLeftAlone D.history folder.old log folder.new) }
    // and so is one whose base IMAGE isn't any more
    ensures own { IfSome log (λ l. OnOk result ((s : Folder) (f : List ℕ) → D.history.held folder.old ≡ Some s
        → F.history.held (log_file l) ≡ Some f → s.image ≡ base.now)) }
{
    let Some(open_log) = log else {
        return Err(LogFault::File(io::ErrorKind::Other.into()));
    };
    let is_over = open_log.is_closed();
    folder.close_log(open_log.into_file())?;
    if is_over {
        return Err(LogFault::File(io::ErrorKind::Other.into()));
    }
    land_kept(alloc, folder, base, shop)
}
