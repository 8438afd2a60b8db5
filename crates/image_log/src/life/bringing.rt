//! An image that is copied into IMAGE, and a log that is removed.
ghost use Rattle.std.specs.Prelude.{◌≡◌, ◌<◌, [], List, OnErr, OnOk, Some, ℕ, length, slice_index_or, true};
ghost use Rattle.d64_image.specs.Images.{Image};
ghost use Rattle.image_log.specs.life.Bringing.{IsBrought, IsLanding, RestsAlone};
ghost use Rattle.image_log.specs.life.Folders.{AllLeft, Folder, HasImage, LeavesFolders, with_image, with_sector};

use crate::life::log_folder::LogFolder;
use crate::log_file::LogFile;
use d64_image::SECTORS;
use std::io;

/// Writes a sector of IMAGE, if it differs from what IMAGE has there.
fn bring_sector<F: LogFile, D: LogFolder<F>>(
    folder: &mut D,
    index: usize,
    now: &[u8; 256],
    sector: &[u8; 256],
) -> io::Result<()>
    requires within { index < 683 }
    ensures any_moment { (log : List ℕ) (base shop : Image) → slice_index_or shop index [] ≡ sector.now
        → AllLeft D.history folder.old (IsLanding log base shop)
        → LeavesFolders D.history folder.old folder.new (IsLanding log base shop) }
    ensures landing { (log : List ℕ) (base shop : Image) → slice_index_or shop index [] ≡ sector.now
        → AllLeft D.history folder.old (IsLanding log base shop) → AllLeft D.history folder.new (IsLanding log base shop) }
    ensures ok { OnOk result ((s : Folder) → D.history.held folder.old ≡ Some s
        → slice_index_or s.image index [] ≡ now.now
        → D.history.held folder.new ≡ Some (with_sector index sector.now s)) }
    ensures cause { OnErr result (D.history.has_failed folder.new ≡ true) }
{
    if now == sector {
        return Ok(());
    }
    folder.write_sector(index, sector)
}

/// Writes each sector of IMAGE that differs from those of the image, and syncs IMAGE. `now` is what IMAGE has. The log
/// stays, and must be marked. A power loss leaves each byte of IMAGE as it was, or as the image has it.
pub(crate) fn write_changed<F: LogFile, D: LogFolder<F>>(
    folder: &mut D,
    now: &[[u8; 256]],
    shop: &[[u8; 256]],
) -> io::Result<()>
    requires now { length now.now ≡ 683 }
    requires shop { length shop.now ≡ 683 }
    ensures any_moment { (log : List ℕ) (base : Image) → AllLeft D.history folder.old (IsLanding log base shop.now)
        → LeavesFolders D.history folder.old folder.new (IsLanding log base shop.now) }
    ensures landing { (log : List ℕ) (base : Image) → AllLeft D.history folder.old (IsLanding log base shop.now)
        → AllLeft D.history folder.new (IsLanding log base shop.now) }
    ensures ok { OnOk result ((s : Folder) → D.history.held folder.old ≡ Some s → s.image ≡ now.now
        → (D.history.held folder.new ≡ Some (with_image shop.now s))
        × AllLeft D.history folder.new (HasImage (with_image shop.now s))) }
    ensures cause { OnErr result (D.history.has_failed folder.new ≡ true) }
{
    for i in 0..SECTORS {
        bring_sector(folder, i, &now[i], &shop[i])?;
    }
    folder.sync_image()
}

/// Removes the log's name, and syncs the names. IMAGE must be what the log gives.
pub(crate) fn unlog<F: LogFile, D: LogFolder<F>>(folder: &mut D) -> io::Result<()>
    ensures any_moment { (shop : Image) → AllLeft D.history folder.old (IsBrought shop)
        → LeavesFolders D.history folder.old folder.new (IsBrought shop) }
    ensures ok { OnOk result ((shop : Image) (s : Folder) → D.history.held folder.old ≡ Some s → s.image ≡ shop
        → AllLeft D.history folder.old (IsBrought shop) → RestsAlone D.history folder.new shop) }
    ensures cause { OnErr result (D.history.has_failed folder.new ≡ true) }
{
    folder.remove_log()?;
    folder.sync_folder()
}
