//! A log whose image is copied into IMAGE, and which is then removed.
ghost use Rattle.std.specs.Prelude.{◌≡◌, ◌⊎◌, IfErr, IfOk, List, OnErr, OnOk, Some, ℕ, length, true};
ghost use Rattle.d64_image.specs.Images.{Image};
ghost use Rattle.image_log.specs.Readers.{IsOpened};
ghost use Rattle.image_log.specs.life.Bringing.{IsFound, IsSettledAs, RestsAlone};
ghost use Rattle.image_log.specs.life.Faults.{IsMisfit};
ghost use Rattle.image_log.specs.declared.life.landing.LogFault.TheVariants.{File, Unfit};
ghost use Rattle.image_log.specs.life.Folders.{AllLeft, Folder, LeavesFolders};
ghost use Rattle.image_log.specs.life.Shops.{Gives, GivesOneOf, LogGives};

use crate::life::bringing::{unlog, write_changed};
use crate::life::judging::{Misfit, image_of_log};
use crate::life::log_folder::LogFolder;
use crate::life::marking::mark_found;
use crate::log_file::LogFile;
use std::io;
use thiserror::Error;

/// Why no image was found in a folder.
#[derive(Debug, Drop, Error)]
pub enum LogFault {
    /// The log gives none: nothing was changed.
    #[error("{0}")]
    Unfit(Misfit),
    /// A file, the folder or memory failed. What the folder gives is as it was.
    #[error("{0}")]
    File(io::Error),
}

impl From<Misfit> for LogFault {
    ghost from_gives = { λ e fault. fault ≡ Unfit e };

    fn from(e: Misfit) -> LogFault {
        LogFault::Unfit(e)
    }
}

impl From<io::Error> for LogFault {
    ghost from_gives = { λ e fault. fault ≡ File e };

    fn from(e: io::Error) -> LogFault {
        LogFault::File(e)
    }
}

/// Syncs IMAGE and the names: a program that came before may have been killed.
fn settle<F: LogFile, D: LogFolder<F>>(folder: &mut D) -> io::Result<()>
    ensures held { D.history.held folder.new ≡ D.history.held folder.old }
    ensures outcomes { (s : Folder) → D.history.may_leave folder.new s → D.history.may_leave folder.old s }
    ensures any_moment { LeavesFolders D.history folder.old folder.new (D.history.may_leave folder.old) }
    ensures ok { OnOk result ((s : Folder) → D.history.held folder.old ≡ Some s → AllLeft D.history folder.new (IsSettledAs s)) }
    ensures cause { OnErr result (D.history.has_failed folder.new ≡ true) }
{
    folder.sync_image()?;
    folder.sync_folder()
}

/// Settles the folder, reads IMAGE, and opens the log to be read, if there is one.
pub(crate) fn find<F: LogFile, D: LogFolder<F>>(
    folder: &mut D,
    now: &mut [[u8; 256]],
) -> io::Result<Option<D::Reader>>
    requires sized { length now.old ≡ 683 }
    ensures sized { length now.new ≡ 683 }
    ensures any_moment { LeavesFolders D.history folder.old folder.new (D.history.may_leave folder.old) }
    ensures outcomes { (s : Folder) → D.history.may_leave folder.new s → D.history.may_leave folder.old s }
    ensures read { IfOk result (λ log. (s : Folder) → D.history.held folder.old ≡ Some s
        → (D.history.held folder.new ≡ Some s) × (now.new ≡ s.image) × IsOpened D.Reader.bytes log s.log) }
    ensures settled { OnOk result ((s : Folder) → D.history.held folder.old ≡ Some s → AllLeft D.history folder.new (IsSettledAs s)) }
    ensures cause { OnErr result (D.history.has_failed folder.new ≡ true) }
{
    settle(folder)?;
    folder.read_image(now)?;
    folder.read_log()
}

/// Copies the image that a log gives into IMAGE, and removes the log: the mark, IMAGE, the name, each synced before the
/// next.
pub(crate) fn land_found<F: LogFile, D: LogFolder<F>>(
    folder: &mut D,
    now: &[[u8; 256]],
    shop: &[[u8; 256]],
) -> io::Result<()>
    requires now { length now.now ≡ 683 }
    requires shop { length shop.now ≡ 683 }
    ensures any_moment { (shops : List Image) (s : Folder) (f : List ℕ) → IsFound D.history folder.old shops s
        → s.log ≡ Some f → now.now ≡ s.image → LogGives f s.image shop.now
        → LeavesFolders D.history folder.old folder.new (GivesOneOf shops) }
    ensures ok { OnOk result ((shops : List Image) (s : Folder) (f : List ℕ) → IsFound D.history folder.old shops s
        → s.log ≡ Some f → now.now ≡ s.image → LogGives f s.image shop.now
        → RestsAlone D.history folder.new shop.now) }
    ensures cause { OnErr result (D.history.has_failed folder.new ≡ true) }
{
    mark_found(folder)?;
    write_changed(folder, now, shop)?;
    unlog(folder)
}

/// Checks the log that was found, and lands it if it gives an image.
fn land_log<F: LogFile, D: LogFolder<F>>(
    folder: &mut D,
    mut log: D::Reader,
    now: &[[u8; 256]],
    base: &mut [[u8; 256]],
    shop: &mut [[u8; 256]],
) -> Result<(), LogFault>
    requires now { length now.now ≡ 683 }
    requires base { length base.old ≡ 683 }
    requires shop { length shop.old ≡ 683 }
    ensures base { length base.new ≡ 683 }
    ensures sized { length shop.new ≡ 683 }
    ensures any_moment { (shops : List Image) (s : Folder) (f : List ℕ) → IsFound D.history folder.old shops s
        → D.Reader.bytes log ≡ Some f → s.log ≡ Some f → now.now ≡ s.image
        → LeavesFolders D.history folder.old folder.new (GivesOneOf shops) }
    ensures ok { OnOk result ((shops : List Image) (s : Folder) (f : List ℕ) → IsFound D.history folder.old shops s
        → D.Reader.bytes log ≡ Some f → s.log ≡ Some f → now.now ≡ s.image
        → RestsAlone D.history folder.new shop.new × Gives s shop.new) }
    ensures refused { IfErr result (λ e. IsMisfit e → (D.history.held folder.new ≡ D.history.held folder.old)
        × ((f : List ℕ) → D.Reader.bytes log ≡ Some f → (given : Image) → LogGives f now.now given → ⊥)) }
    ensures cause { IfErr result (λ e. IsMisfit e ⊎ (D.history.has_failed folder.new ≡ true)) }
{
    let judged = image_of_log(&mut log, now, base, shop);
    folder.leave_log(log);
    judged?;
    land_found(folder, now, shop)?;
    Ok(())
}

/// Lands a log that is there: the folder is settled, the log is checked, the image that it gives is copied into IMAGE,
/// and the log is removed. `shop` is that image, or IMAGE's own if there is no log. `base` is room for the log's base. A
/// power loss at any moment, and an error, leave a folder from which the next opening finds an image that it might have
/// found before. If the log gives no image, nothing was changed.
pub fn land<F: LogFile, D: LogFolder<F>>(
    folder: &mut D,
    now: &mut [[u8; 256]],
    base: &mut [[u8; 256]],
    shop: &mut [[u8; 256]],
) -> Result<(), LogFault>
    requires now { length now.old ≡ 683 }
    requires base { length base.old ≡ 683 }
    requires shop { length shop.old ≡ 683 }
    ensures now { length now.new ≡ 683 }
    ensures base { length base.new ≡ 683 }
    ensures shop { length shop.new ≡ 683 }
    ensures any_moment { (shops : List Image) (s : Folder) → D.history.held folder.old ≡ Some s → GivesOneOf shops s
        → AllLeft D.history folder.old (GivesOneOf shops)
        → LeavesFolders D.history folder.old folder.new (GivesOneOf shops) }
    ensures ok { OnOk result ((shops : List Image) (s : Folder) → D.history.held folder.old ≡ Some s → GivesOneOf shops s
        → AllLeft D.history folder.old (GivesOneOf shops)
        → RestsAlone D.history folder.new shop.new × Gives s shop.new) }
    ensures refused { IfErr result (λ e. IsMisfit e → (s : Folder) → D.history.held folder.old ≡ Some s
        → (D.history.held folder.new ≡ Some s) × ((given : Image) → Gives s given → ⊥)) }
    ensures cause { IfErr result (λ e. IsMisfit e ⊎ (D.history.has_failed folder.new ≡ true)) }
{
    match find(folder, now)? {
        Some(log) => land_log(folder, log, now, base, shop),
        None => {
            shop.copy_from_slice(now);
            Ok(())
        }
    }
}
