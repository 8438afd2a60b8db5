//! The mark of a log that was found.
ghost use Rattle.std.specs.Prelude.{◌≡◌, ◌≤◌, ◌⊎◌, List, OnErr, OnOk, Some, ℕ, length, true};
ghost use Rattle.d64_image.specs.Images.{Image};
ghost use Rattle.image_log.specs.life.Bringing.{IsFound, IsMarkedIn, MarkTorn, marked_log};
ghost use Rattle.image_log.specs.life.Folders.{AllLeft, Folder, LeavesFolders, with_log};
ghost use Rattle.image_log.specs.life.Shops.{GivesOneOf};
ghost use Rattle.image_log.specs.Files.{Only};

use crate::blocks::BLOCK;
use crate::life::log_folder::LogFolder;
use crate::log::BLOCKS;
use crate::log_file::LogFile;
use std::io;

/// Writes the mark into a log's file, and syncs it.
pub(crate) fn write_mark<F: LogFile>(file: &mut F) -> io::Result<()>
    // what a power loss leaves is a log that it might have left before, with a part of the mark
    ensures left { (t : ℕ) (c : List ℕ) → t ≤ F.history.moment file.old → F.history.left_since file.new t c
        → F.history.left_since file.old t c ⊎ ((from : List ℕ) × F.history.may_leave file.old from × MarkTorn from c) }
    ensures outcomes { (c : List ℕ) → F.history.may_leave file.new c
        → (from : List ℕ) × F.history.may_leave file.old from × MarkTorn from c }
    ensures ok { OnOk result ((f : List ℕ) → F.history.held file.old ≡ Some f → 4194304 ≤ length f
        → (F.history.held file.new ≡ Some (marked_log f)) × Only (marked_log f) (F.history.may_leave file.new)) }
    ensures cause { OnErr result (F.history.has_failed file.new ≡ true) }
{
    file.write_at(BLOCK * BLOCKS, &[1])?;
    file.sync()
}

/// Marks the folder's log, and syncs that. A power loss on the way leaves a folder that gives what one gave before.
pub(crate) fn mark_found<F: LogFile, D: LogFolder<F>>(folder: &mut D) -> io::Result<()>
    ensures any_moment { (shops : List Image) (s : Folder) (f : List ℕ) → IsFound D.history folder.old shops s
        → s.log ≡ Some f → LeavesFolders D.history folder.old folder.new (GivesOneOf shops) }
    ensures ok { OnOk result ((shops : List Image) (s : Folder) (f : List ℕ) → IsFound D.history folder.old shops s
        → s.log ≡ Some f → (D.history.held folder.new ≡ Some (with_log (marked_log f) s))
        × AllLeft D.history folder.new (IsMarkedIn f s)) }
    ensures cause { OnErr result (D.history.has_failed folder.new ≡ true) }
{
    let mut file = folder.open_log()?;
    let marked = write_mark(&mut file);
    let closed = folder.close_log(file);
    marked?;
    closed
}
