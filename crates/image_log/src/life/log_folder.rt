//! The folder in which an image stands, as its log's life sees it.
ghost use Rattle.std.specs.Prelude.{◌≡◌, ◌<◌, [], IfOk, IsErr, List, None, OnErr, OnOk, Some, length, true, ℕ, ⊤};
ghost use Rattle.image_log.specs.life.Folders.{Acts, Brings, Folder, FolderHistory, HasImage, HasNames, IsGivenUp, IsImageWritten, IsMaking, IsNaming, IsRemoving, IsReturned, LogOf, Same, being_made, named, unlogged, with_sector};
ghost use Rattle.image_log.specs.Files.{Only};
ghost use Rattle.image_log.specs.Readers.{IsOpened};

use crate::log_file::LogFile;
use crate::log_reader::LogReader;
use std::io;

/// The folder of an image. It has IMAGE, its log `IMAGE-log`, and `IMAGE-log.new`, a log in the making. Its history names
/// what it holds and what a power loss may leave of it, if that is known; of a real folder it isn't. While a file of it
/// is open, the folder speaks of the log as it was when the file was opened or got its name.
pub trait LogFolder<F: LogFile> {
    /// The log, open to be read.
    type Reader: LogReader;

    /// What a folder of this type holds, and what a power loss may leave of it.
    ghost history: { FolderHistory Self };

    // it is known that the log's name doesn't lead to this open file, which is the log
    ghost IsAway: { Self → F → Type 0 } = { λ _ _. ⊥ };

    // from the one to the other, IMAGE got the tag, kept it, or lost it
    ghost IsTagged: { Self → Self → Type 0 } = { λ _ _. ⊤ };

    ghost KeepsTag: { Self → Self → Type 0 } = { λ _ _. ⊤ };

    ghost IsUntagged: { Self → Self → Type 0 } = { λ _ _. ⊤ };

    /// Reads the 683 sectors of IMAGE.
    fn read_image(&mut self, image: &mut [[u8; 256]]) -> io::Result<()>
        requires sized { length image.old ≡ 683 }
        ensures sized { length image.new ≡ 683 }
        ensures image { OnOk result ((s : Folder) → history.held self.old ≡ Some s → image.new ≡ s.image) }
        ensures acts { Acts history self.old self.new (λ s. s) Same result };

    /// Writes the sector of IMAGE with this index. Until a sync a power loss leaves each byte of it as it was or as it is
    /// now, in any mix. An error does that too.
    fn write_sector(&mut self, index: usize, sector: &[u8; 256]) -> io::Result<()>
        requires within { index < 683 }
        ensures acts { Acts history self.old self.new (with_sector index sector.now) (IsImageWritten index sector.now) result }
        ensures lent { history.lent self.new ≡ history.lent self.old }
        ensures kept { OnOk result (KeepsTag self.old self.new) };

    /// Syncs IMAGE.
    fn sync_image(&mut self) -> io::Result<()>
        ensures { Brings history self.old self.new HasImage result };

    /// Opens the log to be read; None if there is none.
    fn read_log(&mut self) -> io::Result<Option<Self::Reader>>
        ensures log { IfOk result (λ log. (s : Folder) → history.held self.old ≡ Some s
            → IsOpened Self.Reader.bytes log s.log) }
        ensures acts { Acts history self.old self.new (λ s. s) Same result };

    /// Closes the log that was read.
    fn leave_log(&mut self, log: Self::Reader)
        ensures { IsGivenUp history self.old self.new (Self.Reader.has_failed log) };

    /// Opens the log to be changed.
    fn open_log(&mut self) -> io::Result<F>
        ensures file { IfOk result (LogOf history F.history self.old) }
        ensures lent { IfOk result (λ file. F.history.moment file ≡ history.lent self.new) }
        ensures acts { Acts history self.old self.new (λ s. s) Same result };

    /// Closes the log that was opened, or that got its name. An error also if its name leads to another file by then, or
    /// to none.
    fn close_log(&mut self, file: F) -> io::Result<()>
        ensures returned { IsReturned history F.history self.old self.new file result }
        ensures away { IsAway self.old file → IsErr result };

    /// Makes an empty `IMAGE-log.new` in place of one that may be there, and opens it.
    fn make_log(&mut self) -> io::Result<F>
        ensures empty { IfOk result (λ file. (f : List ℕ) → F.history.held file ≡ Some f → f ≡ []) }
        ensures known { IfOk result (λ file. (s : Folder) → history.held self.old ≡ Some s → F.history.held file ≡ Some []) }
        ensures acts { Acts history self.old self.new being_made IsMaking result };

    /// Closes a log in the making whose making failed. What has its name stays.
    fn leave_making(&mut self, file: F)
        ensures { IsGivenUp history self.old self.new (F.history.has_failed file) };

    /// Gives the name of the log to `IMAGE-log.new`, whose file this is, in place of one that may have it. The file must
    /// be synced: of another one nothing is said.
    fn name_log(&mut self, file: &F) -> io::Result<()>
        ensures lent { OnOk result (history.lent self.new ≡ F.history.moment file.now) }
        ensures acts { (f : List ℕ) → F.history.held file.now ≡ Some f → Only f (F.history.may_leave file.now)
            → Acts history self.old self.new (named f) (IsNaming f) result }
        ensures cause { OnErr result (history.has_failed self.new ≡ true) };

    /// Says in IMAGE that its log has the rest of it, if the folder does that; of what it holds nothing changes.
    fn tag(&mut self) -> io::Result<()>
        ensures acts { Acts history self.old self.new (λ s. s) Same result }
        ensures lent { history.lent self.new ≡ history.lent self.old }
        ensures tagged { OnOk result (IsTagged self.old self.new) };

    /// Takes away the log's name, and what `tag` said in IMAGE.
    fn remove_log(&mut self) -> io::Result<()>
        ensures acts { Acts history self.old self.new unlogged IsRemoving result }
        ensures untagged { OnOk result (IsUntagged self.old self.new) };

    /// Syncs the names. An error also if IMAGE's name leads to another file by then, as far as the folder looks.
    fn sync_folder(&mut self) -> io::Result<()>
        ensures { Brings history self.old self.new HasNames result };
}
