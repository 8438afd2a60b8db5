//! The calls of a host on the folders in which images stand with their logs.
ghost use Rattle.std.specs.Prelude.{◌≡◌, ◌*◌, ◌↔◌, ◌≤◌, ◌<◌, [], IfOk, IfSome, IsTrue, List, Ok, OnErr, OnOk, Some, length, slice_index_or, string_bytes, true, ℕ, ⊤};
ghost use Rattle.image_file.specs.Remains.{IsBroughtWhole, IsEndedBehind, IsPutOver, Remains, unknown};
ghost use Rattle.image_file.specs.paths.Rights.{Make, Read as ToRead, Write as ToWrite};
ghost use Rattle.image_log.specs.Blocks.{block_at};
ghost use Rattle.image_log.specs.Files.{FileHistory, Lengthens, Only, SyncsBytes, WritesBytes};
ghost use Rattle.image_log.specs.Readers.{IsOpened, Reads};
ghost use Rattle.image_log.specs.Recovered.{is_marked as marked};
ghost use Rattle.image_log.specs.life.Folders.{Acts, Brings, Folder, HasImage, HasNames, IsGivenUp, IsImageWritten, IsMaking, IsNaming, IsRemoving, IsReturned, LeavesSector, LogOf, Same, being_made, named, unlogged, with_sector};

use crate::life::host_folder::HostFolder;
use crate::life::read_log::ReadLog;
use image_file::HostFiles;
use std::io;

/// The calls of a host on the open file of an image, on the names beside it, and on the files of logs. Here IMAGE is its file
/// as it is, with the tag if that is there.
pub trait HostLogs: HostFiles {
    ghost use Rattle.image_log.specs.life.HostLogs.{HostFolders, LogBytes, LogFailures};

    // what a folder holds, and what a power loss may leave of it
    ghost folders: { HostFolders Self Self.File };

    // the same of a log's file
    ghost logs: { FileHistory Self.File };

    // what a log that is read has, and whether one of its calls may have failed
    ghost log_bytes: { LogBytes Self Self.File };

    ghost log_has_failed: { LogFailures Self Self.File };

    // what is known of its open files
    ghost files: { Remains Self.File } = { unknown };

    // the bytes of one were synced
    ghost IsSynced: { Self.File → Type 0 } = { λ _. ⊤ };

    /// Reads the 683 sectors of IMAGE.
    fn read_image(folder: &mut HostFolder<'_, Self>, image: &mut [[u8; 256]]) -> io::Result<()>
        requires sized { length image.old ≡ 683 }
        ensures sized { length image.new ≡ 683 }
        ensures image { OnOk result ((s : Folder) → (folders _ _ _).held folder.old ≡ Some s → image.new ≡ s.image) }
        ensures acts { Acts (folders _ _ _) folder.old folder.new (λ s. s) Same result };

    /// Syncs IMAGE, and reads the sector with this index.
    fn read_synced(folder: &mut HostFolder<'_, Self>, index: usize) -> io::Result<[u8; 256]>
        requires within { index < 683 }
        ensures sector { IfOk result (λ sector. (s : Folder) → (folders _ _ _).held folder.new ≡ Some s
            → slice_index_or s.image index [] ≡ sector) }
        ensures left { IfOk result (LeavesSector (folders _ _ _) folder.new index) }
        ensures lent { (folders _ _ _).lent folder.new ≡ (folders _ _ _).lent folder.old }
        ensures acts { Acts (folders _ _ _) folder.old folder.new (λ s. s) Same result }
        ensures synced { IfOk result (λ _. (file : Self.File) × IsBroughtWhole {E = Unit} files folder.old.image file (Ok tt)) };

    /// Writes the sector of IMAGE with this index.
    fn write_sector(
        folder: &mut HostFolder<'_, Self>,
        index: usize,
        sector: &[u8; 256],
    ) -> io::Result<()>
        requires within { index < 683 }
        ensures acts { Acts (folders _ _ _) folder.old folder.new (with_sector index sector.now)
            (IsImageWritten index sector.now) result }
        ensures lent { (folders _ _ _).lent folder.new ≡ (folders _ _ _).lent folder.old }
        ensures put { IsPutOver files folder.old.image folder.new.image sector.now (256 * index) result };

    /// Syncs IMAGE.
    fn sync_image(folder: &mut HostFolder<'_, Self>) -> io::Result<()>
        ensures brings { Brings (folders _ _ _) folder.old folder.new HasImage result }
        ensures synced { IsBroughtWhole files folder.old.image folder.new.image result };

    /// Opens the log to be read; None if there is none.
    fn read_log<'a>(folder: &mut HostFolder<'a, Self>) -> io::Result<Option<ReadLog<'a, Self>>>
        ensures log { IfOk result (λ log. (s : Folder) → (folders _ _ _).held folder.old ≡ Some s
            → IsOpened log_bytes log s.log) }
        ensures acts { Acts (folders _ _ _) folder.old folder.new (λ s. s) Same result }
        ensures opened { IfOk result (λ log. IfSome log (λ log. Self.traces.opened folder.old.rt.now ToRead
            (string_bytes folder.old.names.now.log) log.log.file)) };

    /// Closes the log that was read.
    fn leave_log(folder: &mut HostFolder<'_, Self>, log: &ReadLog<'_, Self>)
        ensures { IsGivenUp (folders _ _ _) folder.old folder.new (log_has_failed log.now) };

    /// Opens the log to be changed.
    fn open_log(folder: &mut HostFolder<'_, Self>) -> io::Result<Self::File>
        ensures file { IfOk result (LogOf (folders _ _ _) logs folder.old) }
        ensures lent { IfOk result (λ file. logs.moment file ≡ (folders _ _ _).lent folder.new) }
        ensures acts { Acts (folders _ _ _) folder.old folder.new (λ s. s) Same result }
        ensures opened { IfOk result (Self.traces.opened folder.old.rt.now ToWrite (string_bytes folder.old.names.now.log)) };

    /// What was done to the log's file, which is about to be closed, was done to the folder's log.
    fn return_log(folder: &mut HostFolder<'_, Self>, file: &mut Self::File) -> io::Result<()>
        ensures { IsReturned (folders _ _ _) logs folder.old folder.new file.old result };

    /// Makes an empty `IMAGE-log.new` in place of one that may be there, for those who may use IMAGE, and opens it.
    fn make_log(folder: &mut HostFolder<'_, Self>) -> io::Result<Self::File>
        ensures empty { IfOk result (λ file. (f : List ℕ) → logs.held file ≡ Some f → f ≡ []) }
        ensures known { IfOk result (λ file. (s : Folder) → (folders _ _ _).held folder.old ≡ Some s → logs.held file ≡ Some []) }
        ensures acts { Acts (folders _ _ _) folder.old folder.new being_made IsMaking result }
        ensures made { IfOk result (λ file. Self.traces.opened folder.old.rt.now Make
            (string_bytes folder.old.names.now.making) file) };

    /// Closes a log in the making whose making failed.
    fn leave_making(folder: &mut HostFolder<'_, Self>, file: Self::File)
        ensures { IsGivenUp (folders _ _ _) folder.old folder.new (logs.has_failed file) };

    /// Gives the name of the log to `IMAGE-log.new`, whose file this is, in place of one that may have it.
    fn name_log(folder: &mut HostFolder<'_, Self>, file: &Self::File) -> io::Result<()>
        ensures lent { OnOk result ((folders _ _ _).lent folder.new ≡ logs.moment file.now) }
        ensures acts { (f : List ℕ) → logs.held file.now ≡ Some f → Only f (logs.may_leave file.now)
            → Acts (folders _ _ _) folder.old folder.new (named f) (IsNaming f) result }
        ensures cause { OnErr result ((folders _ _ _).has_failed folder.new ≡ true) }
        ensures renamed { OnOk result (Self.traces.renamed folder.old.rt.now (string_bytes folder.old.names.now.making)
            (string_bytes folder.old.names.now.log)) };

    /// Takes away the log's name.
    fn remove_log(folder: &mut HostFolder<'_, Self>) -> io::Result<()>
        ensures acts { Acts (folders _ _ _) folder.old folder.new unlogged IsRemoving result }
        ensures removed { OnOk result (Self.traces.removed folder.old.rt.now (string_bytes folder.old.names.now.log)) };

    /// Syncs the names.
    fn sync_folder(folder: &mut HostFolder<'_, Self>) -> io::Result<()>
        ensures brings { Brings (folders _ _ _) folder.old folder.new HasNames result }
        ensures synced { OnOk result (Self.traces.synced folder.old.rt.now (string_bytes folder.old.names.now.image)) };

    /// `LogFile::write_at`.
    fn write_at(log: &mut Self::File, at: usize, bytes: &[u8]) -> io::Result<()>
        ensures written { WritesBytes logs log.old log.new at bytes.now result }
        ensures put { IsPutOver files log.old log.new bytes.now at result };

    /// `LogFile::lengthen`.
    fn lengthen(log: &mut Self::File, size: usize) -> io::Result<()>
        ensures lengthened { Lengthens logs log.old log.new size result }
        ensures ended { IsEndedBehind files log.old log.new size result };

    /// `LogFile::sync`.
    fn sync_log(log: &mut Self::File) -> io::Result<()>
        ensures synced { SyncsBytes logs log.old log.new result }
        ensures brought { IsBroughtWhole files log.old log.new result };

    /// The same, of a log whose length hasn't changed since the last sync.
    fn sync_bytes(log: &mut Self::File) -> io::Result<()>
        ensures synced { SyncsBytes logs log.old log.new result }
        ensures brought { OnOk result (IsSynced log.new) };

    /// `LogReader::is_sized`.
    fn is_sized(log: &mut ReadLog<'_, Self>) -> io::Result<bool>
        ensures sized { IfOk result (λ sized. (f : List ℕ) → log_bytes log.old ≡ Some f
            → IsTrue sized ↔ (length f ≡ 4198400)) }
        ensures reads { Reads log_bytes log_has_failed log.old log.new result };

    /// `LogReader::is_marked`.
    fn is_marked(log: &mut ReadLog<'_, Self>) -> io::Result<bool>
        ensures mark { IfOk result (λ mark. (f : List ℕ) → log_bytes log.old ≡ Some f → mark ≡ marked f) }
        ensures reads { Reads log_bytes log_has_failed log.old log.new result };

    /// `LogReader::read_block`.
    fn read_block(log: &mut ReadLog<'_, Self>, q: usize) -> io::Result<[u8; 4096]>
        requires within { q < 1024 }
        ensures block { IfOk result (λ block. (f : List ℕ) → log_bytes log.old ≡ Some f → 4194304 ≤ length f
            → block ≡ block_at f q) }
        ensures reads { Reads log_bytes log_has_failed log.old log.new result };
}
