//! The folder of a snapshot's image, in memory.
ghost use Rattle.std.specs.Prelude.{false};
ghost use Rattle.test_files.specs.KnownFolders.{log_files, snapshot_log_bytes, tagged_folders};

use crate::snapshots::host::Snapshot;
use crate::snapshots::open_file::SnapshotFile;
use image_log::{HostFolder, HostLogs, LogFile, LogFolder, LogReader, MemLog, OpenLog, ReadLog};
use std::io::{self, ErrorKind};
use std::mem;

/// The error of a folder of which nothing is known.
fn unknown() -> io::Error {
    ErrorKind::Unsupported.into()
}

// The image and its log are those of a folder in memory, which the open file of the image has.
impl<'s> HostLogs for Snapshot<'s> {
    ghost folders = { tagged_folders };

    ghost logs = { log_files };

    ghost log_bytes = { snapshot_log_bytes };

    ghost log_has_failed = { λ _. false };

    fn read_image(
        folder: &mut HostFolder<'_, Snapshot<'s>>,
        image: &mut [[u8; 256]],
    ) -> io::Result<()> {
        match &mut folder.image.folder {
            Some(known) => known.read_image(image),
            None => Err(unknown()),
        }
    }

    fn read_synced(
        folder: &mut HostFolder<'_, Snapshot<'s>>,
        index: usize,
    ) -> io::Result<[u8; 256]> {
        match &mut folder.image.folder {
            Some(known) => known.read_synced(index),
            None => Err(unknown()),
        }
    }

    fn write_sector(
        folder: &mut HostFolder<'_, Snapshot<'s>>,
        index: usize,
        sector: &[u8; 256],
    ) -> io::Result<()> {
        match &mut folder.image.folder {
            Some(known) => known.write_sector(index, sector)?,
            None => return Err(unknown()),
        }
        folder.image.show_sector(index, sector);
        Ok(())
    }

    fn sync_image(folder: &mut HostFolder<'_, Snapshot<'s>>) -> io::Result<()> {
        match &mut folder.image.folder {
            Some(known) => known.sync_image(),
            None => Err(unknown()),
        }
    }

    fn read_log<'a>(
        folder: &mut HostFolder<'a, Snapshot<'s>>,
    ) -> io::Result<Option<ReadLog<'a, Snapshot<'s>>>> {
        let rt = folder.rt;
        let read = match &mut folder.image.folder {
            Some(known) => known.read_log()?,
            None => return Err(unknown()),
        };
        match read {
            Some(bytes) => {
                let file = SnapshotFile::of_read(rt.alloc, rt.store, bytes);
                let log = OpenLog { file };
                Ok(Some(ReadLog { rt, log }))
            }
            None => Ok(None),
        }
    }

    fn leave_log(_folder: &mut HostFolder<'_, Snapshot<'s>>, _log: &ReadLog<'_, Snapshot<'s>>) {}

    fn open_log(folder: &mut HostFolder<'_, Snapshot<'s>>) -> io::Result<SnapshotFile<'s>> {
        let rt = folder.rt;
        let log = match &mut folder.image.folder {
            Some(known) => known.open_log()?,
            None => return Err(unknown()),
        };
        Ok(SnapshotFile::of_log(rt.alloc, rt.store, log))
    }

    fn return_log(
        folder: &mut HostFolder<'_, Snapshot<'s>>,
        file: &mut SnapshotFile<'s>,
    ) -> io::Result<()> {
        let log = mem::replace(&mut file.log, MemLog::new(folder.rt.alloc));
        match &mut folder.image.folder {
            Some(known) => known.close_log(log),
            None => Err(unknown()),
        }
    }

    fn make_log(folder: &mut HostFolder<'_, Snapshot<'s>>) -> io::Result<SnapshotFile<'s>> {
        let rt = folder.rt;
        let log = match &mut folder.image.folder {
            Some(known) => known.make_log()?,
            None => return Err(unknown()),
        };
        Ok(SnapshotFile::of_log(rt.alloc, rt.store, log))
    }

    fn leave_making(folder: &mut HostFolder<'_, Snapshot<'s>>, file: SnapshotFile<'s>) {
        if let Some(known) = &mut folder.image.folder {
            known.leave_making(file.log);
        }
    }

    fn name_log(
        folder: &mut HostFolder<'_, Snapshot<'s>>,
        file: &SnapshotFile<'s>,
    ) -> io::Result<()> {
        folder.rt.show_log(folder.names.log());
        match &mut folder.image.folder {
            Some(known) => known.name_log(&file.log),
            None => Err(unknown()),
        }
    }

    fn remove_log(folder: &mut HostFolder<'_, Snapshot<'s>>) -> io::Result<()> {
        match &mut folder.image.folder {
            Some(known) => known.remove_log()?,
            None => return Err(unknown()),
        }
        let _ = folder.rt.store.rename(folder.names.log(), "");
        Ok(())
    }

    fn sync_folder(folder: &mut HostFolder<'_, Snapshot<'s>>) -> io::Result<()> {
        match &mut folder.image.folder {
            Some(known) => known.sync_folder(),
            None => Err(unknown()),
        }
    }

    fn write_at(log: &mut SnapshotFile<'s>, at: usize, bytes: &[u8]) -> io::Result<()> {
        log.log.write_at(at, bytes)
    }

    fn lengthen(log: &mut SnapshotFile<'s>, size: usize) -> io::Result<()> {
        log.log.lengthen(size)
    }

    fn sync_log(log: &mut SnapshotFile<'s>) -> io::Result<()> {
        log.log.sync()
    }

    fn sync_bytes(log: &mut SnapshotFile<'s>) -> io::Result<()> {
        log.log.sync()
    }

    fn is_sized(log: &mut ReadLog<'_, Snapshot<'s>>) -> io::Result<bool> {
        log.log.file.read.is_sized()
    }

    fn is_marked(log: &mut ReadLog<'_, Snapshot<'s>>) -> io::Result<bool> {
        log.log.file.read.is_marked()
    }

    fn read_block(log: &mut ReadLog<'_, Snapshot<'s>>, q: usize) -> io::Result<[u8; 4096]> {
        log.log.file.read.read_block(q)
    }
}
