//! The calls of a system on the folders in which images stand with their logs.
ghost use Rattle.image_file.specs.Durable.{AllStays};
ghost use Rattle.image_log.specs.life.Unknown.{unknown_file, unknown_folder};
ghost use Rattle.std.specs.Prelude.{None, true};

use crate::life::host_folder::HostFolder;
use crate::life::host_logs::HostLogs;
use crate::life::image_folder::{log_to_read, read_sectors};
use crate::life::log_names::{forget_making, sync_names};
use crate::life::open_log::OpenLog;
use crate::life::read_log::ReadLog;
use crate::life::tagged_files::read_sector;
use crate::log_reader::LogReader;
use image_file::{EndedFile, PlainFiles, WritesAt, opened_to_change, private_mode};
use std::fs::OpenFile;
use std::io;

// Nothing is known of what the files of a system hold: they are trusted to satisfy these contracts.
impl<R: PlainFiles> HostLogs for R
where
    R::File: EndedFile + WritesAt,
{
    ghost folders = { λ _ _ _. unknown_folder };

    ghost logs = { unknown_file };

    ghost log_bytes = { λ _. None };

    ghost log_has_failed = { λ _. true };

    ghost files = { R.File.EndedFile.remains };

    ghost IsSynced = { λ file. AllStays R.File.WritesAt.held R.File.WritesAt.lasting file };

    fn read_image(folder: &mut HostFolder<'_, R>, image: &mut [[u8; 256]]) -> io::Result<()> {
        read_sectors(&mut folder.image, image)
    }

    fn read_synced(folder: &mut HostFolder<'_, R>, index: usize) -> io::Result<[u8; 256]> {
        folder.image.sync_whole()?;
        read_sector(&mut folder.image, index)
    }

    fn write_sector(
        folder: &mut HostFolder<'_, R>,
        index: usize,
        sector: &[u8; 256],
    ) -> io::Result<()> {
        folder.image.write_over(sector, 256 * index as u64)
    }

    fn sync_image(folder: &mut HostFolder<'_, R>) -> io::Result<()> {
        folder.image.sync_whole()
    }

    fn read_log<'a>(folder: &mut HostFolder<'a, R>) -> io::Result<Option<ReadLog<'a, R>>> {
        let rt = folder.rt;
        match log_to_read(rt, folder.names)? {
            Some(file) => Ok(Some(ReadLog {
                rt,
                log: OpenLog { file },
            })),
            None => Ok(None),
        }
    }

    fn leave_log(_folder: &mut HostFolder<'_, R>, _log: &ReadLog<'_, R>) {}

    fn open_log(folder: &mut HostFolder<'_, R>) -> io::Result<R::File> {
        opened_to_change(folder.rt, folder.names.log())
    }

    fn return_log(_folder: &mut HostFolder<'_, R>, _file: &mut R::File) -> io::Result<()> {
        Ok(())
    }

    fn make_log(folder: &mut HostFolder<'_, R>) -> io::Result<R::File> {
        let like = OpenFile::metadata(&folder.image)?;
        forget_making(folder.rt, folder.names)?;
        let file = folder
            .rt
            .make_file(folder.names.making(), private_mode(&like))?;
        file.guard_as(&like);
        Ok(file)
    }

    fn leave_making(_folder: &mut HostFolder<'_, R>, _file: R::File) {}

    fn name_log(folder: &mut HostFolder<'_, R>, _file: &R::File) -> io::Result<()> {
        folder.rt.rename(folder.names.making(), folder.names.log())
    }

    fn remove_log(folder: &mut HostFolder<'_, R>) -> io::Result<()> {
        folder.rt.remove(folder.names.log())
    }

    fn sync_folder(folder: &mut HostFolder<'_, R>) -> io::Result<()> {
        sync_names(folder.rt, folder.names)
    }

    fn write_at(log: &mut R::File, at: usize, bytes: &[u8]) -> io::Result<()> {
        log.write_over(bytes, at as u64)
    }

    fn lengthen(log: &mut R::File, size: usize) -> io::Result<()> {
        log.end_at(size as u64)
    }

    fn sync_log(log: &mut R::File) -> io::Result<()> {
        log.sync_whole()
    }

    fn sync_bytes(log: &mut R::File) -> io::Result<()> {
        WritesAt::sync(log)
    }

    fn is_sized(log: &mut ReadLog<'_, R>) -> io::Result<bool> {
        log.log.is_sized()
    }

    fn is_marked(log: &mut ReadLog<'_, R>) -> io::Result<bool> {
        log.log.is_marked()
    }

    fn read_block(log: &mut ReadLog<'_, R>, q: usize) -> io::Result<[u8; 4096]> {
        log.log.read_block(q)
    }
}
