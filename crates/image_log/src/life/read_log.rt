//! The log in a folder of a host, open to be read.
use crate::life::host_logs::HostLogs;
use crate::life::open_log::OpenLog;
use crate::log_reader::LogReader;
use image_file::HostFiles;
use std::io;

/// The log in a folder of a host, open to be read. What it has, the host says.
#[derive(Drop)]
pub struct ReadLog<'a, R: HostFiles> {
    /// The host.
    pub rt: &'a R,
    /// The log's file.
    pub log: OpenLog<R::File>,
}

impl<R: HostLogs> LogReader for ReadLog<'_, R> {
    ghost bytes = { R.log_bytes };

    ghost has_failed = { R.log_has_failed };

    fn is_sized(&mut self) -> io::Result<bool> {
        R::is_sized(self)
    }

    fn is_marked(&mut self) -> io::Result<bool> {
        R::is_marked(self)
    }

    fn read_block(&mut self, q: usize) -> io::Result<[u8; 4096]> {
        R::read_block(self, q)
    }
}
