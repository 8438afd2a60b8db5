//! A log's file of the system.
ghost use Rattle.std.proofs.Props.{props};
ghost use Rattle.image_file.specs.paths.Rights.{Look, May};
ghost use Rattle.image_log.specs.life.Untagged.{asked_in};

use crate::life::checks::Checks;
use crate::life::host_logs::HostLogs;
use crate::log_file::LogFile;
use image_file::{HostFiles, Identity};
use std::cell::Cell;
use std::io;

/// A log's file, open. Once it has the name of the log, each sync checks that the name still leads to it, and that it is as
/// long as a log. What it holds, the host says.
#[derive(Drop)]
pub struct SystemLog<'a, R: HostFiles> {
    /// The host.
    pub rt: &'a R,
    /// The log's name.
    pub name: &'a str,
    /// The file.
    pub file: R::File,
    // which file it is, as long as a log
    pub(crate) identity: Identity,
    // whether it has the name
    pub(crate) named: Cell<bool>,
    // whether a check of its name has failed
    pub(crate) checks: Checks,
    // the log's name may be looked at
    ghost looks: { May R.rights rt.now Look name.now } by { Prim.hlevel props },
}

impl<R: HostLogs> LogFile for SystemLog<'_, R> {
    ghost history = { asked_in (λ log. log.file) (λ log. log.checks.failed) R.logs };

    fn write_at(&mut self, at: usize, bytes: &[u8]) -> io::Result<()> {
        R::write_at(&mut self.file, at, bytes)
    }

    fn lengthen(&mut self, size: usize) -> io::Result<()> {
        R::lengthen(&mut self.file, size)
    }

    fn sync(&mut self) -> io::Result<()> {
        if !self.named.get() {
            return R::sync_log(&mut self.file);
        }
        R::sync_bytes(&mut self.file)?;
        self.checks.see_file(self.rt, self.name, self.identity)
    }
}
