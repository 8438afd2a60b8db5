//! The checks that a folder and its log make beside the calls of their host.
ghost use Rattle.std.specs.Prelude.{◌≡◌, IsErr, List, OnOk, false, true, ℕ};
ghost use Rattle.image_file.specs.paths.Rights.{Look, May};
ghost use Rattle.image_file.specs.paths.Standing.{IsMissing};
ghost use Rattle.image_log.specs.life.Checks.{IsCounted};
ghost use Rattle.image_log.specs.life.Mixes.{IsTorn};
ghost use Rattle.image_log.specs.life.Tags.{IsTagged, untagged};

use crate::life::log_names::{see_file, see_log};
use crate::life::tags::keep_tag;
use crate::log::LOG_BYTES;
use image_file::{HostFiles, Identity};
use std::fs::OpenFile;
use std::io;

/// The checks of a folder or of its log, and whether one has failed. An error that the host didn't give is one of these.
#[derive(Drop)]
pub(crate) struct Checks {
    failed: bool,
}

/// Which file an open log is, as long as a log. `NotFound` if another one is known.
fn identity_of<F: OpenFile>(file: &F, known: Option<Identity>) -> io::Result<Identity> {
    let found = OpenFile::metadata(file)?;
    let identity = Identity::sized(&found, LOG_BYTES as u64);
    if known.is_some() && known != Some(identity) {
        return Err(io::ErrorKind::NotFound.into());
    }
    Ok(identity)
}

impl Checks {
    /// None has failed yet.
    pub(crate) fn new() -> Checks
        ensures { result.failed ≡ false }
    {
        Checks { failed: false }
    }

    /// Counts what a check found.
    fn count<T>(&mut self, found: io::Result<T>) -> io::Result<T>
        ensures is { result ≡ found }
        ensures counted { IsCounted self.old self.new result }
    {
        if found.is_err() {
            self.failed = true;
        }
        found
    }

    /// An error if a path doesn't lead to this file, or that has another length.
    pub(crate) fn see_file<R: HostFiles>(
        &mut self,
        rt: &R,
        path: &str,
        file: Identity,
    ) -> io::Result<()>
        requires { May R.rights rt.now Look path.now }
        ensures away { IsMissing R.stands rt.now path.now → IsErr result }
        ensures counted { IsCounted self.old self.new result }
    {
        self.count(see_file(rt, path, file))
    }

    /// An error if a path doesn't lead to this log, or if that is none and the path leads to a file.
    pub(crate) fn see_log<R: HostFiles>(
        &mut self,
        rt: &R,
        path: &str,
        log: Option<Identity>,
    ) -> io::Result<()>
        requires { May R.rights rt.now Look path.now }
        ensures { IsCounted self.old self.new result }
    {
        self.count(see_log(rt, path, log))
    }

    /// Which file an open log is, as long as a log. `NotFound` if another one is known.
    pub(crate) fn identity_of<F: OpenFile>(
        &mut self,
        file: &F,
        known: Option<Identity>,
    ) -> io::Result<Identity>
        ensures { IsCounted self.old self.new result }
    {
        self.count(identity_of(file, known))
    }

    /// Makes a sector 18/0 ready to be written in the place of `before`: it gets the tag if that has it. `InvalidData` if it
    /// can't be written: the tag would hide its last eight bytes, or a cut write could look like a tag.
    pub(crate) fn keep_tag(&mut self, before: &[u8; 256], sector: &mut [u8; 256]) -> io::Result<()>
        ensures is { OnOk result (untagged sector.new ≡ sector.old) }
        ensures torn { OnOk result ((torn : List ℕ) → IsTorn before.now sector.new torn
            → IsTorn (untagged before.now) sector.old (untagged torn)) }
        ensures kept { OnOk result (IsTagged before.now → IsTagged sector.new) }
        ensures counted { IsCounted self.old self.new result }
    {
        if keep_tag(before, sector) {
            return Ok(());
        }
        self.count(Err(io::ErrorKind::InvalidData.into()))
    }

    /// Counts the checks of a log that is closed. `NotFound` if one has failed.
    pub(crate) fn take(&mut self, log: &Checks) -> io::Result<()>
        ensures failed { log.now.failed ≡ true → IsErr result }
        ensures passed { log.now.failed ≡ false → self.new ≡ self.old }
        ensures counted { IsCounted self.old self.new result }
    {
        if log.failed {
            return self.count(Err(io::ErrorKind::NotFound.into()));
        }
        Ok(())
    }
}
