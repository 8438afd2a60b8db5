//! The folder of an image, of a host.
ghost use Rattle.image_log.specs.life.Checks.{IsCounted};
ghost use Rattle.image_log.specs.life.Folders.{Acts, Folder, HasSector, IsImageWritten, IsNow, LeavesSector, Same, with_sector};
ghost use Rattle.image_log.specs.life.HostLogs.{untagged_folders};
ghost use Rattle.image_log.specs.life.LogRights.{MayKeepLogOf, MayReadLogOf, log_of};
ghost use Rattle.image_log.specs.life.Mixes.{IsTorn};
ghost use Rattle.image_log.specs.life.Tags.{HasTag, IsTagged, IsTaggedIfRoom, untagged};
ghost use Rattle.image_file.specs.paths.Rights.{Read as ToRead};
ghost use Rattle.image_file.specs.paths.Standing.{IsMissing};
ghost use Rattle.std.specs.Prelude.{◌≡◌, [], IfOk, IfSome, IsNone, List, OnOk, Some, false, length, slice_index_or, string_bytes, true, ℕ};

use crate::life::checks::Checks;
use crate::life::host_folder::HostFolder;
use crate::life::host_logs::HostLogs;
use crate::life::log_folder::LogFolder;
use crate::life::log_names::LogNames;
use crate::life::read_log::ReadLog;
use crate::life::system_log::SystemLog;
use crate::life::tags::{TAGGED, set_tag, take_tag};
use image_file::{HostFiles, Identity, opened_to_read, regular};
use std::cell::Cell;
use std::fs::OpenFile;
use std::io::{self, Read, Seek, SeekFrom};
use std::os::unix::fs::MetadataExt;

/// An image's open file, and the names of its log beside it. The file is read, written, synced and closed. It isn't
/// locked: the caller does that. Once a log was read or got its name, it alone is opened, replaced or removed by that name.
/// If the name leads to another file, or the log has another length, the call is an error, and does nothing. Each sync of the
/// names ends with a look at IMAGE's name: it is an error if that leads to another file, or the file has another length than
/// when it was passed in. What the files hold, the host says; here IMAGE has no tag. The tag stays until the log's name is
/// removed.
#[derive(Drop)]
pub struct ImageFolder<'a, R: HostFiles> {
    /// The open file, and the names.
    pub at: HostFolder<'a, R>,
    // which file IMAGE is
    image: Identity,
    // the file that is the log
    log: Option<Identity>,
    // whether IMAGE is tagged once its log has its name
    tags: bool,
    // whether a check of its own has failed
    checks: Checks,
}

/// The log's file, open to be read. None if there is no log.
pub(crate) fn log_to_read<R: HostFiles>(rt: &R, names: &LogNames) -> io::Result<Option<R::File>>
    requires { MayReadLogOf R.rights rt.now (string_bytes names.now.image) }
    ensures none { IsMissing R.stands rt.now (log_of (string_bytes names.now.image)) → IfOk result IsNone }
    ensures opened { IfOk result (λ log. IfSome log (R.traces.opened rt.now ToRead (log_of (string_bytes names.now.image)))) }
{
    match opened_to_read(rt, names.log()) {
        Ok(file) => Ok(Some(file)),
        Err(error) if error.kind() == io::ErrorKind::NotFound => Ok(None),
        Err(error) => Err(error),
    }
}

/// Reads the 683 sectors of an image's file.
pub(crate) fn read_sectors<F: Read + Seek>(file: &mut F, image: &mut [[u8; 256]]) -> io::Result<()>
    requires { length image.old ≡ 683 }
    ensures { length image.new ≡ length image.old }
{
    file.seek(SeekFrom::Start(0))?;
    file.read_exact(image.as_flattened_mut())
}

impl<'a, R: HostFiles> ImageFolder<'a, R> {
    /// The folder of the image whose file this is, open to be read and written. `InvalidInput` if it isn't a regular file, or
    /// has a second name, by which it would have another log.
    pub fn new(rt: &'a R, names: &'a LogNames, image: R::File) -> io::Result<ImageFolder<'a, R>>
        requires { MayKeepLogOf R.rights rt.now (string_bytes names.now.image) }
        ensures { IfOk result (λ folder. (folder.at.rt.now ≡ rt.now) × (folder.at.names.now ≡ names.now) × (folder.at.image ≡ image)
            × (folder.checks.failed ≡ false)) }
    {
        let found = regular(OpenFile::metadata(&image))?;
        if found.nlink() > 1 {
            return Err(io::ErrorKind::InvalidInput.into());
        }
        Ok(ImageFolder {
            at: HostFolder { rt, names, image },
            image: Identity::sized(&found, found.len()),
            log: None,
            tags: false,
            checks: Checks::new(),
        })
    }

    /// The same for a service, which tags IMAGE once its log has its name, and that is synced.
    pub fn tagging(mut self) -> ImageFolder<'a, R>
        ensures at { result.at ≡ self.entry.at }
        ensures checks { result.checks ≡ self.entry.checks }
        ensures tags { result.tags ≡ true }
    {
        self.tags = true;
        self
    }

    /// An open file as the log, or as one in the making that hasn't its name yet.
    fn log_of(&self, file: R::File, identity: Identity, named: bool) -> SystemLog<'a, R>
        ensures { result.file ≡ file }
    {
        SystemLog {
            rt: self.at.rt,
            name: self.at.names.log(),
            file,
            identity,
            named: Cell::new(named),
            checks: Checks::new(),
        }
    }

    /// An error if IMAGE's name doesn't lead to its file, or that has another length.
    fn see_image(&mut self) -> io::Result<()>
        ensures at { self.new.at ≡ self.old.at }
        ensures counted { IsCounted self.old.checks self.new.checks result }
    {
        let (rt, name) = (self.at.rt, self.at.names.image());
        self.checks.see_file(rt, name, self.image)
    }

    /// Takes this open file for the log. `NotFound` if another one was that.
    fn know(&mut self, file: &R::File) -> io::Result<Identity>
        ensures at { self.new.at ≡ self.old.at }
        ensures counted { IsCounted self.old.checks self.new.checks result }
    {
        let identity = self.checks.identity_of(file, self.log)?;
        self.log = Some(identity);
        Ok(identity)
    }
}

impl<R: HostLogs> ImageFolder<'_, R> {
    /// Writes sector 18/0 in the place of `before`, with the tag if that has it. `InvalidData`, and nothing is written, if a cut
    /// write could look like a tag, or the tag would hide other bytes.
    fn write_over(&mut self, before: &[u8; 256], sector: &[u8; 256]) -> io::Result<()>
        requires left { LeavesSector (R.folders _ _ _) self.old.at 357 before.now }
        requires held { (s : Folder) → (R.folders _ _ _).held self.old.at ≡ Some s → slice_index_or s.image 357 [] ≡ before.now }
        ensures acts { Acts (untagged_folders R.folders _ _ _) self.old self.new (with_sector 357 sector.now)
            (IsImageWritten 357 sector.now) result }
        ensures lent { (untagged_folders R.folders _ _ _).lent self.new ≡ (untagged_folders R.folders _ _ _).lent self.old }
        ensures kept { OnOk result (IsNow (R.folders _ _ _) self.old.at self.new.at (λ s t. HasTag s.image → HasTag t.image)) }
    {
        let mut bytes = *sector;
        self.checks.keep_tag(before, &mut bytes)?;
        R::write_sector(&mut self.at, TAGGED, &bytes)
    }

    /// Writes sector 18/0 in the place of `before`, of which the tag alone changes, and syncs that.
    fn change_tag(&mut self, before: &[u8; 256], sector: &[u8; 256]) -> io::Result<()>
        requires left { LeavesSector (R.folders _ _ _) self.old.at 357 before.now }
        requires held { (s : Folder) → (R.folders _ _ _).held self.old.at ≡ Some s → slice_index_or s.image 357 [] ≡ before.now }
        requires tag { (torn : List ℕ) → IsTorn before.now sector.now torn → untagged torn ≡ untagged before.now }
        ensures acts { Acts (untagged_folders R.folders _ _ _) self.old self.new (λ s. s) Same result }
        ensures lent { (untagged_folders R.folders _ _ _).lent self.new ≡ (untagged_folders R.folders _ _ _).lent self.old }
        ensures is { OnOk result (HasSector (R.folders _ _ _) self.old.at self.new.at 357 (λ bytes. bytes ≡ sector.now)) }
    {
        R::write_sector(&mut self.at, TAGGED, sector)?;
        R::sync_image(&mut self.at)
    }

    /// Puts the tag on IMAGE, and syncs that, unless other bytes stand there.
    fn put_tag(&mut self) -> io::Result<()>
        ensures acts { Acts (untagged_folders R.folders _ _ _) self.old self.new (λ s. s) Same result }
        ensures lent { (untagged_folders R.folders _ _ _).lent self.new ≡ (untagged_folders R.folders _ _ _).lent self.old }
        ensures tagged { OnOk result (HasSector (R.folders _ _ _) self.old.at self.new.at 357 IsTaggedIfRoom) }
    {
        let before = R::read_synced(&mut self.at, TAGGED)?;
        let mut sector = before;
        if !set_tag(&mut sector) {
            return Ok(());
        }
        if sector != before {
            return self.change_tag(&before, &sector);
        }
        Ok(())
    }

    /// Takes the tag off IMAGE, and syncs that. At an error a part of it may be there, which counts as the tag.
    fn take_off(&mut self) -> io::Result<()>
        ensures acts { Acts (untagged_folders R.folders _ _ _) self.old self.new (λ s. s) Same result }
        ensures untagged { OnOk result (HasSector (R.folders _ _ _) self.old.at self.new.at 357 (λ bytes. ¬ (IsTagged bytes))) }
    {
        let before = R::read_synced(&mut self.at, TAGGED)?;
        let mut sector = before;
        if take_tag(&mut sector) {
            return self.change_tag(&before, &sector);
        }
        Ok(())
    }
}

impl<'a, R: HostLogs> LogFolder<SystemLog<'a, R>> for ImageFolder<'a, R> {
    type Reader = ReadLog<'a, R>;

    ghost history = { untagged_folders R.folders _ _ _ };

    ghost IsAway = { λ _ file. IsMissing R.stands file.rt.now file.name.now };

    ghost IsTagged = { λ old new. old.tags ≡ true → HasSector (R.folders _ _ _) old.at new.at 357 IsTaggedIfRoom };

    ghost KeepsTag = { λ old new. IsNow (R.folders _ _ _) old.at new.at (λ s t. HasTag s.image → HasTag t.image) };

    ghost IsUntagged = { λ old new. IsNow (R.folders _ _ _) old.at new.at (λ s t. ¬ (HasTag t.image)) };

    fn read_image(&mut self, image: &mut [[u8; 256]]) -> io::Result<()> {
        R::read_image(&mut self.at, image)?;
        take_tag(&mut image[TAGGED]);
        Ok(())
    }

    fn write_sector(&mut self, index: usize, sector: &[u8; 256]) -> io::Result<()> {
        if index == TAGGED {
            let before = R::read_synced(&mut self.at, TAGGED)?;
            return self.write_over(&before, sector);
        }
        R::write_sector(&mut self.at, index, sector)
    }

    fn sync_image(&mut self) -> io::Result<()> {
        R::sync_image(&mut self.at)
    }

    fn read_log(&mut self) -> io::Result<Option<ReadLog<'a, R>>> {
        match R::read_log(&mut self.at)? {
            Some(log) => {
                self.know(&log.log.file)?;
                Ok(Some(log))
            }
            None => Ok(None),
        }
    }

    fn leave_log(&mut self, log: ReadLog<'a, R>) {
        R::leave_log(&mut self.at, &log);
    }

    fn open_log(&mut self) -> io::Result<SystemLog<'a, R>> {
        let file = R::open_log(&mut self.at)?;
        let identity = self.know(&file)?;
        Ok(self.log_of(file, identity, true))
    }

    fn close_log(&mut self, file: SystemLog<'a, R>) -> io::Result<()> {
        let mut file = file;
        R::return_log(&mut self.at, &mut file.file)?;
        self.checks.take(&file.checks)?;
        self.checks.see_file(file.rt, file.name, file.identity)
    }

    fn make_log(&mut self) -> io::Result<SystemLog<'a, R>> {
        let file = R::make_log(&mut self.at)?;
        let identity = self.checks.identity_of(&file, None)?;
        Ok(self.log_of(file, identity, false))
    }

    fn leave_making(&mut self, file: SystemLog<'a, R>) {
        let _ = self.checks.take(&file.checks);
        R::leave_making(&mut self.at, file.file);
    }

    fn name_log(&mut self, file: &SystemLog<'a, R>) -> io::Result<()> {
        let (rt, name) = (self.at.rt, self.at.names.log());
        self.checks.see_log(rt, name, self.log)?;
        R::name_log(&mut self.at, &file.file)?;
        self.log = Some(file.identity);
        file.named.set(true);
        Ok(())
    }

    fn tag(&mut self) -> io::Result<()> {
        if self.tags {
            return self.put_tag();
        }
        Ok(())
    }

    fn remove_log(&mut self) -> io::Result<()> {
        let (rt, name) = (self.at.rt, self.at.names.log());
        self.checks.see_log(rt, name, self.log)?;
        self.take_off()?;
        // two syncs lie between the two looks
        self.checks.see_log(rt, name, self.log)?;
        self.log = None;
        R::remove_log(&mut self.at)
    }

    fn sync_folder(&mut self) -> io::Result<()> {
        R::sync_folder(&mut self.at)?;
        self.see_image()
    }
}
