//! The log beside an image: it is landed before the image is written, and read in the place of the image.
ghost use Rattle.std.specs.Prelude.{◌≡◌, IfErr, IfOk, IsNone, false, string_bytes};
ghost use Rattle.opened_files.specs.Ends.{log_refusal as refusal_of};
ghost use Rattle.opened_files.specs.HostFiles.{HasNoLog, IsUnbegun, IsUnopened, IsUnread, IsUntaken};
ghost use Rattle.opened_files.specs.Rights.{MayChangeImage, MayReadFile, MayReadImage};
ghost use Rattle.image_log.specs.life.LogRights.{MayKeepLogOf, MayReadLogOf, log_of};
ghost use Rattle.image_file.specs.paths.Rights.{Look, May, MayRead, MayWrite};
ghost use Rattle.image_file.specs.paths.Standing.{AreOf, IsMissing};
ghost use Rattle.image_file.specs.paths.Traces.{IsOpened};

use crate::files::STANDARD_INPUT;
use crate::locks::{lock_exclusive, lock_shared};
use crate::losses::Loss;
use command_faults::CommandFault;
use d64_image::IMAGE_BYTES;
use image_file::{EndedFile, HostFiles, Locks, opened_to_change, opened_to_read, regular_at};
use image_log::{
    HostLogs, ImageFolder, ImageView, LogFault, LogNames, land_in, sync_names, untag_file, view_in,
};
use std::fs::OpenFile;
use std::io::{self, ErrorKind};
use std::os::unix::fs::MetadataExt;

/// What is reported for this fault of a log.
pub fn log_refusal(fault: &LogFault) -> CommandFault
    ensures { result ≡ refusal_of fault.now }
{
    match fault {
        LogFault::Unfit(_) => CommandFault::Log,
        LogFault::File(error) => CommandFault::of_io(error),
    }
}

/// Whether a file has as many bytes as an image.
pub(crate) fn is_sized<F: OpenFile>(file: &F) -> Result<bool, CommandFault>
    ensures { IfErr result IsUnread }
{
    let found = OpenFile::metadata(file)?;
    Ok(found.len() == IMAGE_BYTES as u64)
}

/// Refuses a file that hasn't as many bytes as an image: `ImageSize`.
pub fn see_size<F: OpenFile>(file: &F) -> Result<(), CommandFault>
    ensures { IfErr result IsUnopened }
{
    if is_sized(file)? {
        return Ok(());
    }
    Err(CommandFault::ImageSize)
}

/// Refuses a file that has a second name, by which it would have another log: `TwoNames`.
fn see_one_name<F: OpenFile>(file: &F) -> Result<(), CommandFault>
    ensures { IfErr result IsUntaken }
{
    let found = OpenFile::metadata(file)?;
    if found.nlink() > 1 {
        return Err(CommandFault::TwoNames);
    }
    Ok(())
}

/// Refuses the file at a path if it is mounted there by itself: a log beside it wouldn't be beside it elsewhere. `TwoNames`.
fn see_unmounted<R: HostFiles + AllocGlobal>(rt: &R, path: &str) -> Result<(), CommandFault>
    requires { May R.rights rt.now Look path.now }
    ensures { IfErr result IsUntaken }
{
    if rt.is_mounted(rt.alloc(), path)? {
        return Err(CommandFault::TwoNames);
    }
    Ok(())
}

/// Refuses the file at a path, open here, if it has a second name, or is mounted by itself: `TwoNames`.
pub(crate) fn see_one_place<F, R>(rt: &R, path: &str, file: &F) -> Result<(), CommandFault>
where
    F: OpenFile + Drop,
    R: HostFiles<File = F> + AllocGlobal,
    requires { May R.rights rt.now Look path.now }
    ensures { IfErr result IsUntaken }
{
    see_one_name(file)?;
    see_unmounted(rt, path)
}

/// Refuses a symbolic link to nowhere in the place of a log: `Log`. The image's file is locked, so that no log gets the name
/// between the two looks.
pub fn see_no_lost_log<R: HostFiles>(rt: &R, names: &LogNames) -> Result<(), CommandFault>
    requires { MayReadLogOf R.rights rt.now (string_bytes names.now.image) }
    ensures { IfErr result IsUnbegun }
{
    match rt.look_at(names.log()) {
        Err(error) if error.kind() == io::ErrorKind::NotFound => {}
        _ => return Ok(()),
    }
    if is_there(rt, names.log())? {
        return Err(CommandFault::Log);
    }
    Ok(())
}

/// Whether anything stands at a path, also a symbolic link that leads nowhere.
pub(crate) fn is_there<R: HostFiles>(rt: &R, path: &str) -> io::Result<bool>
    requires { May R.rights rt.now Look path.now }
    ensures { IsMissing R.stands rt.now path.now → IfOk result (λ there. there ≡ false) }
{
    rt.is_named(path)
}

/// The regular file at a path, opened to be changed, which this program has alone. `InUse` if another program has it;
/// `TwoNames` if it has a second name, or is mounted by itself.
pub fn opened_alone<F, R>(rt: &R, path: &str) -> Result<F, CommandFault>
where
    F: Locks + OpenFile + Drop,
    R: HostFiles<File = F> + AllocGlobal,
    requires { MayWrite R.rights rt.now path.now }
    ensures owned { IfOk result F.IsOwned }
    ensures shared { IfOk result F.IsShared }
    ensures bytes { IfOk result (λ image. AreOf R.stands rt.now path.now (F.unread image)) }
    ensures opened { IfOk result (IsOpened R.traces F.held rt.now path.now) }
    ensures err { IfErr result IsUntaken }
{
    let mut file = opened_to_change(rt, path)?;
    lock_exclusive(&mut file)?;
    see_one_place(rt, path, &file)?;
    Ok(file)
}

/// The regular file at a path, opened to be read, which nobody writes while it is read. `InUse`: nothing was read.
pub fn opened_shared<F, R>(rt: &R, path: &str) -> Result<F, CommandFault>
where
    F: Locks + Drop,
    R: HostFiles<File = F>,
    requires { MayRead R.rights rt.now path.now }
    ensures shared { IfOk result F.IsShared }
    ensures bytes { IfOk result (λ file. AreOf R.stands rt.now path.now (F.unread file)) }
    ensures err { IfErr result IsUnread }
{
    let mut file = opened_to_read(rt, path)?;
    lock_shared(&mut file)?;
    Ok(file)
}

/// Refuses the file at a path if a change couldn't open it to write it: `File`. Nothing is written. A pipe, a device and a
/// folder are refused without being opened.
fn see_writable<R: HostFiles>(rt: &R, path: &str) -> Result<(), CommandFault>
    requires { May R.rights rt.now Look path.now }
    ensures { IfErr result IsUnread }
{
    regular_at(rt, path)?;
    Ok(rt.see_writable(path)?)
}

/// Refuses the image at a path as a change of it would: `File` if it can't be written; `TwoNames` if it has a second name, or is
/// mounted by itself. Standard input, which no change takes, isn't refused. Nothing is written.
pub fn see_changeable<F, R>(rt: &R, path: &str) -> Result<(), CommandFault>
where
    F: Locks + OpenFile + Drop,
    R: HostFiles<File = F> + AllocGlobal,
    requires { MayReadImage R.rights rt.now path.now }
    ensures { IfErr result IsUntaken }
{
    if path == STANDARD_INPUT {
        return Ok(());
    }
    see_writable(rt, path)?;
    let file = opened_shared(rt, path)?;
    see_one_place(rt, path, &file)
}

/// Lands the log that stands beside the image at a path, which this program has alone. `Log` if it gives no image: nothing
/// was changed.
fn land_beside<F, R>(rt: &R, names: &LogNames, path: &str) -> Result<(), CommandFault>
where
    F: EndedFile + OpenFile + Drop,
    R: HostFiles<File = F> + HostLogs + AllocGlobal,
    requires image { MayWrite R.rights rt.now path.now }
    requires log { MayKeepLogOf R.rights rt.now (string_bytes names.now.image) }
    ensures { IfErr result IsUnbegun }
{
    see_no_lost_log(rt, names)?;
    let image = opened_to_change(rt, path)?;
    let mut folder = ImageFolder::new(rt, names, image)?;
    match land_in(rt.alloc(), &mut folder) {
        Ok(_) => Ok(()),
        Err(fault) => Err(log_refusal(&fault)),
    }
}

/// Ensures that no log stands beside the image at a path, whose file this program has alone. A log that stands there is
/// landed, and its removal is synced. A program that came before may have been killed after it removed the log. A file of
/// another size is no image, and its log is left alone. If a loss is accepted, the image isn't tagged then.
fn settle_log<F, R>(rt: &R, path: &str, image: &F, loss: Loss) -> Result<(), CommandFault>
where
    F: EndedFile + Locks + OpenFile + Drop,
    R: HostFiles<File = F> + HostLogs + AllocGlobal,
    requires owned { F.IsOwned image.now }
    requires rights { MayChangeImage R.rights rt.now path.now }
    ensures { IfErr result IsUnbegun }
{
    if !is_sized(image)? {
        return Ok(());
    }
    let names = LogNames::of(rt, rt.alloc(), path)?;
    accept_loss(rt, &names, path, loss)?;
    if is_there(rt, names.log())? {
        return land_beside(rt, &names, path);
    }
    Ok(sync_names(rt, &names)?)
}

/// Whether a log stands beside an image.
fn has_log<R: HostFiles>(rt: &R, names: &LogNames) -> io::Result<bool>
    requires { May R.rights rt.now Look (log_of (string_bytes names.now.image)) }
{
    match rt.look_at(names.log()) {
        Ok(_) => Ok(true),
        Err(error) if error.kind() == io::ErrorKind::NotFound => Ok(false),
        Err(error) => Err(error),
    }
}

/// Takes the tag off the image at a path, which this program has alone, if the loss of its log is accepted and none stands
/// beside it. That is synced. A file of another size is left alone.
pub fn accept_loss<R: HostFiles>(
    rt: &R,
    names: &LogNames,
    path: &str,
    loss: Loss,
) -> Result<(), CommandFault>
where
    R::File: EndedFile,
    requires image { MayWrite R.rights rt.now path.now }
    requires log { May R.rights rt.now Look (log_of (string_bytes names.now.image)) }
    ensures { IfErr result IsUnbegun }
{
    if loss == Loss::Refused || has_log(rt, names)? {
        return Ok(());
    }
    let mut image = opened_to_change(rt, path)?;
    if !is_sized(&image)? {
        return Ok(());
    }
    match untag_file(&mut image) {
        Ok(()) => Ok(()),
        Err(_) => Err(CommandFault::Device),
    }
}

/// The image's file at a path, which this program has alone and which is going to be written: a log that stood beside it
/// was landed, and none is there. `Log` if the log gives no image: nothing was changed. A file of another size is no
/// image, and its log is left alone. If a loss is accepted, the image isn't tagged then.
pub fn opened_and_landed<F, R>(rt: &R, path: &str, loss: Loss) -> Result<F, CommandFault>
where
    F: EndedFile + Locks + OpenFile + Drop,
    R: HostFiles<File = F> + HostLogs + AllocGlobal,
    requires { MayChangeImage R.rights rt.now path.now }
    ensures owned { IfOk result F.IsOwned }
    ensures shared { IfOk result F.IsShared }
    ensures bytes { IfOk result (λ image. AreOf R.stands rt.now path.now (F.unread image)) }
    ensures opened { IfOk result (IsOpened R.traces F.held rt.now path.now) }
    ensures err { IfErr result IsUnbegun }
{
    let image = opened_alone(rt, path)?;
    settle_log(rt, path, &image, loss)?;
    Ok(image)
}

/// Whether the name of a log is too long for a file, so that there is none.
fn is_overlong(fault: &LogFault) -> bool {
    match fault {
        LogFault::File(error) => error.kind() == ErrorKind::InvalidFilename,
        LogFault::Unfit(_) => false,
    }
}

/// The sectors that the log beside the image at a path gives. None if there is no log, or the image has another size.
/// `Log` if the log gives none, or is a link to nowhere; `TwoNames` if it gives them, and the image has a second name, or is
/// mounted by itself. The image's file is locked for reading: so none is begun while it is read.
pub fn logged_image<F, R>(
    rt: &R,
    path: &str,
    image: &F,
) -> Result<Option<Vec<[u8; 256]>>, CommandFault>
where
    F: OpenFile + Drop,
    R: HostFiles<File = F> + AllocGlobal,
    requires { MayReadFile R.rights rt.now path.now }
    ensures none { HasNoLog R.rights R.stands rt.now path.now → IfOk result IsNone }
    ensures err { IfErr result IsUnbegun }
{
    if !is_sized(image)? {
        return Ok(None);
    }
    let names = LogNames::of(rt, rt.alloc(), path)?;
    let again = opened_to_read(rt, path)?;
    let mut view = ImageView::new(rt, &names, again);
    match view_in(rt.alloc(), &mut view) {
        Ok(None) => {
            see_no_lost_log(rt, &names)?;
            Ok(None)
        }
        Ok(Some(shop)) => {
            see_one_place(rt, path, image)?;
            Ok(Some(shop))
        }
        Err(fault) if is_overlong(&fault) => Ok(None),
        Err(fault) => Err(log_refusal(&fault)),
    }
}
