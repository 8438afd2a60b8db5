//! The names of an image, of its log, and of a log in the making.
ghost use Rattle.std.specs.Prelude.{◌≡◌, ◌++◌, IfOk, IfSome, IsErr, IsNone, OnOk, string_bytes, true};
ghost use Rattle.image_log.specs.life.LogRights.{MayForget, MayReadLogOf, log_of, making_of};
ghost use Rattle.image_file.specs.paths.Rights.{Look, May, Remove};
ghost use Rattle.image_file.specs.paths.Names.{IsSeenAs};
ghost use Rattle.image_file.specs.paths.Standing.{IsMissing};
ghost use Rattle.image_log.specs.life.Names.{IsLogForgotten, IsMakingSeen};

use crate::life::image_folder::log_to_read;
use crate::life::log_heads::{begins_as_log, head_of};
use crate::log::LOG_BYTES;
use image_file::{HostFiles, Identity, leads_to};
use std::alloc::Global;
use std::fs::OpenFile;
use std::io;

/// The paths of an image, of its log `IMAGE-log` and of a log in the making, `IMAGE-log.new`. If the image's path is a
/// symbolic link, the two logs stand beside the file that it leads to. So an image has one log, whatever its path.
#[derive(Drop)]
pub struct LogNames {
    image: String,
    log: String,
    making: String,
    ghost beside: { string_bytes log ≡ log_of (string_bytes image) },
    ghost made_beside: { string_bytes making ≡ making_of (string_bytes image) },
}

/// A path with these letters after it.
fn extended(alloc: Global, path: &str, end: &str) -> io::Result<String>
    ensures { IfOk result (λ name. string_bytes name ≡ path.now ++ end.now) }
{
    let mut name = String::new(alloc);
    name.push_str(path)?;
    name.push_str(end)?;
    Ok(name)
}

impl LogNames {
    /// The names for the image at this path. An error if memory is refused, or if the path can't be resolved.
    pub fn of<R: HostFiles>(rt: &R, alloc: Global, path: &str) -> io::Result<LogNames>
        requires { May R.rights rt.now Look path.now }
        ensures { IfOk result (λ names. R.rights.leads rt.now path.now (string_bytes names.image) ≡ true) }
    {
        let image = rt.resolve(alloc, path)?;
        let log = extended(alloc, image.as_str(), "-log")?;
        let making = extended(alloc, image.as_str(), "-log.new")?;
        Ok(LogNames { image, log, making })
    }

    /// The path of the image.
    pub fn image(&self) -> &str
        ensures { result.now ≡ string_bytes self.now.image }
    {
        self.image.as_str()
    }

    /// The path of its log.
    pub fn log(&self) -> &str
        ensures { result.now ≡ string_bytes self.now.log }
    {
        self.log.as_str()
    }

    /// The path of a log in the making.
    pub fn making(&self) -> &str
        ensures { result.now ≡ string_bytes self.now.making }
    {
        self.making.as_str()
    }
}

/// An error if a path doesn't lead to this file, or that has another length.
pub(crate) fn see_file<R: HostFiles>(rt: &R, path: &str, file: Identity) -> io::Result<()>
    requires { May R.rights rt.now Look path.now }
    ensures missing { IsMissing R.stands rt.now path.now → IsErr result }
    ensures seen { OnOk result (IsSeenAs R.traces rt.now path.now file) }
{
    if leads_to(rt, path, file) {
        return Ok(());
    }
    Err(io::ErrorKind::NotFound.into())
}

/// An error if anything stands at a path, also a symbolic link that leads nowhere.
fn see_none<R: HostFiles>(rt: &R, path: &str) -> io::Result<()>
    requires { May R.rights rt.now Look path.now }
{
    if rt.is_named(path)? {
        return Err(io::ErrorKind::AlreadyExists.into());
    }
    Ok(())
}

/// An error if a path doesn't lead to this log, or if that is none and the path leads to a file.
pub(crate) fn see_log<R: HostFiles>(rt: &R, path: &str, log: Option<Identity>) -> io::Result<()>
    requires { May R.rights rt.now Look path.now }
    ensures { OnOk result (IfSome log (IsSeenAs R.traces rt.now path.now)) }
{
    match log {
        Some(log) => see_file(rt, path, log),
        None => see_none(rt, path),
    }
}

/// Takes a file's name away. Whether it had one.
fn remove_if_there<R: HostFiles>(rt: &R, path: &str) -> io::Result<bool>
    requires { May R.rights rt.now Remove path.now }
    ensures { IfOk result (λ there. there ≡ true → R.traces.removed rt.now path.now) }
{
    match rt.remove(path) {
        Ok(()) => Ok(true),
        Err(error) if error.kind() == io::ErrorKind::NotFound => Ok(false),
        Err(error) => Err(error),
    }
}

/// Whether a log in the making stands at a path: a file that is empty, or as long as a log. A power loss may leave anything
/// in it.
fn is_making<R: HostFiles>(rt: &R, path: &str) -> io::Result<bool>
    requires { May R.rights rt.now Look path.now }
    ensures { IfOk result (λ making. making ≡ true → IsMakingSeen R.traces rt.now path.now) }
{
    match rt.look_at(path) {
        Ok(found) => Ok(found.is_file() && (found.len() == 0 || found.len() == LOG_BYTES as u64)),
        Err(error) if error.kind() == io::ErrorKind::NotFound => Ok(false),
        Err(error) => Err(error),
    }
}

/// Removes a log in the making, if there is one. Returns whether it was there. No log is lost: one in the making is never
/// read. Another file stays. At an error it may be there, or not.
pub fn forget_making<R: HostFiles>(rt: &R, names: &LogNames) -> io::Result<bool>
    requires look { May R.rights rt.now Look (making_of (string_bytes names.now.image)) }
    requires remove { May R.rights rt.now Remove (making_of (string_bytes names.now.image)) }
    ensures { IfOk result (λ removed. removed ≡ true → IsMakingSeen R.traces rt.now (making_of (string_bytes names.now.image))
        × R.traces.removed rt.now (making_of (string_bytes names.now.image))) }
{
    if !is_making(rt, names.making())? {
        return Ok(false);
    }
    remove_if_there(rt, names.making())
}

/// Syncs the names in the folder of an image.
pub fn sync_names<R: HostFiles>(rt: &R, names: &LogNames) -> io::Result<()>
    requires { May R.rights rt.now Look (string_bytes names.now.image) }
    ensures { OnOk result (R.traces.synced rt.now (string_bytes names.now.image)) }
{
    rt.sync_folder_of(names.image())
}

/// The log that stands beside an image; None if there is none. `AlreadyExists` if a file stands there that isn't as long as
/// a log, or doesn't begin as one, or a link that leads nowhere.
pub fn find_log<R: HostFiles>(rt: &R, names: &LogNames) -> io::Result<Option<Identity>>
    requires { MayReadLogOf R.rights rt.now (string_bytes names.now.image) }
    ensures none { IsMissing R.stands rt.now (log_of (string_bytes names.now.image)) → IfOk result IsNone }
{
    let Some(mut file) = log_to_read(rt, names)? else {
        see_none(rt, names.log())?;
        return Ok(None);
    };
    let found = OpenFile::metadata(&file)?;
    if found.len() == LOG_BYTES as u64 && begins_as_log(&head_of(&mut file)?) {
        return Ok(Some(Identity::sized(&found, LOG_BYTES as u64)));
    }
    Err(io::ErrorKind::AlreadyExists.into())
}

/// Removes this log and a log in the making, for an image that is to be replaced, and syncs that. An error, and the log
/// stays, if its name leads to another file by now, or a file has it though none was found. At another error the log may
/// be there, or not.
pub fn forget_log<R: HostFiles>(rt: &R, names: &LogNames, log: Option<Identity>) -> io::Result<()>
    requires { MayForget R.rights rt.now (string_bytes names.now.image) }
    ensures { OnOk result (IfSome log (IsLogForgotten R.traces rt.now (string_bytes names.now.image))
        × R.traces.synced rt.now (string_bytes names.now.image)) }
{
    forget_making(rt, names)?;
    see_log(rt, names.log(), log)?;
    if log.is_some() {
        rt.remove(names.log())?;
    }
    sync_names(rt, names)
}
