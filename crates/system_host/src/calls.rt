//! What a call of the trait makes of those of the system.
ghost use Rattle.std.specs.Prelude.{◌≡◌, ◌≤◌, IfOk, length};

use one_host::{Access, Attributes, Found, Kind, Lock};
use std::alloc::Global;
use std::fs::{File, Metadata, OpenOptions, Permissions, TryLockError};
use std::io::{self, ErrorKind};
use std::os::unix::fs::{FileExt, MetadataExt, OpenOptionsExt, PermissionsExt, fchown};
use std::rt::Files;

/// What the system says of a file.
fn attributes_of(found: &Metadata) -> Attributes {
    Attributes {
        kind: if found.is_file() {
            Kind::Regular
        } else if found.is_dir() {
            Kind::Folder
        } else {
            Kind::Other
        },
        bytes: found.len(),
        mode: found.mode(),
        owner: found.uid(),
        group: found.gid(),
    }
}

/// What stands at a path.
pub(crate) fn found_at<R: Files>(rt: &R, path: &str) -> io::Result<Found> {
    match rt.metadata(path) {
        Ok(found) => Ok(Found::File(attributes_of(&found))),
        Err(error) if error.kind() == ErrorKind::NotFound => match rt.symlink_metadata(path) {
            Ok(_) => Ok(Found::Nowhere),
            Err(error) if error.kind() == ErrorKind::NotFound => Ok(Found::Nothing),
            Err(error) => Err(error),
        },
        Err(error) => Err(error),
    }
}

/// The file at a path, opened.
pub(crate) fn opened<R: Files>(rt: &R, path: &str, access: Access) -> io::Result<R::File> {
    match access {
        Access::Read => File::open(rt, path),
        Access::Change => OpenOptions::new().read(true).write(true).open(rt, path),
        Access::Write => OpenOptions::new().write(true).open(rt, path),
    }
}

/// A file that is made at a path.
pub(crate) fn made<R: Files>(rt: &R, path: &str, mode: u32) -> io::Result<R::File> {
    OpenOptions::new()
        .read(true)
        .write(true)
        .create_new(true)
        .mode(mode)
        .open(rt, path)
}

/// Gives what stands at a path another name, at which nothing stood when that was looked at.
fn rename_free<R: Files>(rt: &R, from: &str, to: &str) -> io::Result<()> {
    match rt.symlink_metadata(to) {
        Err(error) if error.kind() == ErrorKind::NotFound => rt.rename(from, to),
        Err(error) => Err(error),
        Ok(_) => Err(ErrorKind::AlreadyExists.into()),
    }
}

/// Gives what stands at a path a name at which nothing stands.
pub(crate) fn give_free_name<R: Files>(rt: &R, from: &str, to: &str) -> io::Result<()> {
    match rt.hard_link(from, to) {
        Ok(()) => rt.remove_file(from),
        Err(error) if error.kind() == ErrorKind::AlreadyExists => Err(error),
        Err(_) => rename_free(rt, from, to),
    }
}

/// The path of the file to which a path leads; the path itself if there is no file, or if the system doesn't know.
pub(crate) fn resolved<R: Files>(rt: &R, alloc: Global, path: &str) -> io::Result<String> {
    match rt.canonicalize(alloc, path) {
        Ok(found) => Ok(found.into_string()),
        Err(error) => match error.kind() {
            ErrorKind::NotFound | ErrorKind::Unsupported => {
                let mut copy = String::new(alloc);
                copy.push_str(path)?;
                Ok(copy)
            }
            _ => Err(error),
        },
    }
}

/// The folder in which the file at a path stands.
pub(crate) fn folder_of(path: &str) -> &str {
    match path.rsplit_once('/') {
        None => ".",
        Some(("", _)) => "/",
        Some((folder, _)) => folder,
    }
}

/// Reads bytes from a place on, until there is no room or nothing comes.
pub(crate) fn filled(file: &File, at: u64, to: &mut [u8]) -> io::Result<usize>
    ensures sized { length to.new ≡ length to.old }
    ensures within { IfOk result (λ count. count ≤ length to.new) }
{
    let mut count = 0usize;
    for _turn in 0..to.len() {
        match file.read_at(&mut to[count..], at.saturating_add(count as u64)) {
            Ok(0) => return Ok(count),
            Ok(more) => count += more,
            Err(error) if error.kind() == ErrorKind::Interrupted => {}
            Err(error) => return Err(error),
        }
    }
    Ok(count)
}

/// The mode of a file that has another group than the one like which it is guarded: its group may do what all others may.
fn ungrouped(mode: u32) -> u32 {
    mode & 0o606 | mode << 3 & 0o060 & mode
}

/// Guards a file as another. A file that can't be given away has its maker as its owner, and a system without modes keeps its
/// own.
pub(crate) fn guard_as(file: &File, like: &Attributes) {
    let (owner, group) = (Some(like.owner), Some(like.group));
    let mode = if fchown(file, owner, group).is_ok() || fchown(file, None, group).is_ok() {
        like.mode & 0o666
    } else {
        ungrouped(like.mode)
    };
    let _ = file.set_permissions(Permissions::from_mode(mode));
}

/// Asks for a lock, and doesn't wait.
pub(crate) fn locked(file: &File, how: Lock) -> io::Result<bool> {
    let outcome = match how {
        Lock::Free => return file.unlock().map(|_| true),
        Lock::Shared => file.try_lock_shared(),
        Lock::Alone => file.try_lock(),
    };
    match outcome {
        Ok(()) => Ok(true),
        Err(TryLockError::WouldBlock) => Ok(false),
        Err(TryLockError::Error(error)) => Err(error),
    }
}
