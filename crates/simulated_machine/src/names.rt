//! The names of a folder.
use crate::bytes::text_of;
use std::alloc::Global;
use std::io;

/// A name: the file that has it, and the one that has it on the disk.
#[derive(Drop)]
pub(crate) struct Name {
    path: String,
    pub(crate) now: Option<usize>,
    pub(crate) disk: Option<usize>,
}

/// A change of a name that wasn't synced.
#[derive(Clone, Copy)]
pub(crate) enum NameChange {
    /// A file got it.
    Made { name: usize, file: usize },
    /// It was taken away.
    Removed { name: usize },
    /// Its file got another one in its place.
    Renamed { from: usize, to: usize },
}

impl Name {
    /// The same name. The file that has it has it on the disk, too.
    pub(crate) fn copy(&self, alloc: Global) -> io::Result<Name> {
        Ok(Name {
            path: text_of(alloc, self.path.as_str())?,
            now: self.now,
            disk: self.now,
        })
    }
}

/// The number of a name.
pub(crate) fn position(names: &[Name], path: &str) -> Option<usize> {
    for (number, name) in names.iter().enumerate() {
        if name.path.as_str() == path {
            return Some(number);
        }
    }
    None
}

/// The number of a name, which no file may have.
pub(crate) fn added(alloc: Global, names: &mut Vec<Name>, path: &str) -> io::Result<usize> {
    if let Some(number) = position(names.as_slice(), path) {
        return Ok(number);
    }
    let number = names.len();
    names.push(Name {
        path: text_of(alloc, path)?,
        now: None,
        disk: None,
    })?;
    Ok(number)
}

/// The file that has a name.
pub(crate) fn file_at(names: &[Name], path: &str) -> Option<usize> {
    let number = position(names, path)?;
    names.get(number)?.now
}

/// The file that a name has on the disk.
fn disk_at(names: &[Name], number: usize) -> Option<usize> {
    names.get(number)?.disk
}

/// Gives a name a file on the disk, or takes it away.
fn set_disk(names: &mut [Name], number: usize, file: Option<usize>) {
    if let Some(name) = names.get_mut(number) {
        name.disk = file;
    }
}

/// Gives a name a file, or takes it away.
pub(crate) fn set_now(names: &mut [Name], number: usize, file: Option<usize>) {
    if let Some(name) = names.get_mut(number) {
        name.now = file;
    }
}

/// Makes a change on the disk. A file that isn't there gets no other name.
pub(crate) fn bring(names: &mut [Name], change: NameChange) {
    match change {
        NameChange::Made { name, file } => set_disk(names, name, Some(file)),
        NameChange::Removed { name } => set_disk(names, name, None),
        NameChange::Renamed { from, to } => {
            let file = disk_at(names, from);
            if file.is_some() {
                set_disk(names, to, file);
                set_disk(names, from, None);
            }
        }
    }
}

/// Each name leads where it leads on the disk.
pub(crate) fn restart(names: &mut [Name]) {
    for name in names {
        name.now = name.disk;
    }
}

/// Whether a file has a name, or may have one after a loss of power.
pub(crate) fn is_named(names: &[Name], waiting: &[NameChange], file: usize) -> bool {
    for name in names {
        if name.now == Some(file) || name.disk == Some(file) {
            return true;
        }
    }
    for change in waiting {
        if let NameChange::Made { file: made, .. } = *change {
            if made == file {
                return true;
            }
        }
    }
    false
}

/// The first path at which a file stands; empty if it has no name.
pub(crate) fn path_of(names: &[Name], file: usize) -> &str {
    for name in names {
        if name.now == Some(file) {
            return name.path.as_str();
        }
    }
    ""
}
