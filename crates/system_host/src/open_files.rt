//! The files that are open, by their numbers.
use one_host::Handle;
use std::alloc::Global;
use std::fs::{File, Metadata};
use std::io::{self, ErrorKind};
use std::os::unix::fs::MetadataExt;

/// A file, and by what the system knows it.
#[derive(Drop)]
struct Open {
    file: File,
    device: u64,
    number: u64,
}

/// The files that are open. A number is not given again.
#[derive(Drop)]
pub(crate) struct OpenFiles {
    files: Vec<Option<Open>>,
}

impl OpenFiles {
    /// None.
    pub(crate) fn none(alloc: Global) -> OpenFiles {
        OpenFiles {
            files: Vec::new(alloc),
        }
    }

    /// The file that has a handle.
    pub(crate) fn file(&self, file: Handle) -> io::Result<&File> {
        match self.files.get(file.number) {
            Some(Some(open)) => Ok(&open.file),
            _ => Err(ErrorKind::NotFound.into()),
        }
    }

    /// The handle of the file that the system describes so, if it is open.
    fn known(&self, found: &Metadata) -> Option<Handle> {
        for number in 0..self.files.len() {
            if let Some(open) = &self.files[number] {
                if open.device == found.dev() && open.number == found.ino() {
                    return Some(Handle { number });
                }
            }
        }
        None
    }

    /// Whether the system describes this file.
    pub(crate) fn is(&self, file: Handle, found: &Metadata) -> bool {
        self.known(found) == Some(file)
    }

    /// The handle of a file that was opened: the one that it has, if it is open already.
    pub(crate) fn hold(&mut self, file: File) -> io::Result<Handle> {
        let found = file.metadata()?;
        if let Some(known) = self.known(&found) {
            return Ok(known);
        }
        let number = self.files.len();
        let (device, inode) = (found.dev(), found.ino());
        self.files.push(Some(Open {
            file,
            device,
            number: inode,
        }))?;
        Ok(Handle { number })
    }

    /// Closes a file.
    pub(crate) fn close(&mut self, file: Handle) {
        if let Some(open) = self.files.get_mut(file.number) {
            *open = None;
        }
    }
}
