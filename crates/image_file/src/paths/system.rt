//! The calls of the system about files, by their paths.
ghost use Rattle.std.specs.Prelude.{◌≡◌, Bool, IfOk, IsErr, List, OnOk, ℕ, false, string_bytes, true};
ghost use Rattle.image_file.specs.paths.Rights.{Look, Make, May, Read as ToRead, Remove, Replace, Rights, Use, Write as ToWrite};
ghost use Rattle.image_file.specs.paths.Standing.{AreOf, IsMissing, Stands, Unsaid};
ghost use Rattle.image_file.specs.paths.Traces.{Traces, untraced};

use crate::paths::mounts::is_mount_point;
use std::alloc::Global;
use std::fs::{File, Metadata, OpenFile, OpenOptions};
use std::io::{self, ErrorKind, Read, Seek};
use std::os::unix::fs::OpenOptionsExt;
use std::rt::Files;

/// The folder in which the file at a path stands.
pub(crate) fn folder_of(path: &str) -> &str {
    match path.rsplit_once('/') {
        None => ".",
        Some(("", _)) => "/",
        Some((folder, _)) => folder,
    }
}

/// A path as a text of its own.
fn copied(alloc: Global, path: &str) -> io::Result<String> {
    let mut copy = String::new(alloc);
    copy.push_str(path)?;
    Ok(copy)
}

/// Gives what stands at a path another name, at which nothing stood when that was looked at.
fn rename_free<R: Files>(rt: &R, from: &str, to: &str) -> io::Result<()> {
    match rt.symlink_metadata(to) {
        Err(error) if error.kind() == ErrorKind::NotFound => rt.rename(from, to),
        Err(error) => Err(error),
        Ok(_) => Err(ErrorKind::AlreadyExists.into()),
    }
}

/// A system with files. Each call does what that of `HostFiles` does which has its name, and has its contract.
pub trait SystemFiles {
    /// An open file.
    type File: Read + Seek + OpenFile + Drop;

    // as of a host
    ghost rights: { Rights Self };

    ghost stands: { Self → List ℕ → Stands } = { λ _ _. Unsaid };

    ghost traces: { Traces Self Self.File } = { untraced };

    /// `HostFiles::look_at`.
    fn look_at(&self, path: &str) -> io::Result<Metadata>
        requires { May rights self.now Look path.now }
        ensures missing { IsMissing stands self.now path.now → IsErr result }
        ensures seen { IfOk result (traces.seen self.now path.now) };

    /// `HostFiles::is_named`.
    fn is_named(&self, path: &str) -> io::Result<bool>
        requires { May rights self.now Look path.now }
        ensures { IsMissing stands self.now path.now → IfOk result (λ named. named ≡ false) };

    /// `HostFiles::resolve`.
    fn resolve(&self, alloc: Global, path: &str) -> io::Result<String>
        requires { May rights self.now Look path.now }
        ensures { IfOk result (λ found. rights.leads self.now path.now (string_bytes found) ≡ true) };

    /// `HostFiles::sync_folder_of`.
    fn sync_folder_of(&self, path: &str) -> io::Result<()>
        requires { May rights self.now Look path.now }
        ensures { OnOk result (traces.synced self.now path.now) };

    /// `HostFiles::open_to_read`.
    fn open_to_read(&self, path: &str) -> io::Result<Self::File>
        requires { May rights self.now ToRead path.now }
        ensures missing { IsMissing stands self.now path.now → IsErr result }
        ensures bytes { IfOk result (λ file. AreOf stands self.now path.now (Self.File.Read.remaining file)) }
        ensures opened { IfOk result (λ file. traces.opened self.now ToRead path.now file) };

    /// `HostFiles::open_to_change`.
    fn open_to_change(&self, path: &str) -> io::Result<Self::File>
        requires { May rights self.now ToWrite path.now }
        ensures missing { IsMissing stands self.now path.now → IsErr result }
        ensures bytes { IfOk result (λ file. AreOf stands self.now path.now (Self.File.Read.remaining file)) }
        ensures opened { IfOk result (λ file. traces.opened self.now ToWrite path.now file) };

    /// `HostFiles::see_writable`.
    fn see_writable(&self, path: &str) -> io::Result<()>
        requires { May rights self.now Look path.now }
        ensures { IsMissing stands self.now path.now → IsErr result };

    /// `HostFiles::open_to_write`.
    fn open_to_write(&self, path: &str) -> io::Result<Self::File>
        requires { May rights self.now ToWrite path.now }
        ensures { IfOk result (λ file. traces.opened self.now ToWrite path.now file) };

    /// `HostFiles::make_file`.
    fn make_file(&self, path: &str, mode: u32) -> io::Result<Self::File>
        requires { May rights self.now Make path.now }
        ensures { IfOk result (λ file. traces.opened self.now Make path.now file) };

    /// `HostFiles::make_folder`.
    fn make_folder(&self, path: &str) -> io::Result<()>
        requires { May rights self.now Make path.now }
        ensures { OnOk result (traces.made self.now path.now) };

    /// `HostFiles::rename`.
    fn rename(&self, from: &str, to: &str) -> io::Result<()>
        requires from { May rights self.now Remove from.now }
        requires to { May rights self.now Replace to.now }
        ensures { OnOk result (traces.renamed self.now from.now to.now) };

    /// `HostFiles::remove`.
    fn remove(&self, path: &str) -> io::Result<()>
        requires { May rights self.now Remove path.now }
        ensures { OnOk result (traces.removed self.now path.now) };

    /// `HostFiles::give_free_name`.
    fn give_free_name(&self, from: &str, to: &str) -> io::Result<()>
        requires from { May rights self.now Remove from.now }
        requires look { May rights self.now Look to.now }
        requires to { May rights self.now Make to.now }
        ensures { OnOk result (traces.moved self.now from.now to.now) };

    /// `HostFiles::remove_folder`.
    fn remove_folder(&self, path: &str) -> io::Result<()>
        requires { May rights self.now Remove path.now }
        ensures { OnOk result (traces.removed self.now path.now) };

    /// `HostFiles::is_mounted`.
    fn is_mounted(&self, alloc: Global, path: &str) -> io::Result<bool>
        requires { May rights self.now Look path.now };
}

impl<R: Files> SystemFiles for R {
    type File = R::File;

    // A system keeps no list of rights: all calls are allowed.
    ghost rights = { record { may = λ _ _ _. true; leads = λ _ _ _. true } };

    fn look_at(&self, path: &str) -> io::Result<Metadata> {
        self.metadata(path)
    }

    fn is_named(&self, path: &str) -> io::Result<bool> {
        match self.symlink_metadata(path) {
            Ok(_) => Ok(true),
            Err(error) if error.kind() == ErrorKind::NotFound => Ok(false),
            Err(error) => Err(error),
        }
    }

    fn resolve(&self, alloc: Global, path: &str) -> io::Result<String> {
        match self.canonicalize(alloc, path) {
            Ok(found) => Ok(found.into_string()),
            Err(error) => match error.kind() {
                ErrorKind::NotFound | ErrorKind::Unsupported => copied(alloc, path),
                _ => Err(error),
            },
        }
    }

    fn sync_folder_of(&self, path: &str) -> io::Result<()> {
        File::open(self, folder_of(path))?.sync_all()
    }

    fn open_to_read(&self, path: &str) -> io::Result<R::File> {
        File::open(self, path)
    }

    fn open_to_change(&self, path: &str) -> io::Result<R::File> {
        OpenOptions::new().read(true).write(true).open(self, path)
    }

    fn see_writable(&self, path: &str) -> io::Result<()> {
        OpenOptions::new().read(true).write(true).open(self, path)?;
        Ok(())
    }

    fn open_to_write(&self, path: &str) -> io::Result<R::File> {
        OpenOptions::new().write(true).open(self, path)
    }

    fn make_file(&self, path: &str, mode: u32) -> io::Result<R::File> {
        OpenOptions::new()
            .write(true)
            .create_new(true)
            .mode(mode)
            .open(self, path)
    }

    fn make_folder(&self, path: &str) -> io::Result<()> {
        self.create_dir(path)
    }

    fn rename(&self, from: &str, to: &str) -> io::Result<()> {
        self.rename(from, to)
    }

    fn remove(&self, path: &str) -> io::Result<()> {
        self.remove_file(path)
    }

    fn give_free_name(&self, from: &str, to: &str) -> io::Result<()> {
        match self.hard_link(from, to) {
            Ok(()) => self.remove_file(from),
            Err(error) if error.kind() == ErrorKind::AlreadyExists => Err(error),
            Err(_) => rename_free(self, from, to),
        }
    }

    fn remove_folder(&self, path: &str) -> io::Result<()> {
        self.remove_dir(path)
    }

    fn is_mounted(&self, alloc: Global, path: &str) -> io::Result<bool> {
        is_mount_point(self, alloc, path)
    }
}
