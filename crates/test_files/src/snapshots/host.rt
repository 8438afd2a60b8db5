//! A host of files in memory that says what two of them held when it was made.
ghost use Rattle.std.specs.Prelude.{◌≡◌, List, IfOk, IsErr, Some, ℕ, option_map, true};
ghost use Rattle.image_file.specs.paths.Standing.{AreOf, Holds, IsMissing};
ghost use Rattle.test_files.specs.KnownFolders.{IsFreshAt, snapshot_traces};
ghost use Rattle.test_files.specs.Snapshots.{left_of, snapshot_rights, snapshot_stands};

use crate::snapshots::open_file::SnapshotFile;
use crate::snapshots::store::Store;
use d64_image::IMAGE_BYTES;
use image_file::{HostFiles, HostInput};
use image_log::{BLOCK, BLOCKS, MemFolder, sectors_of};
use std::alloc::{Allocator, Global};
use std::fs::{Metadata, OpenFile};
use std::io::{self, BufRead, ErrorKind, Lines};

/// A host whose files are in a store, and all of which may be written. It says that `a.d64` and `s.txt` hold these bytes, as
/// they did when it was made, and so does the folder of each `a.d64` that is opened to be written. If it is quiet, it says that
/// `a.d64-log` isn't there, and none can be read. It says nothing of other paths. Standard input has the bytes of `s.txt`.
#[derive(Clone, Copy)]
pub struct Snapshot<'a> {
    /// Memory.
    pub alloc: Global,
    /// What `a.d64` held.
    pub image: &'a [u8],
    /// What `s.txt` held.
    pub text: &'a [u8],
    /// Whether it says that there is no log.
    pub quiet: bool,
    /// The files, as they are now.
    pub store: &'a Store,
}

impl<'a> Snapshot<'a> {
    /// What the file at a path is said to hold.
    fn said(&self, path: &str) -> Option<&'a [u8]>
        ensures { (all : List ℕ) → snapshot_stands self.now path.now ≡ Holds all
            → option_map (λ bytes. bytes.now) result ≡ Some all }
    {
        if path == "a.d64" {
            return Some(self.image);
        }
        if path == "s.txt" {
            return Some(self.text);
        }
        None
    }

    /// The number of the file at a path.
    fn found(&self, path: &str) -> io::Result<usize>
        ensures { IsMissing snapshot_stands self.now path.now → IsErr result }
    {
        if self.is_away(path) {
            return Err(ErrorKind::NotFound.into());
        }
        self.store.number_of(path).ok_or(ErrorKind::NotFound.into())
    }

    /// The file at a path, open.
    fn opened(&self, path: &str) -> io::Result<SnapshotFile<'a>>
        ensures missing { IsMissing snapshot_stands self.now path.now → IsErr result }
        ensures bytes { IfOk result (λ file. AreOf snapshot_stands self.now path.now (left_of file)) }
    {
        let number = self.found(path)?;
        Ok(SnapshotFile::new(self.alloc, self.store, number, self.said(path)))
    }

    /// The folder of the file at a path, in memory. It is that of `a.d64`, if that is as long as an image.
    fn folder_of(&self, path: &str) -> io::Result<Option<MemFolder>>
        ensures { IfOk result (IsFreshAt self.now path.now) }
    {
        if path != "a.d64" || self.image.len() != IMAGE_BYTES {
            return Ok(None);
        }
        let folder = MemFolder::new(self.alloc, sectors_of(self.image))?;
        Ok(Some(folder))
    }

    /// The file at a path, open to be written.
    fn opened_to_write(&self, path: &str) -> io::Result<SnapshotFile<'a>>
        ensures missing { IsMissing snapshot_stands self.now path.now → IsErr result }
        ensures bytes { IfOk result (λ file. AreOf snapshot_stands self.now path.now (left_of file)) }
        ensures opened { IfOk result (λ file. IsFreshAt self.now path.now file.folder) }
    {
        let file = self.opened(path)?;
        let folder = self.folder_of(path)?;
        Ok(file.in_folder(folder))
    }

    /// Whether it says that no file is at a path.
    pub(crate) fn is_away(&self, path: &str) -> bool
        ensures { IsMissing snapshot_stands self.now path.now → result ≡ true }
    {
        self.quiet && path == "a.d64-log"
    }

    /// Shows in the store, at its path, that a log got its name: a file of its length.
    pub(crate) fn show_log(&self, path: &str) {
        if let Ok(number) = self.store.add(path, b"") {
            let _ = self.store.resize(number, BLOCK * (BLOCKS + 1));
        }
    }

    /// The file that is made at a path.
    fn made(&self, path: &str) -> io::Result<usize> {
        if self.found(path).is_ok() {
            return Err(ErrorKind::AlreadyExists.into());
        }
        self.store.add(path, b"")
    }
}

impl Alloc for Snapshot<'_> {
    type A = Global;

    fn alloc(&self) -> Global {
        self.alloc
    }
}

impl<'a> Input for Snapshot<'a> {
    type Reader = &'a [u8];

    fn read_line<A: Allocator + Clone>(&self, _buf: &mut String<A>) -> io::Result<usize> {
        Err(ErrorKind::Unsupported.into())
    }

    fn lines<A: Allocator>(&self, alloc: A) -> Lines<&'a [u8], A> {
        self.reader().lines(alloc)
    }

    fn reader(&self) -> &'a [u8] {
        self.text
    }
}

impl<'a> HostInput for Snapshot<'a> {
    type Given = &'a [u8];

    ghost given = { λ host. Some host.text.now };

    fn input(&self) -> &'a [u8] {
        self.text
    }
}

impl<'a> HostFiles for Snapshot<'a> {
    type File = SnapshotFile<'a>;

    ghost rights = { snapshot_rights };

    ghost stands = { snapshot_stands };

    ghost traces = { snapshot_traces };

    fn look_at(&self, path: &str) -> io::Result<Metadata> {
        let number = self.found(path)?;
        Ok(Metadata::of_file(self.store.size_of(number) as u64))
    }

    fn is_named(&self, path: &str) -> io::Result<bool> {
        Ok(self.found(path).is_ok())
    }

    fn resolve(&self, alloc: Global, path: &str) -> io::Result<String> {
        let mut copy = String::new(alloc);
        copy.push_str(path)?;
        Ok(copy)
    }

    fn sync_folder_of(&self, _path: &str) -> io::Result<()> {
        Ok(())
    }

    fn open_to_read(&self, path: &str) -> io::Result<SnapshotFile<'a>> {
        self.opened(path)
    }

    fn open_to_change(&self, path: &str) -> io::Result<SnapshotFile<'a>> {
        self.opened_to_write(path)
    }

    fn see_writable(&self, path: &str) -> io::Result<()> {
        self.found(path)?;
        Ok(())
    }

    fn open_to_write(&self, path: &str) -> io::Result<SnapshotFile<'a>> {
        self.opened_to_write(path)
    }

    fn make_file(&self, path: &str, _mode: u32) -> io::Result<SnapshotFile<'a>> {
        let number = self.made(path)?;
        Ok(SnapshotFile::new(self.alloc, self.store, number, None))
    }

    fn make_folder(&self, path: &str) -> io::Result<()> {
        self.made(path)?;
        Ok(())
    }

    fn rename(&self, from: &str, to: &str) -> io::Result<()> {
        self.store.rename(to, "")?;
        self.store.rename(from, to)
    }

    fn remove(&self, path: &str) -> io::Result<()> {
        self.store.rename(path, "")
    }

    fn give_free_name(&self, from: &str, to: &str) -> io::Result<()> {
        if self.found(to).is_ok() {
            return Err(ErrorKind::AlreadyExists.into());
        }
        self.store.rename(from, to)
    }

    fn remove_folder(&self, path: &str) -> io::Result<()> {
        self.store.rename(path, "")
    }

    fn is_mounted(&self, _alloc: Global, _path: &str) -> io::Result<bool> {
        Ok(false)
    }
}
