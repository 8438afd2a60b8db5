//! An open file of a store.
ghost use Rattle.std.specs.Prelude.{◌≡◌, ◌<◌, option_map};
ghost use Rattle.test_files.specs.Snapshots.{left_of};

use crate::snapshots::store::Store;
use image_file::{EndedFile, Locks, WritesAt, read_image};
use image_log::{MemFolder, MemLog};
use std::alloc::Global;
use std::fs::{Metadata, OpenFile, TryLockError};
use std::io::{self, ErrorKind, Read, Seek, SeekFrom};

/// An open file of a store. What is read of it first is what it is said to hold, if that is said.
#[derive(Drop)]
pub struct SnapshotFile<'a> {
    store: &'a Store,
    number: usize,
    at: usize,
    /// What isn't read yet of that; None once another place was looked for, or written to.
    said: Option<&'a [u8]>,
    /// The folder in which it is IMAGE, if that is known.
    pub(crate) folder: Option<MemFolder>,
    /// The log that it is, open to be written.
    pub(crate) log: MemLog,
    /// The bytes of the log that it is, open to be read.
    pub(crate) read: Vec<u8>,
}

/// The number of no file.
const NONE: usize = usize::MAX;

impl<'a> SnapshotFile<'a> {
    /// The file with this number, which is said to hold these bytes.
    pub(crate) fn new(
        alloc: Global,
        store: &'a Store,
        number: usize,
        said: Option<&'a [u8]>,
    ) -> SnapshotFile<'a>
        ensures { left_of result ≡ option_map (λ bytes. bytes.now) said.entry }
    {
        SnapshotFile {
            store,
            number,
            at: 0,
            said,
            folder: None,
            log: MemLog::new(alloc),
            read: Vec::new(alloc),
        }
    }

    /// A log beside the files of a store, open to be written.
    pub(crate) fn of_log(alloc: Global, store: &'a Store, log: MemLog) -> SnapshotFile<'a>
        ensures { result.log ≡ log }
    {
        let mut file = SnapshotFile::new(alloc, store, NONE, None);
        file.log = log;
        file
    }

    /// A log beside them, open to be read, with these bytes.
    pub(crate) fn of_read(alloc: Global, store: &'a Store, bytes: Vec<u8>) -> SnapshotFile<'a>
        ensures { result.read ≡ bytes }
    {
        let mut file = SnapshotFile::new(alloc, store, NONE, None);
        file.read = bytes;
        file
    }

    /// This file as IMAGE in a folder of which this is known.
    pub(crate) fn in_folder(self, folder: Option<MemFolder>) -> SnapshotFile<'a>
        ensures folder { result.folder ≡ folder }
        ensures left { left_of result ≡ left_of self.entry }
    {
        let mut file = self;
        file.folder = folder;
        file
    }

    /// Writes a sector to the store too, in which the rows look for it.
    pub(crate) fn show_sector(&self, index: usize, sector: &[u8; 256])
        requires { index < 683 }
    {
        let _ = self.store.write_at(self.number, 256 * index, sector);
    }
}

impl Read for SnapshotFile<'_> {
    ghost use Rattle.test_files.specs.Snapshots.{left_of};

    ghost remaining = { left_of };

    fn read(&mut self, buf: &mut [u8]) -> io::Result<usize> {
        if let Some(said) = &mut self.said {
            return said.read(buf);
        }
        let count = self.store.read_at(self.number, self.at, buf);
        self.at = self.at.saturating_add(count);
        Ok(count)
    }
}

impl Seek for SnapshotFile<'_> {
    fn seek(&mut self, to: SeekFrom) -> io::Result<u64> {
        match to {
            SeekFrom::Start(at) => {
                self.said = None;
                self.at = at as usize;
                Ok(at)
            }
            _ => Err(ErrorKind::Unsupported.into()),
        }
    }
}

impl OpenFile for SnapshotFile<'_> {
    fn metadata(&self) -> io::Result<Metadata> {
        Ok(Metadata::of_file(self.store.size_of(self.number) as u64))
    }

    fn set_len(&self, size: u64) -> io::Result<()> {
        self.store.resize(self.number, size as usize)
    }

    fn sync_all(&self) -> io::Result<()> {
        Ok(())
    }

    fn sync_data(&self) -> io::Result<()> {
        Ok(())
    }
}

impl WritesAt for SnapshotFile<'_> {
    ghost use Rattle.image_file.specs.Lasting.{unknown_whole};
    ghost use Rattle.test_files.specs.Snapshots.{left_of};

    ghost whole = { unknown_whole };

    ghost unread = { left_of };

    fn write_all_at(&mut self, bytes: &[u8], at: u64) -> io::Result<()> {
        self.said = None;
        self.store.write_at(self.number, at as usize, bytes)
    }

    fn sync(&mut self) -> io::Result<()> {
        Ok(())
    }
}

impl Locks for SnapshotFile<'_> {
    ghost use Rattle.std.specs.Prelude.{refl};

    ghost reads = { λ _. refl };

    fn lock_alone(&mut self) -> Result<(), TryLockError> {
        Ok(())
    }

    fn lock_shared(&mut self) -> Result<(), TryLockError> {
        Ok(())
    }

    fn image(&mut self, alloc: Global) -> io::Result<Vec<u8>> {
        read_image(alloc, self)
    }
}

impl EndedFile for SnapshotFile<'_> {
    fn write_over(&mut self, bytes: &[u8], at: u64) -> io::Result<()> {
        self.write_all_at(bytes, at)
    }

    fn end_at(&mut self, bytes: u64) -> io::Result<()> {
        OpenFile::set_len(self, bytes)
    }

    fn sync_whole(&mut self) -> io::Result<()> {
        Ok(())
    }

    fn finish(&mut self) -> io::Result<()> {
        Ok(())
    }
}
