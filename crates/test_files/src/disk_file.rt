//! A file in memory, of which it is known what it holds and what of that is on its disk.
ghost use Rattle.std.specs.Prelude.{◌≡◌, ◌≤◌, ◌⊎◌, ◌+◌, None, Some, false, length};
ghost use Rattle.d64_image.specs.Offsets.{overwritten};
ghost use Rattle.image_file.specs.Durable.{WritesOver};
ghost use Rattle.image_file.specs.Lasting.{StaysOr};
ghost use Rattle.test_files.specs.Disks.{disk_bytes, disk_lasting};

use crate::disk::Disk;
use image_file::{EndedFile, Locks, WritesAt};
use std::alloc::{AllocError, Global};
use std::fs::TryLockError;
use std::io::{self, ErrorKind, Read};

/// How a file is locked.
#[derive(Clone, Copy, Debug, PartialEq, Eq)]
pub enum Lock {
    /// Not at all.
    None,
    /// So that nobody writes it.
    Shared,
    /// For its program alone.
    Alone,
}

/// A file of an image, in memory: what it holds, and its disk. One of its calls fails, and each one after it.
#[derive(Drop)]
pub struct DiskFile {
    /// What it holds, with all that it held before.
    held: Disk,
    disk: Disk,
    lock: Lock,
    /// How many calls pass yet.
    calls: u64,
    /// How many bytes a write that fails has written.
    part: usize,
    /// Whether a failing sync still brings it to the disk.
    done: bool,
    /// Whether one of its calls failed.
    failed: bool,
}

/// Counts a call. Whether it passes.
fn passes(calls: &mut u64) -> bool {
    let left = *calls > 0;
    *calls = calls.saturating_sub(1);
    left
}

/// The error of a call that failed.
fn failed() -> io::Error {
    io::Error::from(ErrorKind::Other)
}

/// Writes all these bytes from there on, or so many of them at most and fails; none if memory for them was refused.
fn write(held: &mut Disk, at: u64, bytes: &[u8], most: Option<usize>) -> io::Result<()>
    ensures written { WritesOver (Some (disk_bytes held.old)) (Some (disk_bytes held.new)) at bytes.now result }
    // all of them or none
    ensures whole { (most ≡ None) ⊎ (most ≡ Some 0) → at + length bytes.now ≤ 174848
        → StaysOr disk_lasting held.old held.new (Some (overwritten (disk_bytes held.old) at bytes.now)) }
{
    match most {
        Some(most) => {
            let _ = held.put(at, &bytes[..bytes.len().min(most)]);
            Err(failed())
        }
        None => match held.put(at, bytes) {
            Ok(true) => Ok(()),
            Ok(false) | Err(_) => Err(failed()),
        },
    }
}

impl DiskFile {
    ghost use Rattle.std.specs.Prelude.{IfOk, OnErr, OnOk, true};
    ghost use Rattle.test_files.specs.Files.{file_disk, file_held, has_failed, is_whole};

    /// A file of this image, all of which is on its disk. No call of it fails before the last that can be counted. An
    /// error if memory for it was refused.
    pub fn new(alloc: Global, image: &[u8]) -> Result<DiskFile, AllocError>
        requires size { length image.now ≡ 174848 }
        ensures held { IfOk result (λ file. file_held file ≡ image.now) }
        ensures disk { IfOk result (λ file. disk_bytes (file_disk file) ≡ image.now) }
        ensures sound { IfOk result (λ file. has_failed file ≡ false) }
        ensures whole { IfOk result (λ file. is_whole file) }
    {
        Ok(DiskFile {
            held: Disk::new(alloc, image)?,
            disk: Disk::new(alloc, image)?,
            lock: Lock::None,
            calls: u64::MAX,
            part: 0,
            done: false,
            failed: false,
        })
    }

    /// The same file, of which only so many calls pass. A write that fails has written so many bytes at most; a call
    /// that is to bring it to the disk and fails does so, or not.
    pub fn failing(self, calls: u64, part: usize, done: bool) -> DiskFile
        ensures held { file_held result ≡ file_held self }
        ensures disk { file_disk result ≡ file_disk self }
        ensures same { has_failed result ≡ has_failed self }
        ensures whole { part ≡ 0 → is_whole result }
    {
        let DiskFile {
            held,
            disk,
            lock,
            failed,
            ..
        } = self;
        DiskFile {
            held,
            disk,
            lock,
            calls,
            part,
            done,
            failed,
        }
    }

    /// All that it holds.
    pub fn held(&self) -> &[u8]
        ensures { result.now ≡ file_held self.now }
    {
        self.held.bytes()
    }

    /// Writes all these bytes from there on. They come to its disk when it is synced.
    fn write_through(&mut self, bytes: &[u8], at: u64) -> io::Result<()>
        ensures written { WritesOver (Some (file_held self.old)) (Some (file_held self.new)) at bytes.now result }
        ensures whole { is_whole self.old → at + length bytes.now ≤ 174848
            → StaysOr disk_lasting self.old.held self.new.held (Some (overwritten (file_held self.old) at bytes.now)) }
        ensures part { self.new.part ≡ self.old.part }
        ensures same { has_failed self.new ≡ has_failed self.old }
    {
        let most = if passes(&mut self.calls) {
            None
        } else {
            Some(self.part)
        };
        write(&mut self.held, at, bytes, most)
    }

    /// Syncs all that it holds. A call that fails does that or not.
    fn bring_all(&mut self) -> io::Result<()>
        ensures held { self.new.held ≡ self.old.held }
        ensures part { self.new.part ≡ self.old.part }
        ensures lasting { OnOk result (disk_bytes (file_disk self.new) ≡ file_held self.new) }
        ensures lock { self.new.lock ≡ self.old.lock }
        ensures same { has_failed self.new ≡ has_failed self.old }
    {
        let passes = passes(&mut self.calls);
        if passes || self.done {
            self.disk.bring(self.held.bytes())?;
        }
        if passes { Ok(()) } else { Err(failed()) }
    }

    /// Writes as `write_through` does, and notes whether it failed.
    pub(crate) fn write_noted(&mut self, bytes: &[u8], at: u64) -> io::Result<()>
        ensures written { WritesOver (Some (file_held self.old)) (Some (file_held self.new)) at bytes.now result }
        ensures whole { is_whole self.old → at + length bytes.now ≤ 174848
            → StaysOr disk_lasting self.old.held self.new.held (Some (overwritten (file_held self.old) at bytes.now)) }
        ensures part { self.new.part ≡ self.old.part }
        ensures failed { OnErr result (has_failed self.new ≡ true) }
        ensures passed { OnOk result (has_failed self.new ≡ has_failed self.old) }
    {
        let written = self.write_through(bytes, at);
        self.failed = self.failed || written.is_err();
        written
    }

    /// Syncs, and notes whether it failed.
    pub(crate) fn bring_noted(&mut self) -> io::Result<()>
        ensures held { self.new.held ≡ self.old.held }
        ensures part { self.new.part ≡ self.old.part }
        ensures lasting { OnOk result (disk_bytes (file_disk self.new) ≡ file_held self.new) }
        ensures lock { self.new.lock ≡ self.old.lock }
        ensures failed { OnErr result (has_failed self.new ≡ true) }
        ensures passed { OnOk result (has_failed self.new ≡ has_failed self.old) }
    {
        let brought = self.bring_all();
        self.failed = self.failed || brought.is_err();
        brought
    }

    /// Its disk.
    pub fn disk(&self) -> &Disk
        ensures { result.now ≡ file_disk self.now }
    {
        &self.disk
    }
}

impl WritesAt for DiskFile {
    ghost use Rattle.std.specs.Prelude.{◌≡◌, ◌≢◌, Some};
    ghost use Rattle.image_file.specs.Lasting.{unknown_whole};
    ghost use Rattle.test_files.specs.Disks.{disk_bytes};
    ghost use Rattle.test_files.specs.Files.{file_disk, file_held, has_failed, is_alone, is_locked};

    ghost held = { λ f. Some (file_held f) };

    ghost lasting = { λ f. Some (disk_bytes (file_disk f)) };

    ghost whole = { unknown_whole };

    ghost IsShared = { is_locked };

    ghost IsOwned = { is_alone };

    ghost has_failed = { has_failed };

    fn write_all_at(&mut self, bytes: &[u8], at: u64) -> io::Result<()> {
        self.write_noted(bytes, at)
    }

    fn sync(&mut self) -> io::Result<()> {
        self.bring_noted()
    }
}

impl Read for DiskFile {
    // It is read as a whole, by `image`.
    fn read(&mut self, _buf: &mut [u8]) -> io::Result<usize> {
        Err(io::Error::from(io::ErrorKind::Unsupported))
    }
}

impl EndedFile for DiskFile {
    fn write_over(&mut self, bytes: &[u8], at: u64) -> io::Result<()> {
        self.write_noted(bytes, at)
    }

    // it has the length of an image
    fn end_at(&mut self, _bytes: u64) -> io::Result<()> {
        Err(io::Error::from(io::ErrorKind::Unsupported))
    }

    fn sync_whole(&mut self) -> io::Result<()> {
        self.bring_noted()
    }

    fn finish(&mut self) -> io::Result<()> {
        Ok(())
    }
}

impl Locks for DiskFile {
    ghost use Rattle.std.specs.Prelude.{refl};

    ghost reads = { λ _. refl };

    fn lock_alone(&mut self) -> Result<(), TryLockError> {
        self.lock = Lock::Alone;
        Ok(())
    }

    fn lock_shared(&mut self) -> Result<(), TryLockError> {
        self.lock = Lock::Shared;
        Ok(())
    }

    fn image(&mut self, alloc: Global) -> io::Result<Vec<u8>> {
        Ok(self.held.bytes().to_vec(alloc)?)
    }
}
