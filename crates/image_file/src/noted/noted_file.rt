//! Open files that keep why a call of theirs failed.
ghost use Rattle.std.specs.Prelude.{◌≡◌, ◌≤◌, IfSome, OnOk};
ghost use Rattle.d64_image.specs.Places.{index_of};

use crate::durability::WritesAt;
use crate::locks::Locks;
use crate::noted::failures::Failures;
use crate::noted::limits::{SizeLimit, end_of};
use crate::noted::subjects::Subject;
use crate::remaining::EndedFile;
use d64_image::{Place, SECTORS};
use std::alloc::Global;
use std::fs::{Metadata, OpenFile, TryLockError};
use std::io::{self, Read, Seek, SeekFrom};

/// The sector that an image has at this index, if it has so many.
fn place_at(index: u64) -> Option<Place>
    ensures { IfSome result (λ place. index_of place ≡ index) }
{
    if index < SECTORS as u64 {
        Some(Place::nth(index as usize))
    } else {
        None
    }
}

/// An open file, whose failures are kept. Calls go on to the file, and what they return is handed back as it is. Only a call
/// that would make the file longer than the limit of the process isn't made, and fails.
#[derive(Drop)]
pub struct NotedFile<'n, 'a, F> {
    pub(crate) file: F,
    limit: SizeLimit,
    subject: Option<Subject<'a>>,
    failures: &'n Failures<'a>,
}

impl<'n, 'a, F> NotedFile<'n, 'a, F> {
    /// This file, which is about that.
    pub(crate) fn new(
        file: F,
        limit: SizeLimit,
        subject: Option<Subject<'a>>,
        failures: &'n Failures<'a>,
    ) -> NotedFile<'n, 'a, F>
        ensures { result.file ≡ file }
    {
        NotedFile {
            file,
            limit,
            subject,
            failures,
        }
    }

    /// What came of a call, kept if it failed.
    fn noted<T: Drop>(&self, outcome: io::Result<T>) -> io::Result<T>
        ensures { result ≡ outcome }
    {
        self.failures.noted(self.subject, None, outcome)
    }

    /// An error, which is kept, if a file that ends after so many bytes is longer than the limit.
    fn see_end(&self, end: u64) -> io::Result<()>
        ensures { OnOk result (end ≤ self.now.limit.most) }
    {
        match self.limit.see_end(end) {
            Ok(()) => Ok(()),
            limited => self.noted(limited),
        }
    }

    /// What came of writing so many bytes from a place on, kept if it failed.
    fn noted_at(&self, bytes: usize, at: u64, outcome: io::Result<()>) -> io::Result<()>
        ensures { result ≡ outcome }
    {
        if outcome.is_ok() {
            return outcome;
        }
        self.failures
            .noted(self.subject, self.sector_at(bytes, at), outcome)
    }

    /// The sector that these bytes of the file are, if it is the file of an image and they are one.
    fn sector_at(&self, bytes: usize, at: u64) -> Option<Place> {
        match self.subject {
            Some(Subject::File(_)) if bytes == 256 => place_at(at / 256),
            _ => None,
        }
    }
}

impl<F: Read> Read for NotedFile<'_, '_, F> {
    ghost remaining = { λ noted. F.remaining noted.file };

    fn read(&mut self, buf: &mut [u8]) -> io::Result<usize> {
        let outcome = self.file.read(buf);
        self.noted(outcome)
    }
}

impl<F: Seek> Seek for NotedFile<'_, '_, F> {
    ghost stream_position = { λ noted. F.stream_position noted.file };

    ghost stream_bytes = { λ noted. F.stream_bytes noted.file };

    fn seek(&mut self, to: SeekFrom) -> io::Result<u64> {
        let outcome = self.file.seek(to);
        self.noted(outcome)
    }
}

impl<F: OpenFile> NotedFile<'_, '_, F> {
    /// An error, which is kept, if it is the file of a word and longer than the limit, so that some of its bytes can't be
    /// written.
    pub(crate) fn see_length(&self) -> io::Result<()> {
        match self.subject {
            Some(Subject::File(_)) if self.limit.is_set() => {
                let length = self.metadata()?.len();
                self.see_end(length)
            }
            _ => Ok(()),
        }
    }
}

impl<F: OpenFile> OpenFile for NotedFile<'_, '_, F> {
    fn metadata(&self) -> io::Result<Metadata> {
        self.noted(self.file.metadata())
    }

    fn set_len(&self, size: u64) -> io::Result<()> {
        self.see_end(size)?;
        self.noted(self.file.set_len(size))
    }

    fn sync_all(&self) -> io::Result<()> {
        self.noted(self.file.sync_all())
    }

    fn sync_data(&self) -> io::Result<()> {
        self.noted(self.file.sync_data())
    }
}

impl<F: EndedFile> EndedFile for NotedFile<'_, '_, F> {
    ghost use Rattle.image_file.specs.Inner.{remains_in};

    ghost remains = { remains_in (λ noted. noted.file) F.remains };

    fn write_over(&mut self, bytes: &[u8], at: u64) -> io::Result<()> {
        self.see_end(end_of(bytes, at))?;
        let outcome = self.file.write_over(bytes, at);
        self.noted_at(bytes.len(), at, outcome)
    }

    fn end_at(&mut self, bytes: u64) -> io::Result<()> {
        self.see_end(bytes)?;
        let outcome = self.file.end_at(bytes);
        self.noted(outcome)
    }

    fn sync_whole(&mut self) -> io::Result<()> {
        let outcome = self.file.sync_whole();
        self.noted(outcome)
    }

    fn finish(&mut self) -> io::Result<()> {
        let outcome = self.file.finish();
        self.noted(outcome)
    }

    fn guard_as(&self, like: &Metadata) {
        self.file.guard_as(like)
    }
}

impl<F: WritesAt> WritesAt for NotedFile<'_, '_, F> {
    ghost use Rattle.image_file.specs.Inner.{whole_in};

    ghost held = { λ noted. F.held noted.file };

    ghost lasting = { λ noted. F.lasting noted.file };

    ghost whole = { whole_in (λ noted. noted.file) F.whole };

    ghost IsShared = { λ noted. F.IsShared noted.file };

    ghost IsOwned = { λ noted. F.IsOwned noted.file };

    ghost unread = { λ noted. F.unread noted.file };

    // In line, as all on the way to the file is: a return right after a call of the system is dear.
    #[inline(always)]
    fn write_all_at(&mut self, bytes: &[u8], at: u64) -> io::Result<()> {
        self.see_end(end_of(bytes, at))?;
        let outcome = self.file.write_all_at(bytes, at);
        self.noted_at(bytes.len(), at, outcome)
    }

    fn sync(&mut self) -> io::Result<()> {
        let outcome = self.file.sync();
        self.noted(outcome)
    }
}

impl<F: Locks> Locks for NotedFile<'_, '_, F> {
    ghost IsTaken = { λ noted. F.IsTaken noted.file };

    ghost reads = { λ noted. F.reads noted.file };

    fn lock_alone(&mut self) -> Result<(), TryLockError> {
        let outcome = self.file.lock_alone();
        self.noted_lock(outcome)
    }

    fn lock_shared(&mut self) -> Result<(), TryLockError> {
        let outcome = self.file.lock_shared();
        self.noted_lock(outcome)
    }

    fn image(&mut self, alloc: Global) -> io::Result<Vec<u8>> {
        let outcome = self.file.image(alloc);
        self.noted(outcome)
    }
}

impl<F> NotedFile<'_, '_, F> {
    /// What came of a lock, kept if the system failed.
    fn noted_lock(&self, outcome: Result<(), TryLockError>) -> Result<(), TryLockError>
        ensures { result ≡ outcome }
    {
        if let Err(TryLockError::Error(error)) = &outcome {
            let _ = self.noted::<()>(Err(*error));
        }
        outcome
    }
}
