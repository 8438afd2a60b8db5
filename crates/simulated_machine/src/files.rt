//! A file, and what of it is on the disk.
ghost use Rattle.std.specs.Prelude.{◌≡◌, ◌≤◌, length};

use crate::bytes::{copied, end, put, take};
use crate::plans::Lock;
use std::alloc::Global;
use std::io;

/// A change of a file that wasn't synced: bytes that were put there, or a new length.
#[derive(Drop)]
pub(crate) struct Change {
    pub(crate) at: usize,
    pub(crate) bytes: Vec<u8>,
    pub(crate) ends: bool,
}

/// A file: what it holds, what is on the disk, and what has changed since.
#[derive(Drop)]
pub(crate) struct Inode {
    pub(crate) held: Vec<u8>,
    pub(crate) disk: Vec<u8>,
    pub(crate) waiting: Vec<Change>,
    pub(crate) lock: Lock,
}

/// Makes a change.
pub(crate) fn make(held: &mut Vec<u8>, change: &Change) -> io::Result<()> {
    if change.ends {
        return end(held, change.at);
    }
    put(held, change.at, change.bytes.as_slice())
}

/// Makes all these changes.
fn make_all(held: &mut Vec<u8>, changes: &[Change]) -> io::Result<()> {
    for change in changes {
        make(held, change)?;
    }
    Ok(())
}

impl Inode {
    /// A file with these bytes, all of which are on the disk.
    pub(crate) fn new(alloc: Global, bytes: &[u8]) -> io::Result<Inode> {
        let held = copied(alloc, bytes)?;
        let disk = copied(alloc, bytes)?;
        Ok(Inode {
            held,
            disk,
            waiting: Vec::new(alloc),
            lock: Lock::Free,
        })
    }

    /// Makes a change, which waits for a sync.
    fn change(&mut self, change: Change) -> io::Result<()> {
        make(&mut self.held, &change)?;
        Ok(self.waiting.push(change)?)
    }

    /// Puts bytes over those from there on.
    pub(crate) fn write(&mut self, alloc: Global, at: usize, bytes: &[u8]) -> io::Result<()> {
        let bytes = copied(alloc, bytes)?;
        self.change(Change {
            at,
            bytes,
            ends: false,
        })
    }

    /// Gives it a length.
    pub(crate) fn end(&mut self, alloc: Global, length: usize) -> io::Result<()> {
        self.change(Change {
            at: length,
            bytes: Vec::new(alloc),
            ends: true,
        })
    }

    /// Brings to the disk what waits.
    pub(crate) fn sync(&mut self) -> io::Result<()> {
        make_all(&mut self.disk, self.waiting.as_slice())?;
        self.waiting.clear();
        Ok(())
    }

    /// Forgets all that it holds.
    pub(crate) fn forget(&mut self, alloc: Global) {
        self.held = Vec::new(alloc);
        self.disk = Vec::new(alloc);
        self.waiting = Vec::new(alloc);
    }

    /// Fills a buffer with what it holds from there on. Returns how many bytes there were.
    pub(crate) fn read(&self, at: usize, buf: &mut [u8]) -> usize
        ensures few { result ≤ length buf.new }
    {
        take(self.held.as_slice(), at, buf)
    }
}
