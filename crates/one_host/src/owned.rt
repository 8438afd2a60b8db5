//! A host that a part owns.
ghost use Rattle.one_host.specs.History.{through};

use crate::host::Host;
use crate::parts::{Access, Attributes, Failure, Found, Handle, Lock, Stream};
use std::alloc::Global;

/// A host that a part owns.
#[derive(Drop)]
pub struct Owned<H> {
    /// The host.
    pub host: H,
}

impl<H: Host> Host for Owned<H> {
    ghost history = { through (λ l. l.host) H.history };

    ghost rights = { H.rights };

    fn look(&mut self, path: &str) -> Result<Found, Failure> {
        self.host.look(path)
    }

    fn leads(&mut self, path: &str, file: Handle) -> Result<bool, Failure> {
        self.host.leads(path, file)
    }

    fn resolve(&mut self, alloc: Global, path: &str) -> Result<String, Failure> {
        self.host.resolve(alloc, path)
    }

    fn open(&mut self, path: &str, access: Access) -> Result<Handle, Failure> {
        self.host.open(path, access)
    }

    fn make(&mut self, path: &str, mode: u32) -> Result<Handle, Failure> {
        self.host.make(path, mode)
    }

    fn make_folder(&mut self, path: &str) -> Result<(), Failure> {
        self.host.make_folder(path)
    }

    fn rename(&mut self, from: &str, to: &str) -> Result<(), Failure> {
        self.host.rename(from, to)
    }

    fn give_free_name(&mut self, from: &str, to: &str) -> Result<(), Failure> {
        self.host.give_free_name(from, to)
    }

    fn remove(&mut self, path: &str) -> Result<(), Failure> {
        self.host.remove(path)
    }

    fn remove_folder(&mut self, path: &str) -> Result<(), Failure> {
        self.host.remove_folder(path)
    }

    fn sync_folder(&mut self, path: &str) -> Result<(), Failure> {
        self.host.sync_folder(path)
    }

    fn size(&mut self, file: Handle) -> Result<u64, Failure> {
        self.host.size(file)
    }

    fn read_at(&mut self, file: Handle, at: u64, to: &mut [u8]) -> Result<usize, Failure> {
        self.host.read_at(file, at, to)
    }

    fn write_at(&mut self, file: Handle, at: u64, bytes: &[u8]) -> Result<(), Failure> {
        self.host.write_at(file, at, bytes)
    }

    fn set_size(&mut self, file: Handle, size: u64) -> Result<(), Failure> {
        self.host.set_size(file, size)
    }

    fn sync(&mut self, file: Handle) -> Result<(), Failure> {
        self.host.sync(file)
    }

    fn guard_as(&mut self, file: Handle, like: &Attributes) -> Result<(), Failure> {
        self.host.guard_as(file, like)
    }

    fn lock(&mut self, file: Handle, how: Lock) -> Result<bool, Failure> {
        self.host.lock(file, how)
    }

    fn close(&mut self, file: Handle) -> Result<(), Failure> {
        self.host.close(file)
    }

    fn read_input(&mut self, to: &mut [u8]) -> Result<usize, Failure> {
        self.host.read_input(to)
    }

    fn print(&mut self, stream: Stream, text: &[u8]) -> Result<usize, Failure> {
        self.host.print(stream, text)
    }
}
