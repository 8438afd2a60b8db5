//! The files of a machine, and their names.
ghost use Rattle.std.specs.Prelude.{◌≡◌, ◌≤◌, length};

use crate::bytes::copied;
use crate::calls::Call;
use crate::files::Inode;
use crate::names::{
    Name, NameChange, added, bring, file_at, is_named, path_of, position, restart, set_now,
};
use crate::plans::Lock;
use crate::power::{leave_file, leave_names};
use crate::random::Random;
use std::alloc::Global;
use std::io::{self, ErrorKind};

/// The number of the folder, in which all files are.
pub(crate) const FOLDER: usize = usize::MAX;

/// Files, their names, and the changes of names that weren't synced.
#[derive(Drop)]
pub(crate) struct Disk {
    alloc: Global,
    files: Vec<Inode>,
    names: Vec<Name>,
    waiting: Vec<NameChange>,
    /// Whether no file gets a second name.
    refuses_links: bool,
}

/// The error of a file that isn't there.
fn missing() -> io::Error {
    ErrorKind::NotFound.into()
}

impl Disk {
    /// A disk without files.
    pub(crate) fn new(alloc: Global) -> Disk {
        Disk {
            alloc,
            files: Vec::new(alloc),
            names: Vec::new(alloc),
            waiting: Vec::new(alloc),
            refuses_links: false,
        }
    }

    /// A disk without files on which links are refused if they are here.
    pub(crate) fn another(&self) -> Disk {
        let mut other = Disk::new(self.alloc);
        other.refuses_links = self.refuses_links;
        other
    }

    /// From now on no file gets a second name.
    pub(crate) fn refuse_links(&mut self) {
        self.refuses_links = true;
    }

    /// The number of the file at a path.
    pub(crate) fn find(&self, path: &str) -> io::Result<usize> {
        file_at(self.names.as_slice(), path).ok_or(missing())
    }

    /// A file by its number.
    fn file(&mut self, number: usize) -> io::Result<&mut Inode> {
        match self.files.get_mut(number) {
            Some(file) => Ok(file),
            None => Err(missing()),
        }
    }

    /// The first path at which a file stands.
    pub(crate) fn path_of(&self, number: usize) -> &str {
        path_of(self.names.as_slice(), number)
    }

    /// How many bytes a file holds.
    pub(crate) fn size(&self, number: usize) -> usize {
        self.files.get(number).map_or(0, |file| file.held.len())
    }

    /// The lock that another program has on a file.
    pub(crate) fn lock(&self, number: usize) -> Lock {
        self.files.get(number).map_or(Lock::Free, |file| file.lock)
    }

    /// Another program locks the file at a path.
    pub(crate) fn set_lock(&mut self, path: &str, lock: Lock) {
        if let Some(number) = file_at(self.names.as_slice(), path) {
            if let Some(file) = self.files.get_mut(number) {
                file.lock = lock;
            }
        }
    }

    /// No other program has a lock.
    pub(crate) fn free(&mut self) {
        for file in self.files.as_mut_slice() {
            file.lock = Lock::Free;
        }
    }

    /// Fills a buffer with a file's bytes from there on. Returns how many there were.
    pub(crate) fn read(&self, number: usize, at: usize, buf: &mut [u8]) -> usize
        ensures few { result ≤ length buf.new }
    {
        match self.files.get(number) {
            Some(file) => file.read(at, buf),
            None => 0,
        }
    }

    /// Puts bytes over those of a file from there on.
    pub(crate) fn write(&mut self, number: usize, at: usize, bytes: &[u8]) -> io::Result<()> {
        let alloc = self.alloc;
        match self.files.get_mut(number) {
            Some(file) => file.write(alloc, at, bytes),
            None => Err(missing()),
        }
    }

    /// Gives a file a length.
    pub(crate) fn end(&mut self, number: usize, length: usize) -> io::Result<()> {
        let alloc = self.alloc;
        match self.files.get_mut(number) {
            Some(file) => file.end(alloc, length),
            None => Err(missing()),
        }
    }

    /// Brings the names to the disk.
    fn sync_names(&mut self) {
        for change in self.waiting.as_slice() {
            bring(self.names.as_mut_slice(), *change);
        }
        self.waiting.clear();
    }

    /// Syncs a file, or the folder.
    pub(crate) fn sync(&mut self, number: usize) -> io::Result<()> {
        if number == FOLDER {
            self.sync_names();
            return Ok(());
        }
        match self.files.get_mut(number) {
            Some(file) => file.sync(),
            None => Err(missing()),
        }
    }

    /// Gives a file a name, which is taken from the file that had it.
    fn give(&mut self, path: &str, file: usize) -> io::Result<usize> {
        let name = added(self.alloc, &mut self.names, path)?;
        set_now(self.names.as_mut_slice(), name, Some(file));
        Ok(name)
    }

    /// Makes a file without bytes at a path, at which there is none.
    pub(crate) fn make(&mut self, path: &str) -> io::Result<usize> {
        if self.find(path).is_ok() {
            return Err(ErrorKind::AlreadyExists.into());
        }
        let file = self.files.len();
        self.files.push(Inode::new(self.alloc, b"")?)?;
        let name = self.give(path, file)?;
        self.waiting.push(NameChange::Made { name, file })?;
        Ok(file)
    }

    /// Gives the file at a path another name besides, at which there is none.
    pub(crate) fn link(&mut self, from: &str, to: &str) -> io::Result<()> {
        let file = self.find(from)?;
        if self.find(to).is_ok() {
            return Err(ErrorKind::AlreadyExists.into());
        }
        if self.refuses_links {
            return Err(ErrorKind::PermissionDenied.into());
        }
        let name = self.give(to, file)?;
        self.waiting.push(NameChange::Made { name, file })?;
        Ok(())
    }

    /// Takes the name of a file away.
    pub(crate) fn remove(&mut self, path: &str) -> io::Result<()> {
        self.find(path)?;
        let Some(name) = position(self.names.as_slice(), path) else {
            return Err(missing());
        };
        set_now(self.names.as_mut_slice(), name, None);
        self.waiting.push(NameChange::Removed { name })?;
        Ok(())
    }

    /// Gives the file at a path another name, in the place of the file that had it.
    pub(crate) fn rename(&mut self, from: &str, to: &str) -> io::Result<()> {
        let file = self.find(from)?;
        let Some(old) = position(self.names.as_slice(), from) else {
            return Err(missing());
        };
        let name = self.give(to, file)?;
        if name != old {
            set_now(self.names.as_mut_slice(), old, None);
        }
        self.waiting.push(NameChange::Renamed {
            from: old,
            to: name,
        })?;
        Ok(())
    }

    /// Makes a call.
    pub(crate) fn change(&mut self, call: &Call) -> io::Result<()> {
        match call {
            Call::Write { number, at, bytes } => self.write(*number, *at, bytes.as_slice()),
            Call::End { number, length } => self.end(*number, *length),
            Call::Sync { number } => self.sync(*number),
            Call::Make { path } => {
                self.make(path.as_str())?;
                Ok(())
            }
            Call::Link { from, to } => self.link(from.as_str(), to.as_str()),
            Call::Remove { path } => self.remove(path.as_str()),
            Call::Rename { from, to } => self.rename(from.as_str(), to.as_str()),
        }
    }

    /// Forgets what files hold that have no name. No program has one open.
    pub(crate) fn sweep(&mut self) {
        for (number, file) in self.files.as_mut_slice().iter_mut().enumerate() {
            if !is_named(self.names.as_slice(), self.waiting.as_slice(), number) {
                file.forget(self.alloc);
            }
        }
    }

    /// Syncs all files and names.
    pub(crate) fn sync_all(&mut self) -> io::Result<()> {
        self.sync_names();
        for file in self.files.as_mut_slice() {
            file.sync()?;
        }
        Ok(())
    }

    /// Power goes: what it leaves is what there is. Locks fall.
    pub(crate) fn lose_power(&mut self, random: &mut Random) -> io::Result<()> {
        leave_names(
            self.names.as_mut_slice(),
            self.waiting.as_mut_slice(),
            random,
        );
        self.waiting.clear();
        restart(self.names.as_mut_slice());
        for file in self.files.as_mut_slice() {
            leave_file(file, random)?;
        }
        Ok(())
    }

    /// The same files under the same names, all synced.
    pub(crate) fn copy(&self) -> io::Result<Disk> {
        let mut other = self.another();
        for file in self.files.as_slice() {
            other
                .files
                .push(Inode::new(self.alloc, file.held.as_slice())?)?;
        }
        for name in self.names.as_slice() {
            other.names.push(name.copy(self.alloc)?)?;
        }
        Ok(other)
    }

    /// What the file at a path holds.
    pub(crate) fn bytes_of(&self, path: &str) -> io::Result<Vec<u8>> {
        let number = self.find(path)?;
        match self.files.get(number) {
            Some(file) => copied(self.alloc, file.held.as_slice()),
            None => Err(missing()),
        }
    }
}
