//! A machine as the system on which the program runs.
ghost use Rattle.std.specs.Prelude.{◌≡◌};
ghost use Rattle.std.specs.Io.{WritesAtMost};

use crate::inputs::GivenInput;
use crate::machines::Machine;
use crate::open_files::{MachineFile, described};
use std::alloc::{Allocator, Global};
use std::env::FillError;
use std::fmt::Display;
use std::fs::{Metadata, OpenOptions};
use std::io::{self, BufRead, ErrorKind, Lines};
use std::rt::{Env, Files};
use std::time::{Clock, Duration};

/// A machine as a system: files in one folder without others in it, words, input and output. Memory is the real one.
#[derive(Clone, Copy)]
pub struct Host<'m> {
    machine: &'m Machine,
}

impl<'m> Host<'m> {
    /// This machine as a system.
    pub fn new(machine: &'m Machine) -> Host<'m> {
        Host { machine }
    }
}

/// The error of a call that no machine has.
fn unsupported() -> io::Error {
    ErrorKind::Unsupported.into()
}

impl Alloc for Host<'_> {
    type A = Global;

    fn alloc(&self) -> Global {
        self.machine.alloc
    }
}

impl<'m> Files for Host<'m> {
    type File = MachineFile<'m>;

    type Dir = GivenInput<'m>;

    fn open_file(&self, how: &OpenOptions, path: &str) -> io::Result<MachineFile<'m>> {
        how.check()?;
        if how.asks_create_new() {
            return Ok(MachineFile::new(self.machine, self.machine.make(path)?));
        }
        self.machine.pass()?;
        if how.asks_create() || how.asks_truncate() || how.asks_append() {
            return Err(unsupported());
        }
        Ok(MachineFile::new(self.machine, self.machine.find(path)?))
    }

    fn open_dir(&self, _path: &str) -> io::Result<GivenInput<'m>> {
        Err(unsupported())
    }

    fn metadata(&self, path: &str) -> io::Result<Metadata> {
        self.machine.pass()?;
        let number = self.machine.find(path)?;
        Ok(described(self.machine, number))
    }

    fn symlink_metadata(&self, path: &str) -> io::Result<Metadata> {
        self.metadata(path)
    }

    fn copy(&self, _from: &str, _to: &str) -> io::Result<u64> {
        Err(unsupported())
    }

    fn rename(&self, from: &str, to: &str) -> io::Result<()> {
        self.machine.rename(from, to)
    }

    fn remove_file(&self, path: &str) -> io::Result<()> {
        self.machine.remove(path)
    }

    fn create_dir(&self, _path: &str) -> io::Result<()> {
        Err(unsupported())
    }

    fn remove_dir(&self, _path: &str) -> io::Result<()> {
        Err(unsupported())
    }

    fn remove_dir_all<B: Allocator>(&self, _alloc: B, _path: &str) -> io::Result<()> {
        Err(unsupported())
    }

    fn hard_link(&self, original: &str, link: &str) -> io::Result<()> {
        self.machine.link(original, link)
    }
}

/// Copies bytes to the front of a buffer.
fn filled(bytes: &[u8], buf: &mut [u8]) -> Result<usize, FillError>
    ensures { WritesAtMost result buf.new }
{
    if bytes.len() > buf.len() {
        return Err(FillError::TooLong);
    }
    buf[..bytes.len()].copy_from_slice(bytes);
    Ok(bytes.len())
}

impl Env for Host<'_> {
    fn arg(&self, i: usize, buf: &mut [u8]) -> Result<usize, FillError> {
        match self.machine.words().get(i) {
            Some(word) => filled(word.as_bytes(), buf),
            None => Err(FillError::NotPresent),
        }
    }

    fn var(&self, _name: &str, _buf: &mut [u8]) -> Result<usize, FillError> {
        Err(FillError::NotPresent)
    }

    fn var_at(&self, _i: usize, _buf: &mut [u8]) -> Result<usize, FillError> {
        Err(FillError::NotPresent)
    }
}

impl Clock for Host<'_> {
    fn monotonic(&self) -> io::Result<Duration> {
        Ok(Duration::from_secs(0))
    }

    fn since_1970(&self) -> io::Result<Duration> {
        Ok(Duration::from_secs(0))
    }

    fn sleep(&self, _duration: Duration) {
        self.machine.nap();
    }
}

impl<'m> Input for Host<'m> {
    type Reader = GivenInput<'m>;

    fn read_line<A: Allocator + Clone>(&self, _buf: &mut String<A>) -> io::Result<usize> {
        Err(unsupported())
    }

    fn lines<A: Allocator>(&self, alloc: A) -> Lines<GivenInput<'m>, A> {
        self.reader().lines(alloc)
    }

    fn reader(&self) -> GivenInput<'m> {
        GivenInput::new(self.machine)
    }
}

impl Print for Host<'_> {
    // The program hands on bytes.
    fn print<D: Display + Drop>(&self, _value: D) -> io::Result<()> {
        Err(unsupported())
    }

    fn println<D: Display + Drop>(&self, _value: D) -> io::Result<()> {
        Err(unsupported())
    }

    fn write_all(&self, bytes: &[u8]) -> io::Result<()> {
        self.machine.print_all(bytes)
    }

    fn write_some(&self, bytes: &[u8]) -> io::Result<usize> {
        self.machine.print_some(bytes)
    }
}
