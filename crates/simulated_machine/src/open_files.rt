//! An open file of a machine.
ghost use Rattle.std.specs.Prelude.{◌≡◌};

use crate::disks::FOLDER;
use crate::machines::Machine;
use image_file::{EndedFile, Locks, WritesAt, read_image};
use std::alloc::Global;
use std::fs::{Metadata, OpenFile, TryLockError};
use std::io::{self, Read, Seek, SeekFrom, Write};

/// An open file of a machine, or its folder.
#[derive(Drop)]
pub struct MachineFile<'m> {
    machine: &'m Machine,
    number: usize,
    at: usize,
}

/// What the system says of a file. It has no number, so a file that takes the place of another one of its length isn't known from it.
pub(crate) fn described(machine: &Machine, number: usize) -> Metadata {
    if number == FOLDER {
        return Metadata::of_dir();
    }
    Metadata::of_file(machine.size(number) as u64)
}

impl<'m> MachineFile<'m> {
    /// The file with this number.
    pub(crate) fn new(machine: &'m Machine, number: usize) -> MachineFile<'m> {
        MachineFile {
            machine,
            number,
            at: 0,
        }
    }
}

impl Read for MachineFile<'_> {
    fn read(&mut self, buf: &mut [u8]) -> io::Result<usize> {
        let count = self.machine.read(self.number, self.at, buf)?;
        self.at = self.at.saturating_add(count);
        Ok(count)
    }
}

impl Write for MachineFile<'_> {
    fn write(&mut self, buf: &[u8]) -> io::Result<usize> {
        self.machine.write(self.number, self.at as u64, buf)?;
        self.at = self.at.saturating_add(buf.len());
        Ok(buf.len())
    }

    fn flush(&mut self) -> io::Result<()> {
        Ok(())
    }
}

impl Seek for MachineFile<'_> {
    fn seek(&mut self, to: SeekFrom) -> io::Result<u64> {
        let size = self.machine.size(self.number) as u64;
        let at = match to {
            SeekFrom::Start(at) => at,
            SeekFrom::End(by) => size.saturating_add_signed(by),
            SeekFrom::Current(by) => (self.at as u64).saturating_add_signed(by),
        };
        self.at = at as usize;
        Ok(at)
    }
}

impl OpenFile for MachineFile<'_> {
    fn metadata(&self) -> io::Result<Metadata> {
        self.machine.pass()?;
        Ok(described(self.machine, self.number))
    }

    fn set_len(&self, size: u64) -> io::Result<()> {
        self.machine.end(self.number, size)
    }

    fn sync_all(&self) -> io::Result<()> {
        self.machine.sync(self.number)
    }

    fn sync_data(&self) -> io::Result<()> {
        self.machine.sync(self.number)
    }
}

impl EndedFile for MachineFile<'_> {
    fn write_over(&mut self, bytes: &[u8], at: u64) -> io::Result<()> {
        self.machine.write(self.number, at, bytes)
    }

    fn end_at(&mut self, bytes: u64) -> io::Result<()> {
        self.machine.end(self.number, bytes)
    }

    fn sync_whole(&mut self) -> io::Result<()> {
        self.machine.sync(self.number)
    }

    fn finish(&mut self) -> io::Result<()> {
        Ok(())
    }
}

impl WritesAt for MachineFile<'_> {
    ghost use Rattle.image_file.specs.Lasting.{unknown_whole};

    ghost whole = { unknown_whole };

    fn write_all_at(&mut self, bytes: &[u8], at: u64) -> io::Result<()> {
        self.machine.write(self.number, at, bytes)
    }

    fn sync(&mut self) -> io::Result<()> {
        self.machine.sync(self.number)
    }
}

impl Locks for MachineFile<'_> {
    ghost use Rattle.std.specs.Prelude.{refl};

    ghost reads = { λ _. refl };

    fn lock_alone(&mut self) -> Result<(), TryLockError> {
        self.machine.try_lock(self.number, true)
    }

    fn lock_shared(&mut self) -> Result<(), TryLockError> {
        self.machine.try_lock(self.number, false)
    }

    fn image(&mut self, alloc: Global) -> io::Result<Vec<u8>> {
        read_image(alloc, self)
    }
}
