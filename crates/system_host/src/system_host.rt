//! The operating system as a host.
ghost use Rattle.std.specs.Prelude.{◌≡◌, IfOk, Ok};
ghost use Rattle.one_host.specs.Rights.{all_rights};
ghost use Rattle.system_host.specs.Unknown.{unknown};

use crate::calls::{
    filled, folder_of, found_at, give_free_name, guard_as, locked, made, opened, resolved,
};
use crate::open_files::OpenFiles;
use one_host::{About, Access, Attributes, Failure, Found, Handle, Host, Lock, Stream};
use std::alloc::Global;
use std::fs::File;
use std::io::{self, Read, Write};
use std::os::unix::fs::FileExt;
use std::rt::Files;

/// The operating system, of which no contract can say anything: that it does what the clauses of `Host` say is trusted.
#[derive(Drop)]
pub struct SystemHost<'a, R, I, O, E> {
    rt: &'a R,
    files: OpenFiles,
    input: I,
    output: O,
    errors: E,
    failed: Option<Failure>,
}

impl<'a, R: Files<File = File>, I: Read, O: Write, E: Write> SystemHost<'a, R, I, O, E> {
    /// The system, with an input and two outputs. No file is open.
    pub fn new(
        rt: &'a R,
        alloc: Global,
        input: I,
        output: O,
        errors: E,
    ) -> SystemHost<'a, R, I, O, E> {
        SystemHost {
            rt,
            files: OpenFiles::none(alloc),
            input,
            output,
            errors,
            failed: None,
        }
    }

    /// The last call that failed.
    pub fn failure(&self) -> Option<Failure> {
        self.failed
    }

    /// Keeps why a call failed.
    fn kept<T: Drop>(&mut self, about: About, outcome: io::Result<T>) -> Result<T, Failure>
        ensures { IfOk result (λ x. outcome ≡ Ok x) }
    {
        match outcome {
            Ok(value) => Ok(value),
            Err(error) => {
                let failure = Failure { error, about };
                self.failed = Some(failure);
                Err(failure)
            }
        }
    }
}

impl<R: Files<File = File>, I: Read, O: Write, E: Write> Host for SystemHost<'_, R, I, O, E> {
    ghost history = { unknown };

    ghost rights = { all_rights };

    fn look(&mut self, path: &str) -> Result<Found, Failure> {
        let outcome = found_at(self.rt, path);
        self.kept(About::Path, outcome)
    }

    fn leads(&mut self, path: &str, file: Handle) -> Result<bool, Failure> {
        let found = self.rt.metadata(path);
        let found = self.kept(About::Path, found)?;
        Ok(self.files.is(file, &found))
    }

    fn resolve(&mut self, alloc: Global, path: &str) -> Result<String, Failure> {
        let outcome = resolved(self.rt, alloc, path);
        self.kept(About::Path, outcome)
    }

    fn open(&mut self, path: &str, access: Access) -> Result<Handle, Failure> {
        let file = opened(self.rt, path, access);
        let file = self.kept(About::Path, file)?;
        let outcome = self.files.hold(file);
        self.kept(About::Path, outcome)
    }

    fn make(&mut self, path: &str, mode: u32) -> Result<Handle, Failure> {
        let file = made(self.rt, path, mode);
        let file = self.kept(About::Path, file)?;
        let outcome = self.files.hold(file);
        self.kept(About::Path, outcome)
    }

    fn make_folder(&mut self, path: &str) -> Result<(), Failure> {
        let outcome = self.rt.create_dir(path);
        self.kept(About::Path, outcome)
    }

    fn rename(&mut self, from: &str, to: &str) -> Result<(), Failure> {
        let outcome = self.rt.rename(from, to);
        self.kept(About::Path, outcome)
    }

    fn give_free_name(&mut self, from: &str, to: &str) -> Result<(), Failure> {
        let outcome = give_free_name(self.rt, from, to);
        self.kept(About::Path, outcome)
    }

    fn remove(&mut self, path: &str) -> Result<(), Failure> {
        let outcome = self.rt.remove_file(path);
        self.kept(About::Path, outcome)
    }

    fn remove_folder(&mut self, path: &str) -> Result<(), Failure> {
        let outcome = self.rt.remove_dir(path);
        self.kept(About::Path, outcome)
    }

    fn sync_folder(&mut self, path: &str) -> Result<(), Failure> {
        let outcome = match File::open(self.rt, folder_of(path)) {
            Ok(folder) => folder.sync_all(),
            Err(error) => Err(error),
        };
        self.kept(About::Path, outcome)
    }

    fn size(&mut self, file: Handle) -> Result<u64, Failure> {
        let outcome = match self.files.file(file) {
            Ok(open) => open.metadata(),
            Err(error) => Err(error),
        };
        let found = self.kept(About::File(file), outcome)?;
        Ok(found.len())
    }

    fn read_at(&mut self, file: Handle, at: u64, to: &mut [u8]) -> Result<usize, Failure> {
        let outcome = match self.files.file(file) {
            Ok(open) => filled(open, at, to),
            Err(error) => Err(error),
        };
        self.kept(About::File(file), outcome)
    }

    fn write_at(&mut self, file: Handle, at: u64, bytes: &[u8]) -> Result<(), Failure> {
        let outcome = match self.files.file(file) {
            Ok(open) => open.write_all_at(bytes, at),
            Err(error) => Err(error),
        };
        self.kept(About::File(file), outcome)
    }

    fn set_size(&mut self, file: Handle, size: u64) -> Result<(), Failure> {
        let outcome = match self.files.file(file) {
            Ok(open) => open.set_len(size),
            Err(error) => Err(error),
        };
        self.kept(About::File(file), outcome)
    }

    fn sync(&mut self, file: Handle) -> Result<(), Failure> {
        let outcome = match self.files.file(file) {
            Ok(open) => open.sync_all(),
            Err(error) => Err(error),
        };
        self.kept(About::File(file), outcome)
    }

    fn guard_as(&mut self, file: Handle, like: &Attributes) -> Result<(), Failure> {
        let outcome = match self.files.file(file) {
            Ok(open) => {
                guard_as(open, like);
                Ok(())
            }
            Err(error) => Err(error),
        };
        self.kept(About::File(file), outcome)
    }

    fn lock(&mut self, file: Handle, how: Lock) -> Result<bool, Failure> {
        let outcome = match self.files.file(file) {
            Ok(open) => locked(open, how),
            Err(error) => Err(error),
        };
        self.kept(About::File(file), outcome)
    }

    fn close(&mut self, file: Handle) -> Result<(), Failure> {
        self.files.close(file);
        Ok(())
    }

    fn read_input(&mut self, to: &mut [u8]) -> Result<usize, Failure> {
        let outcome = self.input.read(to);
        self.kept(About::Input, outcome)
    }

    fn print(&mut self, stream: Stream, text: &[u8]) -> Result<usize, Failure> {
        let outcome = match stream {
            Stream::Output => self.output.write(text),
            Stream::Errors => self.errors.write(text),
        };
        self.kept(About::Output(stream), outcome)
    }
}
