//! The files of the system, by their paths, and why a call about one of them failed.
ghost use Rattle.std.specs.Prelude.{◌≡◌, IfOk, IsErr, Ok};
ghost use Rattle.image_file.specs.Inner.{rights_in, traces_in};

use crate::inputs::HostInput;
use crate::noted::failures::Failures;
use crate::noted::limits::{OUTPUT, SizeLimit, StreamRoom};
use crate::noted::noted_file::NotedFile;
use crate::noted::noted_reader::NotedReader;
use crate::noted::subjects::Subject;
use crate::paths::host::{HostFiles, PlainFiles};
use crate::paths::system::{SystemFiles, folder_of};
use std::alloc::{Allocator, Global};
use std::fmt::Display;
use std::fs::Metadata;
use std::io::{self, BufRead, Lines};
use std::rt::Files;

/// A host whose files are those of a runtime of the system. It keeps the calls that fail. A call that would make a file, or that
/// of standard output, longer than the limit of the process isn't made, and fails.
#[derive(Drop)]
pub struct NotedRuntime<'n, 'a, R> {
    rt: &'n R,
    words: &'n [&'a str],
    failures: &'n Failures<'a>,
    limit: SizeLimit,
    output: StreamRoom,
}

impl<'n, 'a, R: Files> NotedRuntime<'n, 'a, R> {
    /// A runtime over this one, for a job whose files these words name. The failures of a job without such words aren't
    /// kept, except those of its input and output.
    pub fn new(
        rt: &'n R,
        words: &'n [&'a str],
        failures: &'n Failures<'a>,
    ) -> NotedRuntime<'n, 'a, R> {
        let limit = SizeLimit::of_process(rt);
        NotedRuntime {
            rt,
            words,
            failures,
            limit,
            output: StreamRoom::of(rt, limit, OUTPUT),
        }
    }
}

impl<'n, 'a, R> NotedRuntime<'n, 'a, R> {
    /// What came of a call about a path, kept if it failed.
    fn noted<T: Drop>(&self, path: &str, outcome: io::Result<T>) -> io::Result<T>
        ensures { result ≡ outcome }
    {
        if outcome.is_ok() {
            return outcome;
        }
        self.failures
            .noted(Subject::of(self.words, path), None, outcome)
    }

    /// A file that was opened at a path, which keeps its own failures. If it wasn't, that is kept.
    fn opened<F: Drop>(
        &self,
        path: &str,
        outcome: io::Result<F>,
    ) -> io::Result<NotedFile<'n, 'a, F>>
        ensures file { IfOk result (λ opened. outcome ≡ Ok opened.file) }
        ensures err { IsErr outcome → IsErr result }
    {
        let subject = Subject::of(self.words, path);
        let file = self.failures.noted(subject, None, outcome)?;
        Ok(NotedFile::new(file, self.limit, subject, self.failures))
    }

    /// What came of printing, kept if it failed.
    fn printed<T: Drop>(&self, outcome: io::Result<T>) -> io::Result<T>
        ensures { result ≡ outcome }
    {
        self.failures.noted(Some(Subject::Output), None, outcome)
    }
}

impl<R: Alloc> Alloc for NotedRuntime<'_, '_, R> {
    type A = R::A;

    fn alloc(&self) -> R::A {
        self.rt.alloc()
    }
}

impl<'n, 'a, R: SystemFiles> HostFiles for NotedRuntime<'n, 'a, R> {
    type File = NotedFile<'n, 'a, R::File>;

    // what its system says
    ghost rights = { rights_in (λ noted. noted.rt.now) R.rights };

    ghost stands = { λ noted. R.stands noted.rt.now };

    ghost traces = { traces_in (λ noted. noted.rt.now) (λ file. file.file) R.traces };

    fn look_at(&self, path: &str) -> io::Result<Metadata> {
        self.noted(path, self.rt.look_at(path))
    }

    fn is_named(&self, path: &str) -> io::Result<bool> {
        self.noted(path, self.rt.is_named(path))
    }

    fn resolve(&self, alloc: Global, path: &str) -> io::Result<String> {
        self.rt.resolve(alloc, path)
    }

    fn sync_folder_of(&self, path: &str) -> io::Result<()> {
        self.noted(folder_of(path), self.rt.sync_folder_of(path))
    }

    fn open_to_read(&self, path: &str) -> io::Result<NotedFile<'n, 'a, R::File>> {
        self.opened(path, self.rt.open_to_read(path))
    }

    fn open_to_change(&self, path: &str) -> io::Result<NotedFile<'n, 'a, R::File>> {
        let file = self.opened(path, self.rt.open_to_change(path))?;
        file.see_length()?;
        Ok(file)
    }

    fn see_writable(&self, path: &str) -> io::Result<()> {
        self.noted(path, self.rt.see_writable(path))
    }

    fn open_to_write(&self, path: &str) -> io::Result<NotedFile<'n, 'a, R::File>> {
        self.opened(path, self.rt.open_to_write(path))
    }

    fn make_file(&self, path: &str, mode: u32) -> io::Result<NotedFile<'n, 'a, R::File>> {
        self.opened(path, self.rt.make_file(path, mode))
    }

    fn make_folder(&self, path: &str) -> io::Result<()> {
        self.noted(path, self.rt.make_folder(path))
    }

    fn rename(&self, from: &str, to: &str) -> io::Result<()> {
        self.noted(to, self.rt.rename(from, to))
    }

    fn remove(&self, path: &str) -> io::Result<()> {
        self.noted(path, self.rt.remove(path))
    }

    fn give_free_name(&self, from: &str, to: &str) -> io::Result<()> {
        self.noted(to, self.rt.give_free_name(from, to))
    }

    fn remove_folder(&self, path: &str) -> io::Result<()> {
        self.noted(path, self.rt.remove_folder(path))
    }

    fn is_mounted(&self, alloc: Global, path: &str) -> io::Result<bool> {
        self.noted(path, self.rt.is_mounted(alloc, path))
    }
}

impl<R: SystemFiles> PlainFiles for NotedRuntime<'_, '_, R> {}

impl<'n, 'a, R: HostInput> HostInput for NotedRuntime<'n, 'a, R> {
    type Given = NotedReader<'n, 'a, R::Given>;

    ghost given = { λ noted. R.given noted.rt.now };

    fn input(&self) -> NotedReader<'n, 'a, R::Given> {
        NotedReader::new(self.rt.input(), self.failures)
    }
}

impl<'n, 'a, R: Input> Input for NotedRuntime<'n, 'a, R> {
    type Reader = NotedReader<'n, 'a, R::Reader>;

    fn read_line<A: Allocator + Clone>(&self, buf: &mut String<A>) -> io::Result<usize> {
        self.rt.read_line(buf)
    }

    fn lines<A: Allocator>(&self, alloc: A) -> Lines<NotedReader<'n, 'a, R::Reader>, A> {
        self.reader().lines(alloc)
    }

    fn reader(&self) -> NotedReader<'n, 'a, R::Reader> {
        NotedReader::new(self.rt.reader(), self.failures)
    }
}

impl<R: Print> Print for NotedRuntime<'_, '_, R> {
    fn print<D: Display + Drop>(&self, value: D) -> io::Result<()> {
        self.printed(self.rt.print(value))
    }

    fn println<D: Display + Drop>(&self, value: D) -> io::Result<()> {
        self.printed(self.rt.println(value))
    }

    fn write_all(&self, bytes: &[u8]) -> io::Result<()> {
        self.printed(match self.output.take(bytes) {
            Ok(()) => Print::write_all(self.rt, bytes),
            limited => limited,
        })
    }

    fn write_some(&self, bytes: &[u8]) -> io::Result<usize> {
        self.printed(match self.output.take(bytes) {
            Ok(()) => self.rt.write_some(bytes),
            Err(limited) => Err(limited),
        })
    }
}
