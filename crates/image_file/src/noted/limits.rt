//! The longest file that the system lets this program write.
ghost use Rattle.std.specs.Prelude.{◌≤◌, ◌<◌, OnErr, OnOk};

use crate::paths::opening::regular;
use std::cell::Cell;
use std::fs::File;
use std::io::{self, ErrorKind, Read, Write};
use std::rt::Files;
use std::str;

/// What a Linux system says of the limits of this process, a line each: a name, the limit that holds, and how far the process
/// could raise it.
const LIMITS: &str = "/proc/self/limits";

/// The name of the limit on a file's length, in bytes.
const FILE_LENGTH: &str = "Max file size";

/// The paths that lead to standard output and standard error.
pub(crate) const OUTPUT: &str = "/dev/stdout";

const ERRORS: &str = "/dev/stderr";

/// How many bytes a file may have, by the limit of this process (`ulimit -f`). A process that writes past it is killed.
#[derive(Clone, Copy)]
pub(crate) struct SizeLimit {
    pub(crate) most: u64,
}

/// The number in the line of the limit on a file's length. None if there is no such line, or the limit has no number.
fn number_in(limits: &str) -> Option<u64> {
    for line in limits.lines() {
        if let Some(said) = line.strip_prefix(FILE_LENGTH) {
            return said.split_whitespace().next()?.parse().ok();
        }
    }
    None
}

/// The limit on a file's length that the system has for this process. None if there is none, or the system doesn't say.
fn said_limit<R: Files>(rt: &R) -> Option<u64> {
    // The line is the second one of some 80 bytes each.
    let mut room = [0; 512];
    let read = File::open(rt, LIMITS).ok()?.read(&mut room).ok()?;
    number_in(str::from_utf8(&room[..read]).ok()?)
}

impl SizeLimit {
    /// The limit of this process. There is none if the system doesn't say.
    pub(crate) fn of_process<R: Files>(rt: &R) -> SizeLimit {
        SizeLimit {
            most: said_limit(rt).unwrap_or(u64::MAX),
        }
    }

    /// Whether there is a limit.
    pub(crate) fn is_set(self) -> bool {
        self.most < u64::MAX
    }

    /// An error, `FileTooLarge`, if a file that ends after so many bytes is longer than the limit.
    pub(crate) fn see_end(self, end: u64) -> io::Result<()>
        ensures ok { OnOk result (end ≤ self.most) }
        ensures err { OnErr result (self.most < end) }
    {
        if end <= self.most {
            return Ok(());
        }
        let said = "it would be longer than the limit of this process allows (ulimit -f)";
        Err(io::Error::new(ErrorKind::FileTooLarge, said))
    }
}

/// Where these bytes end, written from that place on.
pub(crate) fn end_of(bytes: &[u8], at: u64) -> u64 {
    at.saturating_add(bytes.len() as u64)
}

/// The room that a standard stream has until its file is as long as the limit allows. It is taken for the only one that
/// writes that file.
#[derive(Drop)]
pub(crate) struct StreamRoom {
    limit: SizeLimit,
    // how long the file is, if there is a limit and it is a regular file
    end: Cell<Option<u64>>,
}

impl StreamRoom {
    /// The room of the stream to which a path leads, such as `/dev/stdout`.
    pub(crate) fn of<R: Files>(rt: &R, limit: SizeLimit, path: &str) -> StreamRoom {
        let found = if limit.is_set() {
            regular(rt.metadata(path)).ok()
        } else {
            None
        };
        StreamRoom {
            limit,
            end: Cell::new(found.map(|found| found.len())),
        }
    }

    /// Takes the room for these bytes. An error if there isn't so much.
    pub(crate) fn take(&self, bytes: &[u8]) -> io::Result<()> {
        if let Some(at) = self.end.get() {
            let end = end_of(bytes, at);
            self.limit.see_end(end)?;
            self.end.set(Some(end));
        }
        Ok(())
    }
}

/// Standard error, of which nothing is written past the limit of the process: that fails. The limit is asked for before the
/// first bytes.
#[derive(Drop)]
pub struct LimitedErrors<'e, R, E> {
    rt: &'e R,
    err: &'e mut E,
    room: Option<StreamRoom>,
}

impl<'e, R, E> LimitedErrors<'e, R, E> {
    /// This writer, which is standard error.
    pub fn new(rt: &'e R, err: &'e mut E) -> LimitedErrors<'e, R, E> {
        LimitedErrors {
            rt,
            err,
            room: None,
        }
    }
}

impl<R: Files, E: Write> Write for LimitedErrors<'_, R, E> {
    fn write(&mut self, buf: &[u8]) -> io::Result<usize> {
        if self.room.is_none() {
            let limit = SizeLimit::of_process(self.rt);
            self.room = Some(StreamRoom::of(self.rt, limit, ERRORS));
        }
        if let Some(room) = &self.room {
            room.take(buf)?;
        }
        self.err.write(buf)
    }

    fn flush(&mut self) -> io::Result<()> {
        self.err.flush()
    }
}
