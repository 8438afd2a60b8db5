//! Why calls of the system failed.
ghost use Rattle.std.specs.Prelude.{◌≡◌};

use crate::noted::subjects::Subject;
use d64_image::Place;
use std::cell::Cell;
use std::io::{self, ErrorKind};

/// A call of the system that failed.
#[derive(Clone, Copy, Debug)]
pub struct Failure<'a> {
    /// What it was about.
    pub subject: Subject<'a>,
    /// What the system said.
    pub error: io::Error,
    /// The sector that was to be written, if it was one of an image.
    pub sector: Option<Place>,
}

/// The calls of a job that failed: the first one, and the last one about a file of the command line that isn't there. A
/// job makes such a file, or ends with that failure.
///
/// Some failures are answers, and aren't kept: a file beside the named ones that isn't there, or is there already, and a
/// call that was interrupted.
#[derive(Drop)]
pub struct Failures<'a> {
    first: Cell<Option<Failure<'a>>>,
    missing: Cell<Option<Failure<'a>>>,
}

impl<'a> Failures<'a> {
    /// No call has failed.
    pub fn none() -> Failures<'a> {
        Failures {
            first: Cell::new(None),
            missing: Cell::new(None),
        }
    }

    /// Why the job failed: its first failure, otherwise the file that isn't there. None if no call failed.
    pub fn cause(&self) -> Option<Failure<'a>> {
        match self.first.get() {
            None => self.missing.get(),
            first => first,
        }
    }

    /// Keeps a failure, unless it is an answer.
    pub(crate) fn note(&self, failure: Failure<'a>) {
        match (failure.error.kind(), failure.subject) {
            (ErrorKind::Interrupted, _) => {}
            (ErrorKind::NotFound | ErrorKind::AlreadyExists, Subject::Beside(_)) => {}
            (ErrorKind::NotFound, Subject::File(_)) => self.missing.set(Some(failure)),
            _ => {
                if self.first.get().is_none() {
                    self.first.set(Some(failure));
                }
            }
        }
    }

    /// What came of a call about this, kept if it failed.
    pub(crate) fn noted<T: Drop>(
        &self,
        subject: Option<Subject<'a>>,
        sector: Option<Place>,
        outcome: io::Result<T>,
    ) -> io::Result<T>
        ensures { result ≡ outcome }
    {
        if let (Err(error), Some(subject)) = (&outcome, subject) {
            self.note(Failure {
                subject,
                error: *error,
                sector,
            });
        }
        outcome
    }
}
