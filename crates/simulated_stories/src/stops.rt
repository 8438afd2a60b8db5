//! Why a story ends early.
use std::alloc::AllocError;
use std::io;

/// Why a story ends early.
#[derive(Clone, Copy, Debug, PartialEq, Eq)]
pub enum Stop {
    /// The program did what it may not do.
    Wrong(&'static str),
    /// There was no memory for the machine.
    NoMemory,
}

impl From<io::Error> for Stop {
    fn from(_error: io::Error) -> Stop {
        Stop::NoMemory
    }
}

impl From<AllocError> for Stop {
    fn from(_error: AllocError) -> Stop {
        Stop::NoMemory
    }
}

/// An end with this reason, unless it is so.
pub(crate) fn see(is_so: bool, reason: &'static str) -> Result<(), Stop> {
    if is_so {
        Ok(())
    } else {
        Err(Stop::Wrong(reason))
    }
}
