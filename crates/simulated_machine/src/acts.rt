//! The calls of the program that change something, each after which other one, so that one can be left out or made late.

/// A kind of call that changes something.
#[derive(Clone, Copy, PartialEq, Eq)]
pub enum Act {
    /// A run begins.
    Begin,
    /// The folder is synced.
    SyncFolder,
    /// The image is synced.
    SyncImage,
    /// The log is synced.
    SyncLog,
    /// A log in the making is synced.
    SyncMaking,
    /// Another file is synced.
    SyncOther,
    /// A file is made.
    Make,
    /// A name is taken away.
    Remove,
    /// A file gets another name in the place of its own.
    Rename,
    /// A file gets another name besides.
    Link,
    /// The image is written.
    WriteImage,
    /// The log is written.
    WriteLog,
    /// A log in the making is written.
    WriteMaking,
    /// Another file is written.
    WriteOther,
    /// One byte is written, which is a log's mark.
    WriteByte,
    /// A file gets a length.
    End,
}

/// How many kinds there are.
const KINDS: usize = 16;

/// The names of all kinds, in their order.
pub static ACTS: [&str; 16] = [
    "the beginning",
    "sync the folder",
    "sync IMAGE",
    "sync the log",
    "sync the log in the making",
    "sync another file",
    "make a file",
    "remove a name",
    "rename a file",
    "give a second name",
    "write IMAGE",
    "write the log",
    "write the log in the making",
    "write another file",
    "write the mark",
    "set a length",
];

/// What becomes of a call that comes.
#[derive(Clone, Copy, PartialEq, Eq)]
pub(crate) enum Turn {
    /// It is made.
    Now,
    /// It isn't made.
    Never,
    /// It is made after the next call of another kind.
    Later,
}

/// Which calls were made after which other ones, which one isn't made at all, and which one is made late. Calls of one kind in a row
/// count as one.
#[derive(Clone, Copy)]
pub struct Acts {
    now: Act,
    before: Act,
    left_out: Option<usize>,
    late: Option<usize>,
    seen: [bool; 256],
}

impl Acts {
    /// All are made.
    pub const ALL: Acts = Acts {
        now: Act::Begin,
        before: Act::Begin,
        left_out: None,
        late: None,
        seen: [false; 256],
    };

    /// The same with one that isn't made: the kind's number, and 16 times that of the kind before.
    pub(crate) fn without(number: usize) -> Acts {
        let mut acts = Acts::ALL;
        acts.left_out = Some(number);
        acts
    }

    /// The same with one that is made late.
    pub(crate) fn delaying(number: usize) -> Acts {
        let mut acts = Acts::ALL;
        acts.late = Some(number);
        acts
    }

    /// A call comes. What becomes of it.
    pub(crate) fn come(&mut self, act: Act) -> Turn {
        if act != self.now {
            self.before = self.now;
            self.now = act;
        }
        let number = (self.before as usize)
            .saturating_mul(KINDS)
            .saturating_add(act as usize);
        if let Some(seen) = self.seen.get_mut(number) {
            *seen = true;
        }
        if self.left_out == Some(number) {
            return Turn::Never;
        }
        if self.late == Some(number) {
            return Turn::Later;
        }
        Turn::Now
    }

    /// Those that came on another machine came too.
    pub fn add_all(&mut self, others: &Acts) {
        for (seen, other) in self.seen.iter_mut().zip(&others.seen) {
            *seen |= *other;
        }
    }

    /// Whether a call of this number came.
    pub fn has_seen(&self, number: usize) -> bool {
        self.seen.get(number).copied().unwrap_or(false)
    }
}

/// The names of a call and of the one before it, by its number.
pub fn names_of(number: usize) -> (&'static str, &'static str) {
    let act = ACTS.get(number % KINDS).copied().unwrap_or("");
    let before = ACTS.get(number / KINDS).copied().unwrap_or("");
    (act, before)
}
