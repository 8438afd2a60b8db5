//! How many events of each kind were played.

/// A kind of event.
#[derive(Clone, Copy, PartialEq, Eq)]
pub enum Event {
    /// A story in which links are refused.
    Linkless,
    /// A `serve`.
    Serve,
    /// A `play --sync`.
    PlaySync,
    /// A `play`.
    Play,
    /// A command that changes the disk.
    Change,
    /// A command that only reads.
    Look,
    /// A line that was sent.
    Line,
    /// A full log that was made anew.
    Renewal,
    /// A call that failed.
    Failure,
    /// A call that was cut short.
    Short,
    /// A program that was killed.
    Kill,
    /// A loss of power.
    PowerLoss,
    /// A kill or a loss of power in a recovery.
    Again,
    /// A lock of another program.
    Lock,
    /// A file that somebody moved, cut or replaced.
    Hand,
}

/// The names of all kinds.
pub static EVENTS: [(Event, &str); 15] = [
    (Event::Linkless, "stories without links"),
    (Event::Serve, "serve"),
    (Event::PlaySync, "play --sync"),
    (Event::Play, "play"),
    (Event::Change, "changes"),
    (Event::Look, "show, check, copy"),
    (Event::Line, "lines"),
    (Event::Renewal, "full logs"),
    (Event::Failure, "calls that fail"),
    (Event::Short, "calls cut short"),
    (Event::Kill, "kills"),
    (Event::PowerLoss, "power losses"),
    (Event::Again, "of these in recoveries"),
    (Event::Lock, "locks of others"),
    (Event::Hand, "files moved, cut or replaced"),
];

/// How many events of each kind were played.
#[derive(Clone, Copy)]
pub struct Counts {
    numbers: [u64; 15],
}

impl Counts {
    /// None yet.
    pub const NONE: Counts = Counts { numbers: [0; 15] };

    /// Counts so many events of a kind.
    pub(crate) fn add(&mut self, event: Event, count: u64) {
        if let Some(number) = self.numbers.get_mut(event as usize) {
            *number = number.saturating_add(count);
        }
    }

    /// How many there are of a kind.
    pub fn of(&self, event: Event) -> u64 {
        self.numbers.get(event as usize).copied().unwrap_or(0)
    }

    /// Counts those of another story too.
    pub fn add_all(&mut self, others: &Counts) {
        for (event, _) in &EVENTS {
            self.add(*event, others.of(*event));
        }
    }
}
