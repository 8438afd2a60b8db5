//! What happens to a call.

/// What happens to a call of the program.
#[derive(Clone, Copy, Debug, PartialEq, Eq)]
pub enum Strike {
    /// It is done.
    Passes,
    /// It fails. A write has written some first sectors, and another call was done or not.
    Fails,
    /// It is cut short: a read gives fewer bytes than there are, and a write takes two turns.
    IsShort,
    /// It is the last one: the program is killed, or power goes. It was done, in part or not at all.
    Stops,
}

/// Which calls are counted.
#[derive(Clone, Copy, Debug, PartialEq, Eq)]
pub enum Counted {
    /// All.
    All,
    /// Only those that sync, or make, change or remove a name.
    Steps,
}

/// How a file is locked by another program.
#[derive(Clone, Copy, Debug, PartialEq, Eq)]
pub enum Lock {
    /// Not at all.
    Free,
    /// So that others may read it.
    Shared,
    /// Alone.
    Alone,
}

/// What happens to the call of one number in a run.
#[derive(Clone, Copy, Debug)]
pub struct Plan {
    /// Which calls are counted.
    pub counted: Counted,
    /// The number of the call, from 1 on. 0: to no call.
    pub at: u64,
    /// What happens to it.
    pub what: Strike,
    /// A number that says how much of it is done then.
    pub part: u64,
}

impl Plan {
    /// Nothing happens.
    pub const NONE: Plan = Plan {
        counted: Counted::All,
        at: 0,
        what: Strike::Passes,
        part: 0,
    };
}
