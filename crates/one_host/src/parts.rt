//! What the calls of a system speak of.
use std::io;

/// A file that is open. Two that are equal are one file.
#[derive(Clone, Copy, Debug, PartialEq, Eq)]
pub struct Handle {
    /// Its number.
    pub number: usize,
}

/// What a name is.
#[derive(Clone, Copy, Debug, PartialEq, Eq)]
pub enum Entry {
    /// Nothing has this name.
    Nothing,
    /// A symbolic link that leads nowhere.
    Nowhere,
    /// It leads to the file with this number.
    Leads(usize),
}

/// What a file is.
#[derive(Clone, Copy, Debug, PartialEq, Eq)]
pub enum Kind {
    /// A regular file.
    Regular,
    /// A folder.
    Folder,
    /// A pipe, a device, or another thing at which a call may wait.
    Other,
}

/// What the system says of a file.
#[derive(Clone, Copy, Debug, PartialEq, Eq)]
pub struct Attributes {
    /// What it is.
    pub kind: Kind,
    /// How many bytes it has.
    pub bytes: u64,
    /// Who may use it, as bits.
    pub mode: u32,
    /// The number of its owner.
    pub owner: u32,
    /// The number of its group.
    pub group: u32,
}

/// What stands at a path.
#[derive(Clone, Copy, Debug, PartialEq, Eq)]
pub enum Found {
    /// Nothing.
    Nothing,
    /// A symbolic link that leads nowhere.
    Nowhere,
    /// A file, a folder, or another thing.
    File(Attributes),
}

/// For what a file is opened. It is neither made nor cut.
#[derive(Clone, Copy, Debug, PartialEq, Eq)]
pub enum Access {
    /// To read it.
    Read,
    /// To read and write it.
    Change,
    /// To write it; it needn't be readable.
    Write,
}

/// How a file is locked.
#[derive(Clone, Copy, Debug, PartialEq, Eq)]
pub enum Lock {
    /// Not at all.
    Free,
    /// So that others may read it, and none writes it.
    Shared,
    /// For one program alone.
    Alone,
}

/// Where a text is printed.
#[derive(Clone, Copy, Debug, PartialEq, Eq)]
pub enum Stream {
    /// Standard output.
    Output,
    /// The standard stream for errors.
    Errors,
}

/// What a call was about.
#[derive(Clone, Copy, Debug, PartialEq, Eq)]
pub enum About {
    /// The path that was given.
    Path,
    /// A file that is open.
    File(Handle),
    /// Standard input.
    Input,
    /// A stream that is printed to.
    Output(Stream),
}

/// Why a call failed.
#[derive(Clone, Copy, Debug)]
pub struct Failure {
    /// What the system said.
    pub error: io::Error,
    /// What the call was about.
    pub about: About,
}
