//! What may stand after a subcommand's name, and the values and flags that several groups of subcommands have.

/// How often a value stands after the name of a subcommand.
#[derive(Clone, Copy, Debug, PartialEq, Eq)]
pub(crate) enum Count {
    /// Once.
    One,
    /// Once or more often. No other value without a word of its own may stand after it.
    Several,
    /// Never or once, after its word.
    Optional,
    /// It is a flag: never or once, and it has no value of its own.
    Flag,
}

/// A value that has to stand after the name of a subcommand, or a flag, which may stand there or not.
pub(crate) struct Value {
    /// What help calls it; a flag has its word here too.
    pub(crate) name: &'static str,
    /// The word after two hyphens, if it has one.
    pub(crate) word: Option<&'static str>,
    /// How often it stands there.
    pub(crate) count: Count,
    /// What help says of it, in a line.
    pub(crate) help: &'static str,
}

/// The image of a subcommand.
pub(crate) const IMAGE: Value = Value {
    name: "IMAGE",
    word: None,
    count: Count::One,
    help: "The disk's image, a D64 file of 35 tracks",
};

/// The images of a subcommand that takes several.
pub(crate) const IMAGES: Value = Value {
    name: "IMAGE",
    word: None,
    count: Count::Several,
    help: "The disk's image, a D64 file of 35 tracks; or several",
};

/// The image of a subcommand that takes longer ones, too.
pub(crate) const ANY_IMAGE: Value = Value {
    name: "IMAGE",
    word: None,
    count: Count::One,
    help: "The disk's image, a D64 file of 35, 40 or 42 tracks",
};

/// The images of a subcommand that takes several, and longer ones, too.
pub(crate) const ANY_IMAGES: Value = Value {
    name: "IMAGE",
    word: None,
    count: Count::Several,
    help: "The disk's image, a D64 file of 35, 40 or 42 tracks; or several",
};

/// The image that a subcommand makes.
pub(crate) const NEW_IMAGE: Value = Value {
    name: "IMAGE",
    word: None,
    count: Count::One,
    help: "The path of the image that is made, a D64 file of 35 tracks",
};

/// The name of a file on the disk.
pub(crate) const NAME: Value = Value {
    name: "NAME",
    word: None,
    count: Count::One,
    help: "The file's name; \\c1 is the byte with these two hex digits",
};

/// The flag of all subcommands, which may stand before the name of one too.
pub(crate) const EXPLAIN: Value = Value {
    name: "explain",
    word: Some("explain"),
    count: Count::Flag,
    help: "Print a second line on standard error if it fails",
};

/// The flag of those that change the files of a disk: nothing is written.
pub(crate) const DRY_RUN: Value = Value {
    name: "dry-run",
    word: Some("dry-run"),
    count: Count::Flag,
    help: "Print the same lines, and write nothing",
};

/// The flag of those that print records or store them.
pub(crate) const FIELDS: Value = Value {
    name: "fields",
    word: Some("fields"),
    count: Count::Flag,
    help: "Have a column for each field, which a CR ends",
};

/// The positions of those that print records or store them.
pub(crate) const POSITIONS: Value = Value {
    name: "POSITIONS",
    word: Some("at"),
    count: Count::Optional,
    help: "Have a column from each position on, for example 1,25,49",
};

/// The flag of those that print text of the disk.
pub(crate) const TEXT: Value = Value {
    name: "text",
    word: Some("text"),
    count: Count::Flag,
    help: "Print PETSCII as text in UTF-8: capitals and graphics",
};

/// The same of the other character set.
pub(crate) const MIXED: Value = Value {
    name: "mixed",
    word: Some("mixed"),
    count: Count::Flag,
    help: "The same of the character set with small letters",
};

/// The flag of those that go on without the log of an image. That a file is cut short doesn't matter to them.
pub(crate) const ACCEPT_AWAY: Value = Value {
    name: "accept-loss",
    word: Some("accept-loss"),
    count: Count::Flag,
    help: "Go on without the lost log (LOG AWAY)",
};

/// The flag of those that write a disk that may have lost a part of a file, or the image its log: it accepts both losses.
pub(crate) const ACCEPT_LOSS: Value = Value {
    name: "accept-loss",
    word: Some("accept-loss"),
    count: Count::Flag,
    help: "Go on without the lost end (SHORT) or log (LOG AWAY)",
};

/// The flag of those that take a disk alone: of a longer image they take its disk.
pub(crate) const AS_IS: Value = Value {
    name: "as-is",
    word: Some("as-is"),
    count: Count::Flag,
    help: "Take an image of 40 or 42 tracks, or with error bytes, too",
};

/// The flag that describes images by objects.
pub(crate) const JSON: Value = Value {
    name: "json",
    word: Some("json"),
    count: Count::Flag,
    help: "Print a line for each image, an object of JSON",
};
