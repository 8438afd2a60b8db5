//! A change, and what comes of it.
ghost use Rattle.std.specs.Prelude.{◌≡◌};
ghost use Rattle.disk_changes.specs.Repairs.{frees};

use crate::entry_types::EntryType;
use d64_image::MemDisk;
use damaged_files::Loss;
use file_changes::{FileType, Name};
use file_rescues::ColumnForm;
use line_text::CharacterSet;

/// What is changed of the files of a disk. A new file can have each name that a file gets, and a record 1 to 254 bytes; who makes
/// a change ensures that.
#[derive(Drop)]
pub enum ChangeKind<'a> {
    /// The map, the side sectors and the block counts are made right.
    Repair {
        /// What is done with sectors that are taken and no file's.
        unowned: Unowned,
    },
    /// The same, once the side sectors are built anew from the chains of their files.
    RepairSides {
        /// What is done with sectors that are taken and no file's.
        unowned: Unowned,
    },
    /// A relative file is made.
    Make {
        /// How many bytes a record has, 1 to 254.
        length: u8,
        /// The name of the file.
        name: Name,
    },
    /// The first entry with the one name gets the other.
    Rename {
        /// The name that the file has.
        from: Name,
        /// The name that the file gets.
        to: Name,
    },
    /// The disk gets another name and ID.
    Title {
        /// Its ID.
        id: [u8; 2],
        /// Its name.
        name: Name,
    },
    /// The first file of a name is locked or unlocked.
    Lock {
        /// Which of the two.
        lock: Lock,
        /// The name of the file.
        name: Name,
    },
    /// The first file of a name is deleted.
    Delete {
        /// The name of the file.
        name: Name,
    },
    /// The first deleted file of a name is there again.
    Undelete {
        /// Its type.
        kind: EntryType,
        /// The name of the file.
        name: Name,
    },
    /// The entries of the directory stand in the order of their names.
    Sort,
    /// A new file is made, with the bytes of a file of the host.
    Put {
        /// The path of the file whose bytes it gets.
        file: &'a str,
        /// The type of the new file.
        kind: FileType,
        /// The name of the new file.
        name: Name,
    },
    /// A new file of GEOS is made, out of a CVT of the host.
    PutGeos {
        /// The path of the CVT.
        file: &'a str,
        /// The name of the new file.
        name: Name,
    },
    /// The first closed file of a name of another image is copied, PRG, SEQ, USR or REL.
    CopyFile {
        /// The path of the other image.
        from: &'a str,
        /// The name that the file has there.
        name: Name,
        /// The name that its copy gets.
        to: Name,
    },
    /// Records from the lines of a text are stored in the first closed relative file of a name.
    Store {
        /// The text's path.
        records: &'a str,
        /// How its lines have the records.
        columns: Columns,
        /// The name of the file.
        name: Name,
    },
}

impl ChangeKind<'_> {
    /// The name of the file of the disk that it asks for. None if it asks for no file, for a deleted one, or for one of another
    /// image.
    pub fn asked_name(&self) -> Option<&Name> {
        match self {
            ChangeKind::Rename { from: name, .. }
            | ChangeKind::Lock { name, .. }
            | ChangeKind::Delete { name }
            | ChangeKind::Store { name, .. } => Some(name),
            ChangeKind::Undelete { .. } | ChangeKind::CopyFile { .. } => None,
            ChangeKind::Make { .. } | ChangeKind::Put { .. } | ChangeKind::PutGeos { .. } => None,
            ChangeKind::Title { .. } | ChangeKind::Sort => None,
            ChangeKind::Repair { .. } | ChangeKind::RepairSides { .. } => None,
        }
    }

    /// The name that it gives a file. None if no file gets a name that is typed for it.
    pub fn given_name(&self) -> Option<&Name> {
        match self {
            ChangeKind::Make { name, .. }
            | ChangeKind::Put { name, .. }
            | ChangeKind::PutGeos { name, .. }
            | ChangeKind::Rename { to: name, .. }
            | ChangeKind::CopyFile { to: name, .. } => Some(name),
            ChangeKind::Lock { .. } | ChangeKind::Delete { .. } | ChangeKind::Store { .. } => None,
            ChangeKind::Undelete { .. } | ChangeKind::Title { .. } | ChangeKind::Sort => None,
            ChangeKind::Repair { .. } | ChangeKind::RepairSides { .. } => None,
        }
    }
}

/// How the records of a text stand in its lines.
#[derive(Clone, Copy, Debug, PartialEq, Eq)]
pub enum Columns {
    /// One column for each record.
    One,
    /// Several for each record, in this form.
    Several(ColumnForm),
    /// One, typed in the characters of this set.
    Text(CharacterSet),
}

/// What a repair does with the sectors that the map calls taken and that no file owns.
#[derive(Clone, Copy, Debug, PartialEq, Eq)]
pub enum Unowned {
    /// They stay taken.
    Kept,
    /// They become free.
    Freed,
}

impl Unowned {
    /// Whether they become free.
    pub fn is_freed(self) -> bool
        ensures { result ≡ frees self }
    {
        match self {
            Unowned::Kept => false,
            Unowned::Freed => true,
        }
    }
}

/// Bit 6 of a file's type, which says that it may not be deleted.
#[derive(Clone, Copy, Debug, PartialEq, Eq)]
pub enum Lock {
    /// The file is locked.
    Set,
    /// It isn't.
    Cleared,
}

/// A change with all that it takes: nothing is read while it is made.
///
/// If a file of the disk is cut short, a change that takes or frees sectors is made only if the loss is accepted, because sectors
/// that no file owns may be the part that was lost. A repair that accepts a loss settles it.
#[derive(Clone, Copy)]
pub struct Change<'a> {
    /// What is changed.
    pub kind: &'a ChangeKind<'a>,
    /// Whether a loss is accepted.
    pub loss: Loss,
    /// The bytes of the file that `Put` or `PutGeos` names, or of the image that `CopyFile` names, or the records that `Store` names, in one
    /// column each. No other change takes any.
    pub source: &'a [u8],
}

/// What comes of a change.
#[derive(Drop)]
pub struct Changed {
    /// The disk after it.
    pub disk: MemDisk,
    /// What is printed.
    pub text: Vec<u8>,
    /// How many sectors stay taken though no file owns them. 0 of a change that isn't a repair.
    pub left: u16,
}
