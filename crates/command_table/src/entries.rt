//! The subcommands that change the entries of a directory: the words of each, and what help says of it, at most 80 columns wide.
use crate::subcommands::Subcommand;
use crate::values::{ACCEPT_AWAY, ACCEPT_LOSS, Count, DRY_RUN, IMAGE, NAME, Value};

/// The subcommands that change the entries of a directory, in the order in which help lists them.
pub(crate) const ENTRIES: &[Subcommand] = &[LOCK, UNLOCK, DELETE, UNDELETE, SORT];

/// The values of a subcommand that changes the entry of a file.
const ENTRY: &[Value] = &[IMAGE, NAME, ACCEPT_AWAY, DRY_RUN];

/// `lock IMAGE NAME [--accept-loss] [--dry-run]`
const LOCK: Subcommand = Subcommand {
    name: "lock",
    about: "Lock a file, which can't be deleted then",
    more: "\
It locks the first file that has this name, shown by < in list, and prints
LOCKED. unlock takes the lock off.

Exit status:
  0  the file is locked
  1  nothing was done. A file or the directory is damaged (LAYOUT and a fault:
     repair --sides mends BADSIDE, nothing else); or IMAGE SIZE, LOG, LOG AWAY,
     TWO NAMES, NO FILE, SHOP FILE
  2  NAME, PATH
  3  FILE, NOT READY, NO MEMORY, IN USE, DEVICE

Example: ledger lock old.d64 LETTER",
    values: ENTRY,
};

/// `unlock IMAGE NAME [--accept-loss] [--dry-run]`
const UNLOCK: Subcommand = Subcommand {
    name: "unlock",
    about: "Unlock a file, which can be deleted then",
    more: "\
It takes the lock off the first file that has this name, and prints UNLOCKED.

Exit status:
  0  the file isn't locked
  1  nothing was done. A file or the directory is damaged (LAYOUT and a fault:
     repair --sides mends BADSIDE, nothing else); or IMAGE SIZE, LOG, LOG AWAY,
     TWO NAMES, NO FILE, SHOP FILE
  2  NAME, PATH
  3  FILE, NOT READY, NO MEMORY, IN USE, DEVICE

Example: ledger unlock old.d64 LETTER",
    values: ENTRY,
};

/// `delete IMAGE NAME [--accept-loss] [--dry-run]`
const DELETE: Subcommand = Subcommand {
    name: "delete",
    about: "Delete a file, and free its sectors",
    more: "\
It deletes the first file that has this name, and prints DELETED. If a file of
the disk is cut short (SHORT), it asks for --accept-loss, but not to delete that
very file.

Exit status:
  0  the file was deleted
  1  nothing was done. The disk isn't clean (LAYOUT and a fault: repair mends
     MAPWRONG and COUNTWRONG, repair --sides also BADSIDE, nothing else); or
     SHORT, GEOS, IMAGE SIZE, LOG, LOG AWAY, TWO NAMES, NO FILE, LOCKED,
     SHOP FILE
  2  NAME, PATH
  3  FILE, NOT READY, NO MEMORY, IN USE, DEVICE

Example: ledger delete old.d64 LETTER",
    values: &[IMAGE, NAME, ACCEPT_LOSS, DRY_RUN],
};

/// The type of a deleted file.
const ENTRY_TYPE: Value = Value {
    name: "TYPE",
    word: Some("type"),
    count: Count::One,
    help: "The file's type: prg, seq, usr or rel",
};

/// `undelete IMAGE NAME --type TYPE [--accept-loss] [--dry-run]`
const UNDELETE: Subcommand = Subcommand {
    name: "undelete",
    about: "Make a deleted file a file again",
    more: "\
It gives the first deleted entry that has this name its type back, takes the
blocks of the file, and prints UNDELETED. The file isn't locked. A deleted entry
has no type: give the one that the file had. A relative file needs its side
sectors (BADSIDE); extract --deleted takes the bytes of any.

Exit status:
  0  the file is there
  1  nothing was done. A file or the directory is damaged or would be (LAYOUT:
     OWNEDTWICE if another file has a block); or SHORT, IMAGE SIZE, GEOS,
     FORMAT, LOG, LOG AWAY, TWO NAMES, NO FILE, FILE EXISTS
  2  NAME, TYPE, PATH
  3  FILE, NOT READY, NO MEMORY, IN USE, DEVICE

Example: ledger undelete old.d64 LETTER --type seq",
    values: &[IMAGE, NAME, ENTRY_TYPE, ACCEPT_LOSS, DRY_RUN],
};

/// `sort IMAGE [--accept-loss] [--dry-run]`
const SORT: Subcommand = Subcommand {
    name: "sort",
    about: "Sort the directory by the names of the files",
    more: "\
It puts the entries into the ascending order of the bytes of their names, and
prints SORTED. Entries of one name keep their order. Deleted ones come after all
others. Files and blocks stay where they are.

Exit status:
  0  the directory is sorted
  1  nothing was done. A file or the directory is damaged (LAYOUT and a fault:
     repair --sides mends BADSIDE, nothing else); or IMAGE SIZE, LOG, LOG AWAY,
     TWO NAMES
  2  PATH
  3  FILE, NOT READY, NO MEMORY, IN USE, DEVICE

Example: ledger sort old.d64",
    values: &[IMAGE, ACCEPT_AWAY, DRY_RUN],
};
