//! The subcommands that change the files of a disk: the words of each, and what help says of it, at most 80 columns wide.
use crate::subcommands::Subcommand;
use crate::values::{
    ACCEPT_AWAY, ACCEPT_LOSS, Count, DRY_RUN, FIELDS, IMAGE, NAME, NEW_IMAGE, POSITIONS, Value,
};

/// The subcommands that make disks and files, in the order in which help lists them.
pub(crate) const CHANGES: &[Subcommand] = &[NEW, MAKE, STORE, PUT, COPY_FILE, RENAME, TITLE];

/// The name that a disk gets.
const DISK_NAME: Value = Value {
    name: "NAME",
    word: Some("name"),
    count: Count::One,
    help: "The disk's name, at most 16 bytes",
};

/// The ID that a disk gets.
const DISK_ID: Value = Value {
    name: "ID",
    word: Some("id"),
    count: Count::One,
    help: "The disk's ID, two bytes",
};

/// `new IMAGE --name NAME --id ID`
const NEW: Subcommand = Subcommand {
    name: "new",
    about: "Make the image of an empty disk",
    more: "\
It prints FORMATTED once the image is on the disk. The disk has no file. To make
a shop, use format.

Exit status:
  0  the image was made
  1  FILE EXISTS: IMAGE or its log exists, and nothing was done
  2  NAME: more than 16 bytes; ID: not two bytes; PATH
  3  FILE (the file, its folder or the output failed), NO MEMORY

Example: ledger new work.d64 --name WORK --id 01",
    values: &[NEW_IMAGE, DISK_NAME, DISK_ID],
};

/// The length of the records of a new file.
const LENGTH: Value = Value {
    name: "BYTES",
    word: Some("length"),
    count: Count::One,
    help: "How many bytes a record has, 1 to 254",
};

/// `make IMAGE NAME --length BYTES [--accept-loss] [--dry-run]`
const MAKE: Subcommand = Subcommand {
    name: "make",
    about: "Make a relative file with a block of empty records",
    more: "\
It prints MADE. To fill the file, use store.

Exit status:
  0  the file was made
  1  nothing was done. The disk isn't clean (LAYOUT and a fault: repair mends
     MAPWRONG and COUNTWRONG, repair --sides also BADSIDE, nothing else); or
     SHORT, GEOS, IMAGE SIZE, LOG, LOG AWAY, TWO NAMES, FILE EXISTS, DISK FULL
  2  NAME, LENGTH, PATH
  3  FILE, NOT READY, NO MEMORY, IN USE, DEVICE

Example: ledger make new.d64 ADDRESS --length 40",
    values: &[IMAGE, NAME, LENGTH, ACCEPT_LOSS, DRY_RUN],
};

/// The text of records of a subcommand.
const RECORD_LINES: Value = Value {
    name: "RECORDS",
    word: None,
    count: Count::One,
    help: "The records as `records` prints them; - is standard input",
};

/// The flag of lines that are typed as text.
const TYPED: Value = Value {
    name: "text",
    word: Some("text"),
    count: Count::Flag,
    help: "Read lines as `records --text` prints them",
};

/// The same of the other character set.
const TYPED_MIXED: Value = Value {
    name: "mixed",
    word: Some("mixed"),
    count: Count::Flag,
    help: "Read lines as `records --mixed` prints them",
};

/// `store IMAGE NAME RECORDS [--accept-loss] [--text] [--mixed] [--fields] [--at POSITIONS] [--dry-run]`
const STORE: Subcommand = Subcommand {
    name: "store",
    about: "Store records in a relative file, and print those that changed",
    more: "\
It prints the line of each record that changed. The file grows up to the highest
record number. With --fields each column after the number is a field, up to the
mark \\. or \\- that `records --fields` prints. Empty ones after it are skipped.
With --at 1,25,49 each column goes to its position, with zeros between them; one
that goes beyond the next position is refused. Otherwise a line has one column.
With --text or --mixed it is text, as `records` prints it with the same flag. A
line that reads as its record does already leaves the record as it is. Any other
gives the bytes that a keyboard gives for its characters.

Exit status:
  0  the records were stored
  1  nothing was done. The disk isn't clean (LAYOUT: repair mends MAPWRONG and
     COUNTWRONG, repair --sides also BADSIDE, nothing else); or SHORT, GEOS,
     IMAGE SIZE, LOG, LOG AWAY, TWO NAMES, NO FILE, RECORDS LINE n, DISK FULL
  2  NAME, POSITIONS, FLAGS, PATH
  3  FILE, NOT READY, NO MEMORY, IN USE, DEVICE

Example: ledger store new.d64 ADDRESS address.csv",
    values: &[
        IMAGE,
        NAME,
        RECORD_LINES,
        ACCEPT_LOSS,
        TYPED,
        TYPED_MIXED,
        FIELDS,
        POSITIONS,
        DRY_RUN,
    ],
};

/// The file of the host whose bytes a new file gets.
const FILE: Value = Value {
    name: "FILE",
    word: None,
    count: Count::One,
    help: "The path of the file whose bytes it gets; - is standard input",
};

/// The type of a new file.
const FILE_TYPE: Value = Value {
    name: "TYPE",
    word: Some("type"),
    count: Count::One,
    help: "prg, seq or usr; cvt makes the GEOS file of a CVT",
};

/// `put IMAGE NAME FILE --type TYPE [--accept-loss] [--dry-run]`
const PUT: Subcommand = Subcommand {
    name: "put",
    about: "Put a file of the host on the disk",
    more: "\
It prints PUT. An empty FILE gives a file with one byte, a carriage return. A
P00 is put without its header, and of a T64 its program; one that has several is
refused (FILE): cbmconvert takes them out.

With --type cvt, FILE is a CVT, as extract, c1541 or cbmconvert writes it. The
disk gets its file of GEOS under NAME, with the type and the date that the CVT
has. A CVT that isn't whole is refused (FILE). With another TYPE a CVT is a file
as any other.

Exit status:
  0  the file is on the disk
  1  nothing was done. The disk isn't clean (LAYOUT and a fault: repair mends
     MAPWRONG and COUNTWRONG, repair --sides also BADSIDE, nothing else); or
     SHORT, GEOS, IMAGE SIZE, LOG, LOG AWAY, TWO NAMES, FILE EXISTS, DISK FULL
  2  NAME, TYPE, PATH
  3  FILE, NOT READY, NO MEMORY, IN USE, DEVICE

Example: ledger put new.d64 GAME game.prg --type prg",
    values: &[IMAGE, NAME, FILE, FILE_TYPE, ACCEPT_LOSS, DRY_RUN],
};

/// The image whose file is copied.
const FROM: Value = Value {
    name: "FROM",
    word: None,
    count: Count::One,
    help: "The image that has the file; - is standard input",
};

/// The name of the copy.
const COPY_NAME: Value = Value {
    name: "NEW",
    word: Some("as"),
    count: Count::Optional,
    help: "The name of the copy, if it gets another",
};

/// `copy-file FROM NAME IMAGE [--accept-loss] [--dry-run] [--as NEW]`
pub(crate) const COPY_FILE: Subcommand = Subcommand {
    name: "copy-file",
    about: "Copy a file of another image to the disk",
    more: "\
It puts the first closed file of FROM that has this name on the disk of IMAGE,
with its type and its lock, and prints COPIED. FROM is only read. The records
of a relative file are copied, as by records, make and store.

Exit status:
  0  the copy is on the disk
  1  FROM has no such file (NO FILE), or not whole (LAYOUT and a fault, SHORT).
     The disk isn't clean (LAYOUT: repair mends MAPWRONG and COUNTWRONG,
     repair --sides also BADSIDE, nothing else), SHORT, GEOS, IMAGE SIZE, LOG,
     LOG AWAY, TWO NAMES, FILE EXISTS, DISK FULL, SHOP FILE: nothing was done
  2  NAME, PATH
  3  FILE, NOT READY, NO MEMORY, IN USE, DEVICE

Example: ledger copy-file old.d64 GAME new.d64",
    values: &[FROM, NAME, IMAGE, ACCEPT_LOSS, DRY_RUN, COPY_NAME],
};

/// The name of a file that gets another.
const OLD_NAME: Value = Value {
    name: "OLD",
    word: None,
    count: Count::One,
    help: "The file's name; \\c1 is the byte with these two hex digits",
};

/// The name that it gets.
const NEW_NAME: Value = Value {
    name: "NEW",
    word: None,
    count: Count::One,
    help: "The name that it gets, which no other file may have",
};

/// `rename IMAGE OLD NEW [--accept-loss] [--dry-run]`
const RENAME: Subcommand = Subcommand {
    name: "rename",
    about: "Give a file another name",
    more: "\
It renames the first file that has the name OLD, and prints RENAMED.

Exit status:
  0  the file was renamed
  1  nothing was done. A file or the directory is damaged (LAYOUT and a fault:
     repair --sides mends BADSIDE, nothing else); or IMAGE SIZE, LOG, LOG AWAY,
     TWO NAMES, NO FILE, FILE EXISTS (NEW), SHOP FILE
  2  NAME, PATH
  3  FILE, NOT READY, NO MEMORY, IN USE, DEVICE

Example: ledger rename old.d64 LETTER 'LETTER 1'",
    values: &[IMAGE, OLD_NAME, NEW_NAME, ACCEPT_AWAY, DRY_RUN],
};

/// `title IMAGE --name NAME --id ID [--accept-loss] [--dry-run]`
const TITLE: Subcommand = Subcommand {
    name: "title",
    about: "Give a disk another name and ID",
    more: "\
It changes the name and the ID that list shows first, and prints TITLED.

Exit status:
  0  the disk has them
  1  nothing was done. A file or the directory is damaged (LAYOUT and a fault:
     repair --sides mends BADSIDE, nothing else); or IMAGE SIZE, LOG, LOG AWAY,
     TWO NAMES
  2  NAME: more than 16 bytes; ID: not two bytes; PATH
  3  FILE, NOT READY, NO MEMORY, IN USE, DEVICE

Example: ledger title old.d64 --name LETTERS --id 84",
    values: &[IMAGE, DISK_NAME, DISK_ID, ACCEPT_AWAY, DRY_RUN],
};
