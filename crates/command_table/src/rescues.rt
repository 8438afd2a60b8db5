//! The subcommands that rescue files and disks: the words of each, and what help says of it, at most 80 columns wide.
use crate::subcommands::Subcommand;
use crate::values::{
    ACCEPT_LOSS, ANY_IMAGE, Count, DRY_RUN, FIELDS, IMAGE, MIXED, NAME, POSITIONS, TEXT, Value,
};

/// The subcommands that rescue files and disks, in the order in which help lists them.
pub(crate) const RESCUES: &[Subcommand] = &[RECORDS, BYTES, BASIC, EXTRACT, REPAIR, TRIM];

/// The flag of those that print a file that may be unclosed.
const UNCLOSED: Value = Value {
    name: "unclosed",
    word: Some("unclosed"),
    count: Count::Flag,
    help: "Take the first file with the name, closed or not",
};

/// `records IMAGE NAME [--text] [--mixed] [--fields] [--at POSITIONS] [--unclosed]`
const RECORDS: Subcommand = Subcommand {
    name: "records",
    about: "Print the records of a relative file, a line each",
    more: "\
It prints a line for each record, for example 1,\"MILK\\0d\". If the file is
damaged, it prints what can be read, and then reports a fault.
--text and --mixed print lines for people.
--fields prints a column for each field: 1,\"MILK\",\"12\",\\. for MILK, CR, 12, CR.
The last column is \\- if the last field has no CR. --at 1,25,49 prints the bytes
from each position up to the next one, without the zeros at their end. --text
and --mixed have no effect then. `store` takes each back with the same flag.
With --unclosed nothing of the disk but the file is checked. If the image has
40 or 42 tracks, a file that goes on past track 35 is read whole.

Exit status:
  0  the records were printed
  1  LAYOUT and a fault, or SHORT (the file has lost its end): what can be read
     was printed; or NO FILE, IMAGE SIZE, LOG: nothing was
  2  NAME, POSITIONS, FLAGS
  3  FILE, NOT READY, NO MEMORY, IN USE

Example: ledger records old.d64 ADDRESS > address.csv",
    values: &[ANY_IMAGE, NAME, TEXT, MIXED, FIELDS, POSITIONS, UNCLOSED],
};

/// `bytes IMAGE NAME [--text] [--mixed] [--unclosed]`
const BYTES: Subcommand = Subcommand {
    name: "bytes",
    about: "Print the bytes of a file of any type",
    more: "\
It prints the bytes of the first closed file with this name. If the file is
damaged, it prints what can be read, and then reports the fault. With --text or
--mixed each CR ends a line. With --unclosed it takes the first file with this
name, and reports UNCLOSED if that isn't closed.

Exit status:
  0  the bytes were printed
  1  LAYOUT and a fault, or SHORT (the file has lost its end): what can be read
     was printed; or NO FILE, IMAGE SIZE, LOG: nothing was
  2  NAME
  3  FILE, NOT READY, NO MEMORY, IN USE

Example: ledger bytes old.d64 'ADD\\c1' > add.prg",
    values: &[ANY_IMAGE, NAME, TEXT, MIXED, UNCLOSED],
};

/// `basic IMAGE NAME [--unclosed]`
const BASIC: Subcommand = Subcommand {
    name: "basic",
    about: "Print the listing of a program in BASIC 2.0",
    more: "\
It prints a line with the load address, then the lines of the program, up to its
end: what stands after that, such as machine code, isn't printed. `petcat -w2`
of VICE makes the program again (with -l and the load address, if this isn't
0801). Keywords and a C64's letters are small, its shifted letters capitals, and
pi is ~. Any other byte is a number: {$93}. With --unclosed it takes the first
file with this name, and reports UNCLOSED if that isn't closed.

Exit status:
  0  the program was listed to its end
  1  LAYOUT and a fault, SHORT (the program has lost its end), NO PROGRAM (the
     file is none): what can be read was printed; or NO FILE, IMAGE SIZE, LOG:
     nothing was
  2  NAME
  3  FILE, NOT READY, NO MEMORY, IN USE

Example: ledger basic old.d64 MENU > menu.bas",
    values: &[ANY_IMAGE, NAME, UNCLOSED],
};

/// The folder that files are taken out to.
const FOLDER: Value = Value {
    name: "FOLDER",
    word: None,
    count: Count::One,
    help: "The folder's path, where nothing may stand yet",
};

/// The flag that takes deleted files out too.
const DELETED: Value = Value {
    name: "deleted",
    word: Some("deleted"),
    count: Count::Flag,
    help: "Take out deleted files too, if no other file has their blocks",
};

/// The flag that looks for sectors of a lost directory.
const SCAN: Value = Value {
    name: "scan",
    word: Some("scan"),
    count: Count::Flag,
    help: "Read other sectors of track 18 too if they look like entries",
};

/// `extract IMAGE FOLDER [--deleted] [--scan]`
const EXTRACT: Subcommand = Subcommand {
    name: "extract",
    about: "Take all files out of an image, as far as they can be read",
    more: "\
It makes FOLDER, and in it a file for each entry of the directory, for example
01-LETTER 02.prg, but none of directory art: DEL entries of 0 blocks at 18/0 or
without a block. A relative file also has its records as lines (.csv). A file of
GEOS becomes one file in the form CVT (.cvt), which Convert and c1541 read. It
takes what can be read of a damaged file, and index.csv says what was found. It
prints EXTRACTED if all files are whole, and then FEWER and a sector if a PRG,
SEQ or USR that ends there has fewer blocks than its entry says. If the image
has 40 or 42 tracks, a file that goes on past track 35 is taken whole. If it has
error bytes, it prints ERROR at the end, as check --as-is does. With --deleted
it also takes deleted files whose blocks no other file has (.del), after the
rest. With --scan it also reads those other sectors of track 18 that look like
sectors of a directory.

Exit status:
  0  all files are whole
  1  a file or the directory isn't (LAYOUT and the first fault, SHORT, ERROR);
     or IMAGE SIZE, LOG, FILE EXISTS: nothing was done
  2  PATH
  3  FILE, NOT READY, NO MEMORY, IN USE

Example: ledger extract old.d64 old",
    values: &[ANY_IMAGE, FOLDER, DELETED, SCAN],
};

/// The flag that frees sectors that no file owns.
const FREE_SECTORS: Value = Value {
    name: "free",
    word: Some("free"),
    count: Count::Flag,
    help: "Free the sectors that are taken and belong to no file",
};

/// The flag that builds side sectors anew.
const SIDES: Value = Value {
    name: "sides",
    word: Some("sides"),
    count: Count::Flag,
    help: "First rebuild side sectors that disagree with their files",
};

/// `repair IMAGE [--accept-loss] [--free] [--dry-run] [--sides]`
const REPAIR: Subcommand = Subcommand {
    name: "repair",
    about: "Correct the map, the side sectors and the block counts of a disk",
    more: "\
It prints MENDED and the sector for each sector that it changed, then OK. No
file changes. Sectors that are marked as taken and belong to no file stay taken:
it prints KEPT and their number instead of OK. With --free it frees them, and
prints FREED and the sector for each. With --sides it first rebuilds the side
sectors that disagree with their file's chain, and prints MENDED for each.

With --accept-loss a file that a lost sector cut short ends where it ends now,
and its entry counts what is there: no command refuses the disk for it any more.
Keep a copy first, because the lost part can't be found by the disk afterwards.

Exit status:
  0  the disk is clean
  1  KEPT; or the disk is refused (LAYOUT, SHORT, GEOS, FORMAT, IMAGE SIZE, LOG,
     LOG AWAY, TWO NAMES) and untouched
  2  PATH
  3  FILE, NOT READY, NO MEMORY, IN USE, DEVICE

Example: ledger repair --dry-run old.d64",
    values: &[IMAGE, ACCEPT_LOSS, FREE_SECTORS, DRY_RUN, SIDES],
};

/// `trim IMAGE`
const TRIM: Subcommand = Subcommand {
    name: "trim",
    about: "Print tracks 1 to 35 of an image with 40 or 42, or with error bytes",
    more: "\
It prints an image of 174848 bytes, as checks and changes take it, from one of
35, 40 or 42 tracks with or without error bytes. On standard error is a line for
each sector that the drive couldn't read, with the file that has it, such as
ERROR 23 17/4 \"MENU\". A file that goes on past track 35 has a line too: BEYOND,
the sector whose link leads there, and the file's name.

Exit status:
  0  all of the image is there
  1  ERROR or BEYOND was printed, or the image is refused (IMAGE SIZE, LAYOUT,
     LOG)
  3  FILE, NOT READY, NO MEMORY, IN USE

Example: ledger trim old40.d64 > old.d64",
    values: &[ANY_IMAGE],
};
