//! The subcommands that look at disks: the words of each, and what help says of it, at most 80 columns wide.
use crate::subcommands::Subcommand;
use crate::values::{ANY_IMAGE, ANY_IMAGES, AS_IS, Count, IMAGES, JSON, MIXED, TEXT, Value};

/// The subcommands that look at disks, in the order in which help lists them.
pub(crate) const LOOKS: &[Subcommand] = &[LIST, CHECK, PLAN, MAP, PICTURE, FREE, SECTOR];

/// `list IMAGE.. [--json] [--text] [--mixed] [--as-is]`
const LIST: Subcommand = Subcommand {
    name: "list",
    about: "Print the directory of an image, or of several",
    more: "\
It prints the disk's name, a line for each entry, and how many blocks are free.
`*` before the type: the file wasn't closed. `<` after it: the file is locked.
`?` stands for a byte that ASCII lacks; --text and --mixed show its character.
With several images each line begins with the image's name, also for an image
that is refused. The exit status is then the highest of all.
With --json each image has a line, an object: what 18/0 says of the disk, and an
object for each entry, with the type of a GEOS file. A refused image has its
name and the reason. --json goes before --text and --mixed.
With --as-is it takes an image of 40 or 42 tracks, or with error bytes, too, and
prints the directory of its first 35 tracks.

Exit status:
  0  the directory was printed
  1  the image is refused (IMAGE SIZE, LAYOUT, LOG)
  3  FILE, NOT READY, NO MEMORY, IN USE

Example: ledger list old.d64",
    values: &[IMAGES, JSON, TEXT, MIXED, AS_IS],
};

/// The flag that describes images by rows of a table.
const CSV: Value = Value {
    name: "csv",
    word: Some("csv"),
    count: Count::Flag,
    help: "Print a table, a row of comma-separated values for each image",
};

/// The flag that prints every fault.
const ALL: Value = Value {
    name: "all",
    word: Some("all"),
    count: Count::Flag,
    help: "Print every fault, each with the files that it concerns",
};

/// `check IMAGE.. [--json] [--csv] [--all] [--as-is]`
const CHECK: Subcommand = Subcommand {
    name: "check",
    about: "Check the layout of images: print OK, or a fault and its sector",
    more: "\
It prints OK, or a fault and its sector, for example LOOP 17/0:
  MAPWRONG    the map of free sectors (BAM) is wrong about this sector; at 18/0:
              about the number of free sectors of a track
  COUNTWRONG  a relative file's entry in this sector has a wrong block count
  BADSIDE     this side sector disagrees with its relative file
  BADLINK     this sector links to no sector of the disk
  LOOP        a chain of sectors comes to this one a second time
  OWNEDTWICE  this sector belongs to two of these: BAM, directory, files
  UNCLOSED    no drive closed a file whose entry is in this sector
  BADTYPE     a closed entry in this sector has a type that doesn't exist
  BADLENGTH   a relative file's entry in this sector has record length 0 or 255
\"ledger help LOOP\" says what to do about it.
If a file is cut short, SHORT and its last sector follow with --all, in `short`
with --json or --csv, with several images, on a terminal and with --explain.
Otherwise, but not with several images alone, FEWER is reported in the same way
if a PRG, SEQ or USR has fewer blocks than its entry says, and ends there.
With several images each line begins with the image's name, also for an image
that is refused. The exit status is then the highest of all.
With --json each image has a line, an object of JSON. Its `files` are those that
the fault concerns, `free` counts blocks, and `sha1` and `sha256` are hashes of
the image. With --csv each has a row of a table, but without `files`. With --all
every fault is printed with its files, for example OWNEDTWICE 6/17 \"A\" \"B\":
first the one that check prints without it; MAPWRONG only if the files are
sound. --json goes before --csv, and both before --all.
With --as-is it takes an image of 40 or 42 tracks, or with error bytes, too, and
checks its first 35 tracks. After that it prints a line for each sector that the
drive couldn't read, ERROR 23 17/4 \"MENU\", and for each file that goes on beyond
track 35, BEYOND 17/4 \"MENU\". With --json they stand in `errors` and `beyond`,
and with --csv two columns more of these names say how many there are.
If two files have a sector beyond track 35, OWNEDTWICE 36/4 \"A\" \"B\" says so.
Then the status isn't 0. SPEEDDOS 36-40 says that SpeedDOS keeps a map of these
tracks in 18/0; DOLPHINDOS and PROLOGICDOS, too. An object doesn't say so.

Exit status:
  0  OK
  1  a fault, ERROR, BEYOND, IMAGE SIZE, LOG
  3  FILE, NOT READY, NO MEMORY, IN USE

Example: ledger check ./*.[dD]64",
    values: &[IMAGES, JSON, CSV, ALL, AS_IS],
};

/// `plan IMAGE.. [--json] [--csv]`
const PLAN: Subcommand = Subcommand {
    name: "plan",
    about: "Print what can be done for damaged disks: the next command of each",
    more: "\
It writes nothing, and prints a line for each image: what check finds, the files
that are hurt, what may be lost, and the next command as it is typed:
  old.d64: BADSIDE 19/9 \"CARDS\"; next: ledger repair --sides old.d64
A repair that it names was tried in memory on this very image, and ends well
unless another program changes the image or the system fails. Where no repair is
possible, the next command is extract. If nothing is to be done, none is named.
An image that is refused has its word, and the command that may help. IMAGE
stands for standard input. The exit status is the highest of check's.
With --json each image has an object, where what isn't there is null. With --csv
each has a row of a table. --json goes before --csv.

Exit status:
  0  OK
  1  a fault, IMAGE SIZE, LOG
  3  FILE, NOT READY, NO MEMORY, IN USE

Example: ledger plan ./*.[dD]64",
    values: &[IMAGES, JSON, CSV],
};

/// `map IMAGE.. [--json]`
const MAP: Subcommand = Subcommand {
    name: "map",
    about: "Print the owner of each sector, the files, and the result of a check",
    more: "\
It draws a damaged disk too, as far as its links can be followed:
  *  the map of free sectors (BAM)      .  free
  =  the directory                      ?  taken, but in no file
  a  a block of the file with letter a  !  the sector of the fault
  A  a side sector of that file
If the image has 40 or 42 tracks, or error bytes, it draws the first 35 tracks,
and prints ERROR, OWNEDTWICE, BEYOND and SPEEDDOS at the end, as check --as-is
does. The line of a file of GEOS has its structure and its type.
With several images each line begins with the image's name, also for an image
that is refused. The exit status is then the highest of all.
With --json each image has a line, an object of JSON. Its `sectors` are those of
tracks 1 to 35. `kind` is map, directory, block, side, free or taken, `file` is
the number of its file in `files`, and `error` the drive's error, if it had one.

Exit status:
  0  the disk is clean
  1  a fault, ERROR, BEYOND; or the image is refused (IMAGE SIZE, LAYOUT, LOG)
  3  FILE, NOT READY, NO MEMORY, IN USE

Example: ledger map old.d64",
    values: &[ANY_IMAGES, JSON],
};

/// The flag for a poster.
const SVG: Value = Value {
    name: "svg",
    word: Some("svg"),
    count: Count::Flag,
    help: "Print a poster, as an SVG file of its own",
};

/// The flag for a sheet of several images.
const SHEET: Value = Value {
    name: "sheet",
    word: Some("sheet"),
    count: Count::Flag,
    help: "Print a page with a small drawing of each image, at most 400",
};

/// The flag that compares two images.
const COMPARE: Value = Value {
    name: "compare",
    word: Some("compare"),
    count: Count::Flag,
    help: "Print a page of the second image: what differs from the first",
};

/// `picture IMAGE.. [--svg] [--sheet] [--compare]`
const PICTURE: Subcommand = Subcommand {
    name: "picture",
    about: "Print a drawing of the disk as an HTML page, or as a poster",
    more: "\
It draws a damaged disk too, as far as its links can be followed. The page loads
nothing and has no script, and neither does the poster (297 by 420 mm).
A sheet has a tile for each image, also for one that is refused. The exit status
is then the highest of all. With --compare the page shows the second image,
marks the sectors that differ from the first, and lists the files and records
that changed. The exit status is that of the second image.
If the image has 40 or 42 tracks, or error bytes, it draws the first 35 tracks.
The page of one image, or of two with --compare, has the lines ERROR and BEYOND
of map below the drawing, and so has each tile of a sheet. A poster has a
sentence that says whether there are any.

Exit status:
  0  the disk is clean
  1  a fault, ERROR or BEYOND; or the image is refused (IMAGE SIZE, LAYOUT, LOG)
  2  IMAGES: several without --sheet, more than 400, not two with --compare, or
     two of --svg, --sheet and --compare
  3  FILE, NOT READY, NO MEMORY, IN USE

Example: ledger picture --sheet ./*.d64 > all.html",
    values: &[ANY_IMAGES, SVG, SHEET, COMPARE],
};

/// `free IMAGE.. [--json]`
const FREE: Subcommand = Subcommand {
    name: "free",
    about: "Print how many sectors of each track are free",
    more: "\
It prints a line for each track, for example TRACK 17 FREE 21, and how many
blocks are free for files. The numbers are those of the disk's map, right or
wrong. To free sectors that no file owns, use repair --free.
With several images each line begins with the image's name, also for an image
that is refused. The exit status is then the highest of all.
With --json each image has a line, an object.

Exit status:
  0  the numbers of free sectors were printed
  1  the image is refused (IMAGE SIZE, LOG)
  3  FILE, NOT READY, NO MEMORY, IN USE

Example: ledger free old.d64",
    values: &[ANY_IMAGES, JSON],
};

/// A sector of the disk.
const PLACE: Value = Value {
    name: "T/S",
    word: None,
    count: Count::One,
    help: "The sector, for example 17/4: sector 4 of track 17",
};

/// `sector IMAGE T/S`
const SECTOR: Subcommand = Subcommand {
    name: "sector",
    about: "Print a sector in hexadecimal digits, its owner and its link",
    more: "\
It prints the sector's bytes, sixteen in a line, with the characters that a C64
shows for them; then OWNER and the file's line as `map` prints it, and LINK and
the next sector. LINK END is followed by the number of the chain's last byte. It
prints sectors of a damaged disk too.

Exit status:
  0  the sector was printed
  1  the image is refused (IMAGE SIZE, LOG)
  2  SECTOR: the disk has no such sector
  3  FILE, NOT READY, NO MEMORY, IN USE

Example: ledger sector old.d64 18/0",
    values: &[ANY_IMAGE, PLACE],
};
