//! What the words mean that the program prints: the sentences that a person reads.

use crate::cures::{FORMAT, GEOS};
use crate::near_names::NO_SUCH_FILE;
use crate::refusal_subjects::{
    BAD_LINE, CUT_SHORT, FEWER, FOREIGN_LOG, KEPT, LOCKED, LOG_AWAY, NAMED, NO_MEMORY, NO_PROGRAM,
    NO_ROOM, NO_SHOP, SECOND_NAME, SHOP_FILE, TAKEN, said_of_fault,
};
use crate::size_lines::SIZE;
use d64_image::Place;
use disk_layout::Fault;

/// The words that `check` prints for the fault of a sector, in the order of `faults`.
const FAULTS: [&str; 9] = [
    "BADLINK",
    "LOOP",
    "OWNEDTWICE",
    "BADTYPE",
    "UNCLOSED",
    "BADSIDE",
    "BADLENGTH",
    "COUNTWRONG",
    "MAPWRONG",
];

/// Those faults, of some sector.
fn faults() -> [Fault; 9] {
    let place = Place::nth(0);
    [
        Fault::BadLink(place),
        Fault::Loop(place),
        Fault::OwnedTwice(place),
        Fault::BadType(place),
        Fault::Unclosed(place),
        Fault::BadSide(place),
        Fault::BadLength(place),
        Fault::CountWrong(place),
        Fault::MapWrong(place),
    ]
}

/// The other words, and what each means: refusals, then what commands print of what they did, then replies to a till.
const MEANINGS: &[(&str, &str)] = &[
    (
        "LAYOUT",
        "the disk has a fault, which the next word names: `ledger help` says more of that word",
    ),
    ("SHORT", CUT_SHORT),
    ("FEWER", FEWER),
    ("KEPT", KEPT),
    ("GEOS", GEOS),
    ("FORMAT", FORMAT),
    ("IMAGE SIZE", SIZE),
    ("NO FILE", NO_SUCH_FILE),
    ("FILE EXISTS", NAMED),
    ("DISK FULL", NO_ROOM),
    ("LOCKED", LOCKED),
    ("SHOP FILE", SHOP_FILE),
    ("NO PROGRAM", NO_PROGRAM),
    ("NO STOCK", NO_SHOP),
    ("NO REQUESTS", NO_SHOP),
    ("BAD CARD", NO_SHOP),
    ("BAD REQUEST CARD", NO_SHOP),
    ("TWO INTENTS", NO_SHOP),
    ("SCRIPT LINE", BAD_LINE),
    ("RECORDS LINE", BAD_LINE),
    ("LOG", FOREIGN_LOG),
    ("LOG AWAY", LOG_AWAY),
    ("TWO NAMES", SECOND_NAME),
    ("IN USE", TAKEN),
    ("NO MEMORY", NO_MEMORY),
    (
        "FILE",
        "a file or the output can't be opened, read or written; with --explain the second line says which, and why",
    ),
    (
        "DEVICE",
        "writing or syncing the image failed: copy the image and its log to another disk, check the copy, and go on there",
    ),
    (
        "NOT READY",
        "standard input is set not to wait (O_NONBLOCK): hand over one that waits",
    ),
    (
        "NAME",
        "a name is too long, or has what no name can have; the second line says which one",
    ),
    ("ID", "the ID isn't of two bytes"),
    (
        "TYPE",
        "the type is none that a file can have; the second line names those that it can",
    ),
    ("TILLS", "a shop has 1 to 64 tills"),
    ("LENGTH", "a record has 1 to 254 bytes"),
    (
        "POSITIONS",
        "positions begin with 1, ascend, and are 254 at most",
    ),
    (
        "SECTOR",
        "a sector is a track and a number there, such as 18/0",
    ),
    ("FLAGS", "these flags don't go together"),
    (
        "PATH",
        "`-` is standard input, which is read; a file that is made or changed has a name",
    ),
    (
        "IMAGES",
        "this command takes one image, or this flag wants several",
    ),
    ("OK", "the disk is in order"),
    ("MENDED", "this sector was wrong, and is right now"),
    (
        "FREED",
        "this sector was taken, no file owned it, and it is free now",
    ),
    (
        "OWNER",
        "the file, the directory or the BAM has this sector",
    ),
    ("OWNER MAP", "the BAM has this sector"),
    ("OWNER DIRECTORY", "the directory has this sector"),
    (
        "OWNER BLOCK",
        "this file has the sector, as one of its blocks",
    ),
    (
        "OWNER SIDE",
        "this relative file has the sector, as one of its side sectors",
    ),
    (
        "OWNER NONE",
        "no file has this sector; FREE or TAKEN is what the BAM calls it",
    ),
    (
        "OWNER UNKNOWN",
        "the directory's chain has a fault, so it isn't known which file has this sector",
    ),
    (
        "LINK",
        "the next sector of the chain; END and a number: the chain ends here with this byte",
    ),
    ("LINK END", "the chain ends in this sector, with this byte"),
    (
        "LINK OFF THE DISK",
        "the link of this sector names no sector of the disk",
    ),
    ("END", "the chain ends in this sector, with this byte"),
    (
        "TRACK",
        "a track, and how many of its sectors the BAM calls free",
    ),
    (
        "FREE",
        "the BAM calls this sector, or so many of a track, free",
    ),
    (
        "TAKEN",
        "the BAM calls this sector taken, so that no drive writes a new file there",
    ),
    (
        "BLOCKS FREE",
        "so many sectors are free for files, as the BAM counts them; track 18 isn't counted",
    ),
    (
        "RECORDS",
        "so many records has the relative file, each of the bytes after LENGTH",
    ),
    ("PRG", "a program"),
    ("SEQ", "a sequential file: a text, for example"),
    (
        "USR",
        "a user file: its program decides what its bytes mean",
    ),
    (
        "REL",
        "a relative file: records of one length, which a program reads by their numbers",
    ),
    (
        "DEL",
        "an entry of the type DEL, mostly a line or a picture in the directory",
    ),
    (
        "ERROR",
        "the drive reported this error when the sector was read; the file that has it is named",
    ),
    (
        "BEYOND",
        "the file goes on past track 35, and what is there is left out",
    ),
    (
        "SPEEDDOS",
        "a map of tracks 36 to 40 stands in 18/0 as SpeedDOS keeps it",
    ),
    (
        "DOLPHINDOS",
        "a map of tracks 36 to 40 stands in 18/0 as DolphinDOS keeps it",
    ),
    (
        "PROLOGICDOS",
        "a map of tracks 36 to 40 stands in 18/0 as PrologicDOS keeps it",
    ),
    (
        "TRIMMED",
        "something was left out, which standard error names",
    ),
    ("EXTRACTED", "all files were taken out whole"),
    ("COPIED", "the copy is on the disk"),
    ("COMMITS", "so many commits of the log were whole"),
    (
        "LEFT",
        "so many blocks of the log stand after its whole commits; the copy has nothing of them",
    ),
    (
        "BYTE",
        "the error byte of this sector, which stands for none of the drive's errors",
    ),
    (
        "STATUS",
        "the highest exit status of several images; what is wrong with each stands after its name",
    ),
    ("FORMATTED", "the image is on the disk"),
    ("MADE", "the relative file is on the disk"),
    ("PUT", "the file is on the disk"),
    ("RENAMED", "the file has its new name"),
    ("TITLED", "the disk has its new name and ID"),
    ("UNLOCKED", "the file can be deleted"),
    ("DELETED", "the file is gone, and its sectors are free"),
    ("UNDELETED", "the file is there again"),
    ("SORTED", "the directory is in the order of the names"),
    ("TOP", "the highest item whose card the disk can still hold"),
    ("CARD", "an item and its quantity"),
    ("TILL", "a till's last request that counted, and its answer"),
    ("PRIOR", "the till's request before that one"),
    (
        "DONE",
        "the request took effect; the quantities after it are those that are there now",
    ),
    (
        "OVER",
        "the quantity would be greater than 999999999, so no stock was changed; the quantity that is there follows",
    ),
    (
        "NO CARD",
        "the item has no card, so no stock was changed; a request of the kind S makes one",
    ),
    (
        "NO TILL",
        "the shop has no till of this number: nothing was done",
    ),
    (
        "STALE",
        "the till has asked with a higher number since: if this was a new request, it didn't count, and needs the next number",
    ),
    (
        "AHEAD",
        "the number skips one: nothing was done; the till's next number is its last plus 1",
    ),
    (
        "CLASH",
        "the till has asked with this number and other words: nothing was done",
    ),
    (
        "72,DISK FULL",
        "the disk has no room for this item's card: nothing was done; use a smaller item number",
    ),
    (
        "52,FILE TOO LARGE",
        "no disk has room for this item's card: nothing was done; use an item number up to TOP",
    ),
    (
        "30,SYNTAX ERROR",
        "the line is no request: nothing was done",
    ),
    ("SYNTAX ERROR", "the line is no request: nothing was done"),
    (
        "MEDIA",
        "the disk failed: the request has no answer yet; send it again once the shop is open again",
    ),
    (
        "CUT",
        "power went here, as the script asked; the request may have counted: it is answered when it is asked again",
    ),
];

/// Whether a byte can stand in the number or the sector after a word.
fn is_of_place(byte: u8) -> bool {
    byte.is_ascii_digit() || byte == b'/' || byte == b' '
}

/// How many bytes a word has without the number or the sector after it.
fn stem_length(word: &[u8]) -> usize {
    let mut length = 0;
    for (at, byte) in word.iter().enumerate() {
        if !is_of_place(*byte) {
            length = at.saturating_add(1);
        }
    }
    length
}

/// Whether what was typed is this word, in any case, with or without a sector or a number after it.
fn is_word(typed: &str, word: &str) -> bool {
    let typed = typed.as_bytes();
    if stem_length(typed) != word.len() {
        return false;
    }
    for (at, byte) in word.as_bytes().iter().enumerate() {
        match typed.get(at) {
            Some(other) if other.to_ascii_uppercase() == *byte => {}
            _ => return false,
        }
    }
    true
}

/// Whether it is the name of a command, of which help has more to say.
fn is_command(typed: &str) -> bool {
    typed == "put" || typed == "format" || typed == "free" || typed == "records"
}

/// What a word means that a command prints, in any case, also with the sector or the number after it, and what to do. None of any
/// other word.
pub fn meaning_of(typed: &str) -> Option<&'static str> {
    if is_command(typed) {
        return None;
    }
    for (number, fault) in faults().iter().enumerate() {
        match FAULTS.get(number) {
            Some(word) if is_word(typed, word) => return Some(said_of_fault(*fault)),
            _ => {}
        }
    }
    for (word, meaning) in MEANINGS {
        if is_word(typed, word) {
            return Some(meaning);
        }
    }
    None
}
