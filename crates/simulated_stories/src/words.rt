//! The commands of a story.

/// The words of a command.
pub(crate) type Words = &'static [&'static str];

/// The path of the shop's image.
pub(crate) const IMAGE: &str = "shop.d64";

/// The path of its log.
pub(crate) const LOG: &str = "shop.d64-log";

/// The path to which a hand moves a log.
pub(crate) const AWAY: &str = "away";

/// The path of a copy.
pub(crate) const COPY: &str = "copy.d64";

/// The path under which it is made.
pub(crate) const COPY_MAKING: &str = "copy.d64.new";

/// The path of a file that is no image.
pub(crate) const OLD: &str = "old.d64";

/// The path of a script.
pub(crate) const SCRIPT: &str = "s.txt";

/// The path of lines that are stored as records.
pub(crate) const LINES: &str = "lines.csv";

/// The paths of all files that a command reads.
pub(crate) static PATHS: [&str; 6] = [IMAGE, LOG, "shop.d64-log.new", SCRIPT, LINES, COPY];

pub(crate) static NEW: [&str; 6] = ["ledger", "format", "--new", IMAGE, "--tills", "4"];

pub(crate) static FORMAT: [&str; 5] = ["ledger", "format", IMAGE, "--tills", "4"];

pub(crate) static FORMAT_OLD: [&str; 5] = ["ledger", "format", OLD, "--tills", "4"];

pub(crate) static SERVE: [&str; 3] = ["ledger", "serve", IMAGE];

pub(crate) static PLAY: [&str; 4] = ["ledger", "play", IMAGE, SCRIPT];

pub(crate) static PLAY_SYNC: [&str; 5] = ["ledger", "play", "--sync", IMAGE, SCRIPT];

pub(crate) static SHOW: [&str; 3] = ["ledger", "show", IMAGE];

pub(crate) static SHOW_COPY: [&str; 3] = ["ledger", "show", COPY];

pub(crate) static SHOW_OLD: [&str; 3] = ["ledger", "show", OLD];

pub(crate) static CHECK: [&str; 3] = ["ledger", "check", IMAGE];

pub(crate) static COPYING: [&str; 4] = ["ledger", "copy", IMAGE, COPY];

pub(crate) static PUT_A: [&str; 7] = ["ledger", "put", IMAGE, "A", SCRIPT, "--type", "seq"];

static PUT_B: [&str; 7] = ["ledger", "put", IMAGE, "B", SCRIPT, "--type", "prg"];

static RENAME_A: [&str; 5] = ["ledger", "rename", IMAGE, "A", "B"];

static RENAME_B: [&str; 5] = ["ledger", "rename", IMAGE, "B", "C"];

pub(crate) static DELETE_A: [&str; 4] = ["ledger", "delete", IMAGE, "A"];

static DELETE_C: [&str; 4] = ["ledger", "delete", IMAGE, "C"];

static DELETE_SHOP: [&str; 4] = ["ledger", "delete", IMAGE, "STOCK"];

static UNDELETE_A: [&str; 6] = ["ledger", "undelete", IMAGE, "A", "--type", "seq"];

static LOCK_A: [&str; 4] = ["ledger", "lock", IMAGE, "A"];

static UNLOCK_A: [&str; 4] = ["ledger", "unlock", IMAGE, "A"];

static MAKE_R: [&str; 6] = ["ledger", "make", IMAGE, "R", "--length", "40"];

static STORE_R: [&str; 5] = ["ledger", "store", IMAGE, "R", LINES];

static DELETE_R: [&str; 4] = ["ledger", "delete", IMAGE, "R"];

static SORT: [&str; 3] = ["ledger", "sort", IMAGE];

static REPAIR: [&str; 3] = ["ledger", "repair", IMAGE];

pub(crate) static REPAIR_MAP: [&str; 5] = ["ledger", "repair", IMAGE, "--free", "--accept-loss"];

pub(crate) static TITLE: [&str; 7] = ["ledger", "title", IMAGE, "--name", "OLD SHOP", "--id", "84"];

pub(crate) static TITLE_BACK: [&str; 7] = [
    "ledger", "title", IMAGE, "--name", "NEW SHOP", "--id", "26",
];

/// How many commands there are that change the disk, and leave the shop as it is.
pub(crate) const CHANGES: u64 = 18;

/// One of these commands.
pub(crate) fn change_of(number: u64) -> Words {
    match number {
        0 => &PUT_A,
        1 => &PUT_B,
        2 => &RENAME_A,
        3 => &RENAME_B,
        4 => &DELETE_A,
        5 => &DELETE_C,
        6 => &DELETE_SHOP,
        7 => &REPAIR,
        8 => &TITLE,
        9 => &UNDELETE_A,
        10 => &LOCK_A,
        11 => &UNLOCK_A,
        12 => &MAKE_R,
        13 | 14 => &STORE_R,
        15 => &DELETE_R,
        16 => &SORT,
        _ => &TITLE_BACK,
    }
}
