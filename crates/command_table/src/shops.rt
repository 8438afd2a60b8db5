//! The subcommands that run a shop: the words of each, and what help says of it, at most 80 columns wide.
use crate::subcommands::Subcommand;
use crate::values::{
    ACCEPT_AWAY, ACCEPT_LOSS, AS_IS, Count, IMAGE, IMAGES, JSON, NEW_IMAGE, Value,
};

/// The subcommands that run a shop, in the order in which help lists them.
pub(crate) const SHOPS: &[Subcommand] = &[FORMAT, SHOW, PLAY, DRY, SERVE, COPY];

/// The number of tills of a new shop.
const TILLS: Value = Value {
    name: "TILLS",
    word: Some("tills"),
    count: Count::One,
    help: "How many tills the shop has, 1 to 64",
};

/// The flag that keeps an image that exists.
const ONLY_NEW: Value = Value {
    name: "new",
    word: Some("new"),
    count: Count::Flag,
    help: "Refuse to replace an image that exists",
};

/// `format IMAGE --tills TILLS [--new]`
const FORMAT: Subcommand = Subcommand {
    name: "format",
    about: "Make the image of an empty shop, or replace it",
    more: "\
It prints FORMATTED once the image is on the disk. Without --new it replaces
IMAGE without asking if that exists, and its log with it.

Exit status:
  0  the image was made
  1  FILE EXISTS, with --new: IMAGE or its log exists; TWO NAMES, without it:
     nothing was done
  2  TILLS: not 1 to 64; PATH
  3  FILE (the file, its folder or the output failed), NO MEMORY, IN USE

Example: ledger format --new shop.d64 --tills 4",
    values: &[NEW_IMAGE, TILLS, ONLY_NEW],
};

/// `show IMAGE.. [--json] [--accept-loss] [--as-is]`
const SHOW: Subcommand = Subcommand {
    name: "show",
    about: "Print the cards, and the last two requests of each till",
    more: "\
It prints TOP (the highest item number that has room), a CARD for each item, and
for each till its last two requests as TILL and PRIOR. With --as-is it takes an
image of 40 or 42 tracks, or with error bytes, too.
With several images each line begins with the image's name, also for an image
that is refused. The exit status is then the highest of all.
With --json each image has a line, an object.

Exit status:
  0  the shop was printed
  1  nothing was printed. The image isn't a shop: NO STOCK, NO REQUESTS,
     BAD CARD n, BAD REQUEST CARD n, TWO INTENTS. Or it is refused: LAYOUT and a
     fault, IMAGE SIZE, LOG, LOG AWAY
  3  FILE, NOT READY, NO MEMORY, IN USE

Example: ledger show shop.d64",
    values: &[IMAGES, JSON, ACCEPT_AWAY, AS_IS],
};

/// The script of a subcommand.
const SCRIPT: Value = Value {
    name: "SCRIPT",
    word: None,
    count: Count::One,
    help: "The script, a line each message; - is standard input",
};

/// The flag that plays over a log.
const SYNC: Value = Value {
    name: "sync",
    word: Some("sync"),
    count: Count::Flag,
    help: "Play over a log beside the image, as `serve` does",
};

/// `play IMAGE SCRIPT [--sync] [--accept-loss]`
const PLAY: Subcommand = Subcommand {
    name: "play",
    about: "Play the messages of a script on the image, and print the replies",
    more: "\
It prints a reply for each line, for example 1,1,DONE,40. In a line such as
\"@2 1,1,R,7,5\" the power fails after two writes; --sync refuses such a line.
With --sync the requests are synced in IMAGE-log first, and come to IMAGE at the
end. Without it a power loss can lose answered requests, or leave a wrong shop.

Exit status:
  0  all lines were played
  1  nothing was done. The script is refused: SCRIPT LINE n. The image isn't a
     shop: NO STOCK, NO REQUESTS, BAD CARD n, BAD REQUEST CARD n, TWO INTENTS.
     Or it is refused: LAYOUT and a fault, IMAGE SIZE, LOG, LOG AWAY, TWO NAMES
  2  PATH
  3  FILE, NOT READY, NO MEMORY, IN USE; or DEVICE: check a copy on another
     disk, and go on there

Example: ledger play --sync shop.d64 day.txt",
    values: &[IMAGE, SCRIPT, SYNC, ACCEPT_AWAY],
};

/// `dry SCRIPT`
const DRY: Subcommand = Subcommand {
    name: "dry",
    about: "Print the replies to a script on an empty shop, without a disk",
    more: "\
It prints the replies that a fresh disk with 64 tills would give.

Exit status:
  0  the replies were printed
  1  SCRIPT LINE n (also a line with resets, as \"@2 1,1,R,7,5\"): nothing was
     printed
  3  FILE, NOT READY, NO MEMORY

Example: ledger dry day.txt",
    values: &[SCRIPT],
};

/// `serve IMAGE [--accept-loss]`
const SERVE: Subcommand = Subcommand {
    name: "serve",
    about: "Answer the messages on standard input, over a log beside the image",
    more: "\
It takes the lines at hand, 512 at most, syncs once, and prints their replies.
What they changed is in IMAGE-log until the input ends; other commands read it
there.

Exit status:
  0  the input ended
  1  nothing was done. The image isn't a shop: NO STOCK, NO REQUESTS,
     BAD CARD n, BAD REQUEST CARD n, TWO INTENTS. A file has lost its end:
     SHORT. Or it is refused: LAYOUT and a fault, IMAGE SIZE, LOG, LOG AWAY,
     TWO NAMES
  2  PATH
  3  FILE, NOT READY (input that doesn't wait), NO MEMORY, IN USE, DEVICE (also
     if IMAGE no longer names the file that is served)

Example: ledger serve shop.d64 < messages.txt",
    values: &[IMAGE, ACCEPT_LOSS],
};

/// The path of a copy.
const COPY_PATH: Value = Value {
    name: "NEW",
    word: None,
    count: Count::One,
    help: "The copy's path, where no file may stand yet",
};

/// The flag that copies what a log alone has.
const OF_LOG: Value = Value {
    name: "log",
    word: Some("log"),
    count: Count::Flag,
    help: "IMAGE is a log, and NEW gets the image of its whole commits",
};

/// `copy IMAGE NEW [--log]`
const COPY: Subcommand = Subcommand {
    name: "copy",
    about: "Copy the image as it is now, also while it is served",
    more: "\
It prints COPIED once the copy is on the disk. The copy needs no log, unless the
image's own log is away (LOG AWAY). With --log it reads a log alone, and also
prints COMMITS (how many it took, the image that the log began with among them)
and LEFT (how many blocks it left out after them).

Exit status:
  0  the image was copied
  1  IMAGE SIZE, LOG, or FILE EXISTS (NEW, or its log): nothing was done
  2  PATH
  3  FILE, NOT READY, NO MEMORY, IN USE

Examples: ledger copy shop.d64 backup.d64
          ledger copy --log shop.d64-log rescued.d64",
    values: &[IMAGE, COPY_PATH, OF_LOG],
};
