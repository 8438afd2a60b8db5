//! What a refusal is about, and what is said of it to a person.

use crate::cures::{FORMAT, GEOS};
use crate::jobs::Job;
use command_faults::CommandFault;
use disk_changes::ChangeKind;
use disk_layout::Fault;

/// What a line for a person is about.
pub(crate) enum Advice {
    /// A file that couldn't be opened or read, or the output.
    Files,
    /// The image's size.
    Size,
    /// A file that failed while it was written or read.
    Device,
    /// The image, of which this is printed.
    Image(&'static str),
    /// The image, whose disk has a fault.
    Fault,
    /// The image, whose log isn't there.
    Away,
    /// A name that no file of the image has.
    Name,
    /// The script, the records or the other image, of which this is printed.
    Text(&'static str),
    /// A line of records, of this number.
    Line(usize),
    /// The image or the other image, of which this is printed.
    Either(&'static str),
    /// A file that is to be made.
    Made,
    /// The image, which has a second name.
    SecondName,
    /// Nothing that the refusal's own line leaves open.
    Nothing,
}

const JUDGED: &str = "\"man ledger-1541\" says what the word means, and what to do";

/// What a fault of a disk means, and what helps against it. What helps one disk doesn't help each: a line about an image says what
/// can be done about this one (`cures`).
pub(crate) fn said_of_fault(fault: Fault) -> &'static str {
    match fault {
        Fault::BadLink(_) => {
            "its link names no sector of the disk; `extract` takes out what can be read"
        }
        Fault::Loop(_) =>
            "a chain of sectors comes back to it; `extract` takes out what can be read",
        Fault::OwnedTwice(_) => {
            "two of the files, the directory and the BAM have it; `extract` takes out what can be read"
        }
        Fault::BadType(_) =>
            "an entry there has a type that doesn't exist; `bytes` takes files out",
        Fault::Unclosed(_) => "a file there was never closed; `extract` takes it out",
        Fault::BadSide(_) =>
            "a side sector disagrees with its file, or an entry names none; `repair --sides` builds it anew",
        Fault::BadLength(_) => {
            "a relative file there has a record length of 0 or 255; `bytes` takes files out"
        }
        Fault::CountWrong(_) => {
            "a relative file's entry there has a wrong block count; `repair` corrects it, unless more is wrong"
        }
        Fault::MapWrong(_) => "the BAM is wrong; `repair` corrects it, unless more is wrong",
        Fault::Device(_) => JUDGED,
    }
}

/// What is wrong with an image that is no shop's.
pub(crate) const NO_SHOP: &str = "it is no shop of this program, or another program wrote to it";

pub(crate) const KEPT: &str =
    "no file owns what is kept, but it may hold data; if you know that it doesn't, `repair --free` frees it";

pub(crate) const FOREIGN_LOG: &str =
    "the log beside it is of another image, or not whole; `copy --log IMAGE-log NEW` gets out what it has";

const NO_BASE: &str = "its first commit isn't whole, so it gives no image";

pub(crate) const LOG_AWAY: &str =
    "the last requests are in its log, which isn't beside it: put it back there, or go on without them by --accept-loss";

pub(crate) const SECOND_NAME: &str =
    "it has a second name (a hard link), and would have a log under each, or it is mounted by itself, \
     without its log; keep one name, mount its folder, or `copy` it";

pub(crate) const CUT_SHORT: &str =
    "a file ends there, too early: a sector of it was lost; read the disk again, or `repair --accept-loss` lets it end there";

/// What is said if a change is refused for that: the sectors that no file owns may be what was lost.
pub(crate) const CUT_CHANGE: &str =
    "a file ends there, too early, and sectors that no file owns may be its end; read the disk again, or go on by --accept-loss";

/// What is said if a file that was printed, or that was to be copied, ends so.
pub(crate) const CUT_LOOK: &str =
    "the file ends there, too early: a sector of it was lost; `bytes` and `extract` take out what is left";

/// What is said if a file that was taken out ends so.
const CUT_OUT: &str =
    "a file ends there, too early: a sector of it was lost; what is left of it was taken out";

pub(crate) const NO_PROGRAM: &str =
    "the file isn't a program in BASIC: it has no end of one, and doesn't begin with a line of one; `bytes` prints it";

pub(crate) const FEWER: &str =
    "a file ends there, and its entry counts more blocks; compare it with another copy, or `repair --accept-loss` sets the count";

pub(crate) const TAKEN: &str = "another program has it; end that one first";

pub(crate) const NAMED: &str = "a file has this name; `ledger list` shows them";

pub(crate) const NO_ROOM: &str =
    "it has too few free blocks, or no room in its directory; nothing was done";

pub(crate) const NO_MEMORY: &str =
    "memory was refused; what was answered stays in it, or in its log";

pub(crate) const LOCKED: &str = "the file is locked: `ledger list` prints `<` after its type";

pub(crate) const SHOP_FILE: &str =
    "the file is one of the two that a shop is kept in; without it the shop is lost";

pub(crate) const BAD_LINE: &str = "nothing was done; mend the line, and run it again";

/// What a fault of a command is about.
fn about_fault(fault: CommandFault) -> Advice {
    match fault {
        CommandFault::File => Advice::Files,
        CommandFault::ImageSize => Advice::Size,
        CommandFault::Layout(_) => Advice::Fault,
        CommandFault::NoFile => Advice::Name,
        CommandFault::FileExists => Advice::Image(NAMED),
        CommandFault::DiskFull => Advice::Image(NO_ROOM),
        CommandFault::Locked => Advice::Image(LOCKED),
        CommandFault::NoStock | CommandFault::NoRequests => Advice::Image(NO_SHOP),
        CommandFault::BadCard(_) | CommandFault::BadRequestCard(_) => Advice::Image(NO_SHOP),
        CommandFault::TwoIntents => Advice::Image(NO_SHOP),
        CommandFault::ScriptLine(_) => Advice::Text(BAD_LINE),
        CommandFault::RecordsLine(number) => Advice::Line(number),
        CommandFault::Geos => Advice::Image(GEOS),
        CommandFault::Format => Advice::Image(FORMAT),
        CommandFault::Device => Advice::Device,
        CommandFault::NoMemory => Advice::Image(NO_MEMORY),
        CommandFault::NotReady => Advice::Files,
        CommandFault::InUse => Advice::Image("another program has it; end that one first"),
        CommandFault::StraysLeft(_) => Advice::Image(KEPT),
        CommandFault::PathExists => Advice::Made,
        CommandFault::Log => Advice::Image(FOREIGN_LOG),
        CommandFault::LogAway => Advice::Away,
        CommandFault::TwoNames => Advice::SecondName,
        CommandFault::Short(_) => Advice::Image(CUT_CHANGE),
        CommandFault::NoProgram => Advice::Image(NO_PROGRAM),
        CommandFault::ShopFile => Advice::Image(SHOP_FILE),
        CommandFault::Trimmed => Advice::Image(JUDGED),
        CommandFault::Several(_) => Advice::Nothing,
    }
}

const ONE_IMAGE: &str =
    "FROM and IMAGE have to be two files; `bytes` and `put` copy a file on one disk";

const NO_SOURCE: &str = "it has no closed PRG, SEQ, USR or REL file of this name";

/// What a refusal of a file's copy between these two images is about: of many it isn't known which of them it is.
fn about_copy(from: &str, image: &str, fault: CommandFault) -> Advice {
    match fault {
        CommandFault::NoFile => Advice::Text(NO_SOURCE),
        CommandFault::Layout(fault) => Advice::Either(said_of_fault(fault)),
        CommandFault::Short(_) => Advice::Either(CUT_SHORT),
        CommandFault::InUse if from == image => Advice::Image(ONE_IMAGE),
        CommandFault::InUse => Advice::Either(TAKEN),
        CommandFault::Log => Advice::Either(FOREIGN_LOG),
        CommandFault::TwoNames => Advice::Either(SECOND_NAME),
        fault => about_fault(fault),
    }
}

/// What a refusal of this job is about.
pub(crate) fn subject_of(job: &Job<'_>, refusal: CommandFault) -> Advice {
    match (job, refusal) {
        (Job::Salvage { .. }, CommandFault::Log) => Advice::Image(NO_BASE),
        (Job::Look { .. }, CommandFault::Short(_)) => Advice::Image(CUT_LOOK),
        (Job::Extract { .. }, CommandFault::Short(_)) => Advice::Image(CUT_OUT),
        (
            Job::Change {
                image,
                kind: ChangeKind::CopyFile { from, .. },
                ..
            },
            fault,
        ) => about_copy(from, image, fault),
        (_, fault) => about_fault(fault),
    }
}
