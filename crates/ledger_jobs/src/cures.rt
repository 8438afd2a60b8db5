//! What a person can do about a disk. Each repair that a sentence names can be made of this very image, because it was tried in
//! memory.

use command_faults::CommandFault;
use d64_image::Place;
use disk_changes::{Remedy, Way};
use disk_layout::{Fault, map_place};

/// What is said of a disk of GEOS.
pub(crate) const GEOS: &str =
    "it is a disk of GEOS, or has a file of GEOS, which keeps sectors that no entry counts; \
     no repair here understands it, and `extract` takes out what can be read";

/// What is said of a disk with another format byte.
pub(crate) const FORMAT: &str =
    "its format byte isn't $41, so it may be no disk of the 1541, and no repair changes it; \
     `extract` takes out what can be read";

/// What is said of any other disk that no repair changes.
const RESCUE: &str =
    "no repair mends it; `extract` takes out what can be read, and `put` brings it to a disk of `new`";

/// What is said of sectors that no file owns, if they can be freed.
pub(crate) const STRAYS: &str =
    "the BAM calls sectors taken that no file owns, which does no harm; they may hold data, \
     and if you know that they don't, `repair --free` frees them";

/// What is said of such sectors if a file of GEOS may own them.
const GEOS_STRAYS: &str =
    "the BAM calls sectors taken that no file owns, which does no harm; a file of GEOS may own them";

/// What is said after a repair that keeps such sectors.
const CORRECTS_SOME: &str =
    "`repair` corrects it, but for sectors that no file owns and that may hold data: it keeps these (KEPT)";

/// What is said of a disk of which a file is cut short.
const SETTLES: &str =
    "a file is cut short: read the disk again, or keep a copy, and `repair --accept-loss` lets the file \
     end where it ends now";

/// The same if side sectors have to be built, too.
const SETTLES_SIDES: &str =
    "a file is cut short: read the disk again, or keep a copy, and `repair --sides --accept-loss` \
     lets the file end where it ends now, and builds side sectors anew";

/// What a repair does that can be made, and leaves so many sectors.
fn cure_by(way: Way, left: u16) -> &'static str {
    match (way, left) {
        (Way::Plain, 0) => "`repair` corrects it",
        (Way::Plain, _) => CORRECTS_SOME,
        (Way::Sides, 0) => "`repair --sides` builds side sectors anew, and corrects the rest",
        (Way::Sides, _) => {
            "`repair --sides` builds side sectors anew, and keeps sectors that no file owns (KEPT)"
        }
        (Way::Settled | Way::FreeingSettled, _) => SETTLES,
        (Way::SidesSettled, _) => SETTLES_SIDES,
        (Way::Freeing, _) => "`repair --free` corrects it",
    }
}

/// What is said of a disk that no repair changes, for this reason.
fn rescue_from(why: CommandFault) -> &'static str {
    match why {
        CommandFault::Geos => GEOS,
        CommandFault::Format => FORMAT,
        _ => RESCUE,
    }
}

/// What can be done about a disk; None if nothing has to be.
pub(crate) fn cure_of(remedy: Remedy) -> Option<&'static str> {
    match remedy {
        Remedy::Nothing => None,
        Remedy::Strays { freed: true, .. } => Some(STRAYS),
        Remedy::Strays { freed: false, .. } => Some(GEOS_STRAYS),
        Remedy::Repair { way, left } => Some(cure_by(way, left)),
        Remedy::Rescue(why) => Some(rescue_from(why)),
    }
}

/// What a sector is that two have: the BAM's own, or another one.
fn meaning_of_shared(place: Place) -> &'static str {
    if place == map_place() {
        "an entry names the BAM's sector, as in drawn directories"
    } else {
        "two of the files, the directory and the BAM have it"
    }
}

/// What a fault of a disk is.
pub(crate) fn meaning_of_fault(fault: Fault) -> &'static str {
    match fault {
        Fault::BadLink(_) => "its link names no sector of the disk",
        Fault::Loop(_) => "a chain of sectors comes back to it",
        Fault::OwnedTwice(place) => meaning_of_shared(place),
        Fault::BadType(_) => "an entry there has a type that doesn't exist",
        Fault::Unclosed(_) => "a file there was never closed",
        Fault::BadSide(_) => "a side sector disagrees with its file, or an entry there names none",
        Fault::BadLength(_) => "a relative file there has a record length of 0 or 255",
        Fault::CountWrong(_) => "a relative file's entry there has a wrong block count",
        Fault::MapWrong(_) => "the BAM is wrong",
        Fault::Device(_) => "it couldn't be read",
    }
}
