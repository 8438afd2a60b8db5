//! What can be done for a disk: which repair of it ends well. Each is tried in memory, so that what is said of it holds.
ghost use Rattle.std.specs.Prelude.{◌≡◌, ◌↔◌, IfErr, IfOk, IsTrue, length};
ghost use Rattle.command_faults.specs.Faults.{IsLoadFault};
ghost use Rattle.disk_changes.specs.Remedies.{
  EndsBy,
  HasNoneCut,
  IsFreedBy,
  IsLackOfMemory,
  IsRefusedBy,
  IsRemedy,
  IsWhole,
  kind_by as kind_of,
  loss_by as loss_of,
};
ghost use Rattle.disk_changes.specs.declared.remedies.Way.TheVariants.{Plain};

use crate::changes::{Change, ChangeKind, Unowned};
use crate::changing::change;
use crate::judging::{check_usable, taken_disk};
use command_faults::{CommandFault, load};
use damaged_files::Loss;
use layout_check::check;
use std::alloc::Global;

/// A way of repairing a disk.
#[derive(Clone, Copy, Debug, PartialEq, Eq)]
pub enum Way {
    /// `repair`.
    Plain,
    /// `repair --sides`.
    Sides,
    /// `repair --accept-loss`.
    Settled,
    /// `repair --sides --accept-loss`.
    SidesSettled,
    /// `repair --free`.
    Freeing,
    /// `repair --free --accept-loss`.
    FreeingSettled,
}

/// What can be done for a disk.
#[derive(Clone, Copy)]
pub enum Remedy {
    /// Nothing has to be done: the disk is clean, and no file of it is cut short.
    Nothing,
    /// Nothing is wrong but that the map calls sectors taken that no file owns, and `repair` changes nothing.
    Strays {
        /// How many there are.
        left: u16,
        /// Whether `repair --free` frees them. Otherwise a file of GEOS may own them.
        freed: bool,
    },
    /// This repair can be made.
    Repair {
        /// Which one.
        way: Way,
        /// How many sectors stay taken after it though no file owns them.
        left: u16,
    },
    /// No repair understands the disk, for this reason. Its files can be taken out.
    Rescue(CommandFault),
}

/// The change that a way of repairing asks for.
fn kind_by(way: Way) -> ChangeKind<'static>
    ensures { result ≡ kind_of way }
{
    match way {
        Way::Plain | Way::Settled => ChangeKind::Repair {
            unowned: Unowned::Kept,
        },
        Way::Sides | Way::SidesSettled => ChangeKind::RepairSides {
            unowned: Unowned::Kept,
        },
        Way::Freeing | Way::FreeingSettled => ChangeKind::Repair {
            unowned: Unowned::Freed,
        },
    }
}

/// Whether it accepts a loss.
fn loss_by(way: Way) -> Loss
    ensures { result ≡ loss_of way }
{
    match way {
        Way::Settled | Way::SidesSettled | Way::FreeingSettled => Loss::Accepted,
        Way::Plain | Way::Sides | Way::Freeing => Loss::Refused,
    }
}

/// Why something is refused, which stands. The error is `NoMemory`: it wasn't found out.
fn known_refusal(fault: CommandFault) -> Result<CommandFault, CommandFault>
    ensures ok { IfOk result (λ why. (why ≡ fault) × ¬ (IsLackOfMemory why)) }
    ensures err { IfErr result IsLackOfMemory }
{
    if fault == CommandFault::NoMemory {
        return Err(CommandFault::NoMemory);
    }
    Ok(fault)
}

/// Tries a repair in memory: how many sectors it leaves, or why it is refused. Nothing is written.
///
/// The error is `NoMemory`: there was no memory to try it, so that nothing is known of it.
fn try_repair(
    alloc: Global,
    image: &[u8],
    way: Way,
) -> Result<Result<u16, CommandFault>, CommandFault>
    ensures ok { IfOk result (λ tried. IfOk tried (EndsBy image.now way) × IfErr tried (IsRefusedBy image.now way)) }
    ensures err { IfErr result IsLackOfMemory }
{
    let kind = kind_by(way);
    let repair = Change {
        kind: &kind,
        loss: loss_by(way),
        source: &[],
    };
    match change(alloc, &repair, image) {
        Ok(made) => Ok(Ok(made.left)),
        Err(fault) => {
            let why = known_refusal(fault)?;
            Ok(Err(why))
        }
    }
}

/// Whether no file of an image is cut short.
///
/// The error is `NoMemory`.
fn is_uncut(alloc: Global, image: &[u8]) -> Result<bool, CommandFault>
    requires { length image.now ≡ 174848 }
    ensures ok { IfOk result (λ uncut. IsTrue uncut ↔ HasNoneCut image.now) }
    ensures err { IfErr result IsLackOfMemory }
{
    match taken_disk(alloc, image, Loss::Refused) {
        Ok(_) => Ok(true),
        Err(fault) => {
            known_refusal(fault)?;
            Ok(false)
        }
    }
}

/// Whether nothing has to be done for the disk of an image: it is clean, and no file of it is cut short.
fn is_whole(alloc: Global, image: &[u8]) -> Result<bool, CommandFault>
    ensures ok { IfOk result (λ whole. (length image.now ≡ 174848) × (IsTrue whole ↔ IsWhole image.now)) }
    ensures err { IfErr result (IsLoadFault image.now) }
{
    let mut disk = load(alloc, image)?;
    let Ok(_) = check(&mut disk) else {
        return Ok(false);
    };
    let uncut = is_uncut(alloc, image)?;
    Ok(uncut)
}

/// Whether `repair --free` can be made.
///
/// The error is `NoMemory`.
fn can_free(alloc: Global, image: &[u8]) -> Result<bool, CommandFault>
    ensures ok { IfOk result (IsFreedBy image.now) }
    ensures err { IfErr result IsLackOfMemory }
{
    match try_repair(alloc, image, Way::Freeing)? {
        Ok(_) => Ok(true),
        Err(_) => Ok(false),
    }
}

/// What `repair` does, which leaves so many sectors: only those are wrong with the disk, or it mends more.
fn plain_way(alloc: Global, image: &[u8], left: u16) -> Result<Remedy, CommandFault>
    requires { ¬ (IsWhole image.now) × EndsBy image.now Plain left }
    ensures ok { IfOk result (IsRemedy image.now) }
    ensures err { IfErr result IsLackOfMemory }
{
    let repair = Remedy::Repair {
        way: Way::Plain,
        left,
    };
    if left == 0 {
        return Ok(repair);
    }
    match check_usable(alloc, image) {
        Ok(()) => {
            let freed = can_free(alloc, image)?;
            Ok(Remedy::Strays { left, freed })
        }
        Err(fault) => {
            known_refusal(fault)?;
            Ok(repair)
        }
    }
}

/// What the ways of repairing do that are tried after `repair`, which is refused: the first that can be gone. `Rescue` with the
/// reason of the last if none can.
fn other_way(alloc: Global, image: &[u8], why: CommandFault) -> Result<Remedy, CommandFault>
    requires { ¬ (IsWhole image.now) × IsRefusedBy image.now Plain why }
    ensures ok { IfOk result (IsRemedy image.now) }
    ensures err { IfErr result IsLackOfMemory }
{
    if let Ok(left) = try_repair(alloc, image, Way::Sides)? {
        return Ok(Remedy::Repair {
            way: Way::Sides,
            left,
        });
    }
    if let Ok(left) = try_repair(alloc, image, Way::Settled)? {
        return Ok(Remedy::Repair {
            way: Way::Settled,
            left,
        });
    }
    Ok(match try_repair(alloc, image, Way::SidesSettled)? {
        Ok(left) => Remedy::Repair {
            way: Way::SidesSettled,
            left,
        },
        Err(last) => Remedy::Rescue(last),
    })
}

/// What can be done for the disk of an image: nothing if it is clean and no file is cut short; otherwise the first of `repair`,
/// `repair --sides`, and both with a loss accepted, that can be made of this very image; and if none can, why the last isn't made.
/// Each is tried in memory, and nothing is written.
///
/// The errors are `ImageSize` and `NoMemory`. Where memory is refused nothing is said of the disk, because a way that
/// couldn't be tried may be the one that helps.
pub fn find_remedy(alloc: Global, image: &[u8]) -> Result<Remedy, CommandFault>
    ensures ok { IfOk result (IsRemedy image.now) }
    ensures err { IfErr result (IsLoadFault image.now) }
{
    if is_whole(alloc, image)? {
        return Ok(Remedy::Nothing);
    }
    match try_repair(alloc, image, Way::Plain)? {
        Ok(left) => plain_way(alloc, image, left),
        Err(why) => other_way(alloc, image, why),
    }
}
