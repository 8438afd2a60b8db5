//! A change, as a function of an image's bytes.
ghost use Rattle.std.specs.Prelude.{◌≡◌, IfErr, IfOk, true};
ghost use Rattle.disk_changes.specs.Art.{IsBesideArt};
ghost use Rattle.disk_changes.specs.Changes.{IsBarred, IsChanged, IsDone, IsFit, IsRefused};
ghost use Rattle.disk_changes.specs.Changes.{is_layout as is_layout_of, leaves_art as leaves_art_of};

use crate::art::{MAP_TRACK, NO_TRACK, disk_with_art, put_tracks};
use crate::changes::{Change, ChangeKind, Changed};
use crate::copying::copied;
use crate::deleting::deleted;
use crate::geos_putting::geos_put;
use crate::locking::relocked;
use crate::making::made;
use crate::putting::put;
use crate::rebuilding::rebuilt;
use crate::renaming::renamed;
use crate::repairing::repaired;
use crate::sorting::sorted;
use crate::storing::stored_as;
use crate::titling::titled;
use crate::undeleting::undeleted;
use command_faults::CommandFault;
use d64_image::IMAGE_BYTES;
use std::alloc::Global;

/// What comes of a change of an image as it is.
fn change_plain(alloc: Global, what: &Change<'_>, image: &[u8]) -> Result<Changed, CommandFault>
    requires fit { IsFit what.now.kind.now }
    ensures ok { IfOk result (IsDone what.now image.now) }
    ensures err { IfErr result (IsBarred what.now image.now) }
{
    let Change { kind, loss, source } = *what;
    match kind {
        ChangeKind::Repair { unowned } => repaired(alloc, image, unowned.is_freed(), loss),
        ChangeKind::RepairSides { unowned } => rebuilt(alloc, image, unowned.is_freed(), loss),
        ChangeKind::Make { length, name } => made(alloc, image, name.as_bytes(), *length, loss),
        ChangeKind::Rename { from, to } => renamed(alloc, image, from.as_bytes(), to.as_bytes()),
        ChangeKind::Title { id, name } => titled(alloc, image, name.as_bytes(), *id),
        ChangeKind::Lock { lock, name } => relocked(alloc, image, name.as_bytes(), *lock),
        ChangeKind::Delete { name } => deleted(alloc, image, name.as_bytes(), loss),
        ChangeKind::Undelete { kind, name } => {
            undeleted(alloc, image, name.as_bytes(), *kind, loss)
        }
        ChangeKind::Sort => sorted(alloc, image),
        ChangeKind::Put { kind, name, .. } => {
            put(alloc, image, name.as_bytes(), *kind, source, loss)
        }
        ChangeKind::PutGeos { name, .. } => geos_put(alloc, image, name.as_bytes(), source, loss),
        ChangeKind::CopyFile { name, to, .. } => {
            copied(alloc, image, source, name.as_bytes(), to.as_bytes(), loss)
        }
        ChangeKind::Store { columns, name, .. } => {
            stored_as(alloc, image, name.as_bytes(), *columns, source, loss)
        }
    }
}

/// Whether a change neither moves directory art nor says of a disk with art that it is in order.
fn leaves_art(kind: &ChangeKind<'_>) -> bool
    ensures { result ≡ leaves_art_of kind.now }
{
    !matches!(
        *kind,
        ChangeKind::Sort | ChangeKind::Repair { .. } | ChangeKind::RepairSides { .. }
    )
}

/// Whether the disk was refused for a fault of its layout.
fn is_layout(fault: &CommandFault) -> bool
    ensures { result ≡ is_layout_of fault.now }
{
    matches!(*fault, CommandFault::Layout(_))
}

/// What comes of a change while the directory art at 18/0 is aside. If there is none, the change is refused for this reason.
fn change_beside_art(
    alloc: Global,
    what: &Change<'_>,
    image: &[u8],
    fault: CommandFault,
) -> Result<Changed, CommandFault>
    requires fit { IsFit what.now.kind.now }
    requires leaves { leaves_art_of what.now.kind.now ≡ true }
    requires barred { IsBarred what.now image.now fault }
    ensures ok { IfOk result (IsBesideArt (IsDone what.now) image.now) }
    ensures err { IfErr result (IsRefused what.now image.now) }
{
    let Some((mut disk, entries)) = disk_with_art(alloc, image)? else {
        return Err(fault);
    };
    put_tracks(&mut disk, entries.as_slice(), NO_TRACK);
    let mut made = change_plain(alloc, what, disk.bytes())?;
    put_tracks(&mut made.disk, entries.as_slice(), MAP_TRACK);
    Ok(made)
}

/// The disk that comes of a change to that of the image, and what is printed; or why the change isn't made. Nothing is
/// read or written.
///
/// Directory art at 18/0 makes a disk unsound (`OwnedTwice`). If the disk is refused for such a fault, the art is put aside: its
/// first block becomes none. The change is made so, and then it is 18/0 again. `Sort` and the repairs refuse such a disk.
pub fn change(alloc: Global, what: &Change<'_>, image: &[u8]) -> Result<Changed, CommandFault>
    requires fit { IsFit what.now.kind.now }
    ensures ok { IfOk result (IsChanged what.now image.now) }
    ensures err { IfErr result (IsRefused what.now image.now) }
{
    if image.len() != IMAGE_BYTES {
        return Err(CommandFault::ImageSize);
    }
    match change_plain(alloc, what, image) {
        Ok(made) => Ok(made),
        Err(fault) => {
            if is_layout(&fault) && leaves_art(what.kind) {
                change_beside_art(alloc, what, image, fault)
            } else {
                Err(fault)
            }
        }
    }
}
