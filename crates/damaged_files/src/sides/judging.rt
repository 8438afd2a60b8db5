//! Whether a disk is another one with its side sectors built anew.
ghost use Rattle.std.specs.Prelude.{◌≡◌, IsTrue};
ghost use Rattle.d64_image.specs.Memory.{disk_image};
ghost use Rattle.d64_image.specs.declared.place.Place as places;
ghost use Rattle.disk_layout.specs.Layout.{Layout};
ghost use Rattle.layout_check.specs.Survey.{IsSurveyOf};
ghost use Rattle.damaged_files.specs.sides.Compared.{SameOrOwned};
ghost use Rattle.damaged_files.specs.sides.Rebuilt.{IsRebuilt};

use crate::sides::comparing::{keeps_chains, keeps_directory};
use crate::sides::sectors::is_same;
use d64_image::{MemDisk, Place, SECTORS};
use layout_check::{Survey, survey};

/// Whether the two disks have the same bytes at the place, or it is somebody's in the survey.
fn is_same_or_owned(before: &MemDisk, after: &MemDisk, found: &Survey, place: Place) -> bool
    ensures { IsTrue result → (l : Layout) → IsSurveyOf l found.now
        → SameOrOwned (disk_image before.now) (disk_image after.now) l place }
{
    is_same(before, after, place) || found.is_owned(place)
}

/// Whether that is so for each sector of the disk.
fn changes_owned(before: &MemDisk, after: &MemDisk, found: &Survey) -> bool
    ensures { IsTrue result → (l : Layout) → IsSurveyOf l found.now → (p : places.Place)
        → SameOrOwned (disk_image before.now) (disk_image after.now) l p }
{
    for index in 0..SECTORS {
        if !is_same_or_owned(before, after, found, Place::nth(index)) {
            return false;
        }
    }
    true
}

/// Whether the second disk is sound, and differs from the first in its side sectors at most.
pub(crate) fn is_rebuilt(before: &MemDisk, after: &mut MemDisk) -> bool
    ensures told { IsTrue result → IsRebuilt (disk_image before.now) (disk_image after.old) }
    ensures after { disk_image after.new ≡ disk_image after.old }
{
    let Ok(found) = survey(after) else {
        return false;
    };
    if !changes_owned(before, after, &found) {
        return false;
    }
    keeps_directory(before, after) && keeps_chains(before, after)
}
