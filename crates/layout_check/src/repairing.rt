//! The repair of a disk: a sound disk is made clean.
ghost use Rattle.std.specs.Prelude.{List};
ghost use Rattle.d64_image.specs.declared.place.Place.{Place};
ghost use Rattle.disk_layout.specs.Layout.{IsLayout, Layout};
ghost use Rattle.layout_check.specs.Keeping.{MakesCleanBut, MarksTaken, RepairsKeeping};
ghost use Rattle.layout_check.specs.Owners.{NumbersFiles};
ghost use Rattle.layout_check.specs.Repaired.{Repairs};

use crate::keeping::taken_sectors;
use crate::mending::{mend_entries, mend_map};
use crate::owners::Owners;
use crate::recounting::mend_counts;
use crate::survey_outcome::Survey;
use crate::survey_walk::survey;
use d64_image::Sectors;
use disk_layout::Fault;

/// Gives a sound disk the map in which these sectors are taken, and the side sectors and the block counts that it
/// should have, in this order. `taken` numbers the files of the disk.
fn mend<D: Sectors>(disk: &mut D, taken: &Owners) -> Result<(), Fault>
    requires { (l : Layout) × (strays : List Place) × IsLayout (D.history.image disk.old) l
        × MarksTaken taken.now l strays × NumbersFiles taken.now l }
    ensures { (l : Layout) (strays : List Place) → IsLayout (D.history.image disk.old) l
        → MarksTaken taken.now l strays → MakesCleanBut strays D.history disk.old disk.new result }
{
    mend_map(disk, taken)?;
    mend_entries(disk)?;
    mend_counts(disk, taken)
}

/// Repairs a disk: a sound one is made clean, with the same files. Any other is left as it is, and the survey's fault
/// is returned. At `Ok` the result has the owners and the number of entries.
///
/// A repair writes, each once:
/// - the map, if a bit or a count in it is wrong; the bits past the tracks' last sectors then become 0;
/// - the side sectors that don't have exactly their bytes, in the order of the directory;
/// - the directory sectors in which a block count is wrong.
///
/// On a clean disk nothing is written. Every image that the disk holds on the way is sound and has the same files, and
/// whole files stay whole. A repair makes at most 4179 reads; at `Ok`, at most 37 and five for each sector of the
/// directory or a file.
///
/// A stray sector, which is taken in the map but owned by nobody, becomes free: `repair_keeping` leaves it taken.
///
/// `Device` is returned if the device failed; what was mended until then stays mended.
pub fn repair<D: Sectors>(disk: &mut D) -> Result<Survey, Fault>
    ensures { Repairs D.history disk.old disk.new result }
{
    let found = survey(disk)?;
    mend(disk, found.owners())?;
    Ok(found)
}

/// Repairs a disk as `repair` does, and frees nothing: each stray sector, which is taken in the map but owned by
/// nobody, stays taken. Returns the number of stray sectors. Apart from them the disk is clean. They may be blocks that
/// were written by direct access, or that a program keeps in a way of its own.
///
/// Every image that the disk holds on the way is sound and has the same files. Whole files stay whole, and no sector
/// becomes free in the map. At most 4180 reads are made; at `Ok`, at most 38 and five for each sector of the directory
/// or a file.
///
/// A disk that isn't sound is left as it is, and the survey's fault is returned. `Device` is returned if the device
/// failed; what was mended until then stays mended.
pub fn repair_keeping<D: Sectors>(disk: &mut D) -> Result<u16, Fault>
    ensures { RepairsKeeping D.history disk.old disk.new result }
{
    let found = survey(disk)?;
    let (taken, strays) = taken_sectors(disk, found)?;
    mend(disk, &taken)?;
    Ok(strays)
}
