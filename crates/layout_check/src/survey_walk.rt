//! The survey of a disk: its directory, and entry by entry what each owns.
ghost use Rattle.std.specs.Prelude.{◌+◌, ◌*◌, ◌↔◌, IfErr, IfOk, IsOk, OnOk, length};
ghost use Rattle.d64_image.specs.History.{NeverFailed, OnlyReads};
ghost use Rattle.disk_layout.specs.Directory.{IsDirectory};
ghost use Rattle.disk_layout.specs.Fault.{Holds, TellsFault};
ghost use Rattle.disk_layout.specs.Layout.{IsLayout, IsSound, Layout, owners};
ghost use Rattle.layout_check.specs.Calls.{Passes, TellsUnsound};
ghost use Rattle.layout_check.specs.Survey.{IsSurveyOf, Surveys};

use crate::files::survey_entry;
use crate::owners::Owners;
use crate::parts::FileSectors;
use crate::survey_outcome::{Findings, Survey};
use arrayvec::ArrayVec;
use d64_image::{Place, Sectors};
use disk_layout::{Fault, MOST_BLOCKS, Slot, directory_start, read_directory, walk_chain};

/// Lists the entries of the directory, and its sectors.
fn survey_directory<D: Sectors>(
    disk: &mut D,
    slots: &mut ArrayVec<Slot, 144>,
    places: &mut ArrayVec<Place, MOST_BLOCKS>,
) -> Result<(), Fault>
    ensures directory { OnOk result (IsDirectory (D.history.image disk.old) places.new.items slots.new.items) }
    ensures ok { OnOk result (Passes D.history disk.old disk.new (18 + length places.new.items)) }
    ensures err { IfErr result (TellsUnsound D.history disk.old disk.new 738) }
{
    read_directory(disk, slots)?;
    walk_chain(disk, directory_start(), places)?;
    Ok(())
}

/// Surveys the disk as `survey` does, and also checks the bytes of the side sectors and the block counts.
pub(crate) fn survey_files<D: Sectors>(disk: &mut D) -> Result<Findings, Fault>
    ensures ok { IfOk result (Surveys D.history disk.old disk.new) }
    ensures err { IfErr result (TellsUnsound D.history disk.old disk.new 2114) }
{
    let mut slots = ArrayVec::new();
    // the directory's places are kept in the room for blocks: a list of their own would take time to clear
    let mut parts = FileSectors::new();
    survey_directory(disk, &mut slots, &mut parts.blocks)?;
    let mut owners = Owners::of_directory(parts.blocks.as_slice());
    let mut unclean = None;
    for (number, slot) in slots.as_slice().iter().enumerate() {
        let found = survey_entry(disk, slot, number as u8, &mut owners, &mut parts)?;
        unclean = unclean.or(found);
    }
    Ok(Findings {
        survey: Survey::new(owners, slots.len()),
        unclean,
    })
}

/// Surveys the disk. The result has the owners and the number of entries if each link, each type, each record length
/// and each side sector of the entries agrees and no sector has two owners. Otherwise the result is a fault that holds
/// at its place; if there are several, it may be any of them. An image that has no such fault is sound. Block counts,
/// the map, and the bytes of side sectors that name nothing aren't checked.
///
/// Nothing is written. Each owned sector is read at most twice, and no memory is allocated.
pub fn survey<D: Sectors>(disk: &mut D) -> Result<Survey, Fault>
    ensures ok { IfOk result (λ s.
        (l : Layout) × IsLayout (D.history.image disk.old) l × IsSurveyOf l s
        × OnlyReads D.history disk.old disk.new (18 + 2 * length (owners l))) }
    ensures err { IfErr result (Holds (D.history.failed_at disk.new) (D.history.image disk.old)) }
    // if the device doesn't fail, the result is Ok exactly on a sound image
    ensures sound { NeverFailed D.history disk.old disk.new → (IsOk result ↔ IsSound (D.history.image disk.old)) }
    ensures failures { TellsFault D.history disk.old disk.new result }
    // the directory, all that may be owned twice, and the sectors of one entry once more
    ensures reads { OnlyReads D.history disk.old disk.new 2114 }
{
    let found = survey_files(disk)?;
    Ok(found.survey)
}
