//! The check of a disk: its survey, and what a clean disk has beyond a sound one.
ghost use Rattle.std.specs.Prelude.{◌↔◌, IfErr, IfOk, IsOk, OnOk};
ghost use Rattle.d64_image.specs.History.{NeverFailed, OnlyReads};
ghost use Rattle.disk_layout.specs.Clean.{IsClean, IsCleanLayout};
ghost use Rattle.disk_layout.specs.Fault.{HoldsOfClean, TellsFault};
ghost use Rattle.disk_layout.specs.Layout.{Layout};
ghost use Rattle.layout_check.specs.Calls.{Passes};
ghost use Rattle.layout_check.specs.Exact.{HasMap, TellsUnclean};
ghost use Rattle.layout_check.specs.Survey.{IsSurveyOf, IsToldBy};

use crate::maps::check_bits;
use crate::survey_outcome::Survey;
use crate::survey_walk::survey_files;
use d64_image::Sectors;
use disk_layout::{Fault, map_place, read_sector};

/// Checks the map of a sound disk that was surveyed.
fn check_map<D: Sectors>(disk: &mut D, found: &Survey) -> Result<(), Fault>
    requires { IsToldBy (D.history.image disk.old) found.now }
    ensures map { OnOk result (HasMap (D.history.image disk.old)) }
    ensures ok { OnOk result (Passes D.history disk.old disk.new 1) }
    ensures err { IfErr result (TellsUnclean D.history disk.old disk.new 1) }
{
    let mut map = [0u8; 256];
    read_sector(disk, map_place(), &mut map)?;
    check_bits(&map, found.owners())
}

/// Checks the disk. If it is sound, and its side sectors, the block counts of its relative entries and its map are
/// exact, the result has the owners and the number of entries. Otherwise the result is a fault that holds at its place.
/// An image with no fault of any kind is clean.
///
/// Nothing is written, and no memory is allocated.
pub fn check<D: Sectors>(disk: &mut D) -> Result<Survey, Fault>
    ensures ok { IfOk result (λ s. (l : Layout) × IsCleanLayout (D.history.image disk.old) l × IsSurveyOf l s) }
    ensures err { IfErr result (HoldsOfClean (D.history.failed_at disk.new) (D.history.image disk.old)) }
    // if the device doesn't fail, the result is Ok exactly on a clean image
    ensures clean { NeverFailed D.history disk.old disk.new → (IsOk result ↔ IsClean (D.history.image disk.old)) }
    ensures failures { TellsFault D.history disk.old disk.new result }
    // the survey, and the map
    ensures reads { OnlyReads D.history disk.old disk.new 2115 }
{
    let found = survey_files(disk)?;
    if let Some(fault) = found.unclean {
        return Err(fault);
    }
    check_map(disk, &found.survey)?;
    Ok(found.survey)
}
