//! Checks of a disk, through a caller that knows only the trait.
ghost use Rattle.std.specs.Prelude.{◌≤◌, IsTrue};
ghost use Rattle.d64_image.specs.History.{NeverFailed, OnlyReads};
ghost use Rattle.disk_layout.specs.Clean.{IsClean};
ghost use Rattle.benchmarks.specs.Tallies.{IsTally};

use d64_image::Sectors;
use layout_check::check;

/// Whether a check finds the disk clean. If the device fails, a clean disk may be reported as unclean.
fn is_clean<D: Sectors>(disk: &mut D) -> bool
    ensures found { IsTrue result → IsClean (D.history.image disk.old) }
    ensures clean { NeverFailed D.history disk.old disk.new → IsClean (D.history.image disk.old) → IsTrue result }
    ensures later { D.history.failures disk.old ≤ D.history.failures disk.new }
    ensures reads { OnlyReads D.history disk.old disk.new 2115 }
{
    check(disk).is_ok()
}

/// Checks the disk so many times, and counts how often it was clean.
pub fn count_clean<D: Sectors>(disk: &mut D, rounds: u64) -> u64
    ensures { IsTally D.history disk.old disk.new rounds result }
{
    let mut count = 0;
    for _round in 0..rounds {
        if is_clean(disk) {
            count += 1;
        }
    }
    count
}
