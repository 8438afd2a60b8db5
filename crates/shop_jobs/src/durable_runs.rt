//! Scripts that are played over the file of an image, and what of it stays.
ghost use Rattle.std.specs.Prelude.{◌≡◌, ◌≢◌, IfErr, IfSome, take};
ghost use Rattle.image_file.specs.ImageFile.{placed};
ghost use Rattle.shop_commands.specs.Plays.{IsUntouched};
ghost use Rattle.command_faults.specs.declared.faults.CommandFault.TheVariants.{Device, File};
ghost use Rattle.shop_jobs.specs.DurableRuns.{IsDurableRun, IsFinished};
ghost use Rattle.shop_jobs.specs.Runs.{IsPlayRun};

use crate::shop_runs::play_run;
use command_faults::CommandFault;
use d64_image::KeptMirror;
use disk_layout::Fault;
use host_session::Replies;
use image_file::{ImageFile, WritesAt};
use std::alloc::Global;

/// Plays the script on the shop of the image that the file has, as `play_run` does, and hands the file back. All its
/// sectors are synced at the end. `Device` also if that failed.
pub fn play_durably<F: WritesAt, T: Replies<KeptMirror<ImageFile<F>>>>(
    alloc: Global,
    image: &[u8],
    script: &[u8],
    file: F,
    out: &mut T,
) -> (F, Result<Option<Fault>, CommandFault>)
    // these bytes were read from it
    requires image { IfSome (F.held file) (λ all. image.now ≡ take 174849 all) }
    ensures run { IsDurableRun {G = F.WritesAt.own} image.now file result.0 result.1
        (λ first left end. IsPlayRun placed T.output image.now script.now first left out.old out.new end) }
    // if neither the file nor the output is reported, nothing was done
    ensures untouched { IfErr result.1 (λ fault. fault ≢ File → fault ≢ Device
        → IsUntouched file result.0 out.old out.new) }
{
    let placed = ImageFile::of_image(file, image);
    let (mut left, ended) = play_run(alloc, image, script, placed, out);
    let end = finished(&mut left, ended);
    (left.into_inner(), end)
}

/// How a run over a file ends after the rest of what it wrote is synced. `Device` if the sync fails after a run that was
/// done, or whose output failed. After a fault of the image or the script there is nothing to sync, and a file that
/// failed isn't synced again.
pub(crate) fn finished<F: WritesAt>(
    file: &mut ImageFile<F>,
    ended: Result<Option<Fault>, CommandFault>,
) -> Result<Option<Fault>, CommandFault>
    ensures { IsFinished {G = F.WritesAt.own} ended file.old file.new result }
{
    match &ended {
        Ok(_) | Err(CommandFault::File) => match file.finish() {
            Ok(()) => ended,
            Err(_) => Err(CommandFault::Device),
        },
        Err(_) => ended,
    }
}
