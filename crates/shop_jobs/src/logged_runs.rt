//! Serving the shop of an image over a log, as a run of the program.
ghost use Rattle.std.specs.Prelude.{◌≡◌};
ghost use Rattle.shop_jobs.specs.LoggedRuns.{IsLoggedRun, loop_fault};

use command_faults::{CommandFault, load};
use host_session::LoopFault;
use image_log::ImageLog;
use line_server::{BatchReplies, BatchSource, Room, serve_batches};
use shop_commands::of_opening;
use std::alloc::Global;

/// What is reported of a shop whose service this fault ended: `File` for its input and for its output.
fn told(fault: LoopFault) -> CommandFault
    ensures { result ≡ loop_fault fault }
{
    match fault {
        LoopFault::Open(fault) => of_opening(fault),
        LoopFault::Input | LoopFault::Output => CommandFault::File,
        LoopFault::Device => CommandFault::Device,
    }
}

/// Serves the shop of an image over a log that stands for that image, batch by batch up to the end of the input. The
/// lines at hand are handled in memory, made durable by one commit, and then their replies are reported.
///
/// `ImageSize`; `NoMemory` if there was none for the disk or for a batch; and the faults of an opening, in its order:
/// nothing was read, written or reported then. `File`: the input couldn't be read, or the output failed; the lines before
/// stand, and of one batch at most some weren't reported. `Device`: the log takes no more commits. Then the last batch
/// counts whole or not, and no reply of it was reported.
// Out of line: a session is large, and a frame that has its room touches each page of it.
#[inline(never)]
pub fn serve_logged<L: ImageLog, R: BatchSource, T: BatchReplies<L>>(
    alloc: Global,
    image: &[u8],
    log: &mut L,
    input: &mut R,
    out: &mut T,
) -> Result<(), CommandFault>
    ensures run { IsLoggedRun L.history R.input T.output image.now log.old log.new input.old input.new
        out.old out.new result }
{
    let disk = match load(alloc, image) {
        Ok(disk) => disk,
        Err(fault) => return Err(fault),
    };
    let Ok(mut room) = Room::new(alloc) else {
        return Err(CommandFault::NoMemory);
    };
    match serve_batches(disk, log, input, out, &mut room) {
        Ok(_left) => Ok(()),
        Err((fault, _left)) => Err(told(fault)),
    }
}
