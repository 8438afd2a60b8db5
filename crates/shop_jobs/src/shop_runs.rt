//! Doing a job over the bytes of its files.
ghost use Rattle.std.specs.Prelude.{◌≡◌};
ghost use Rattle.d64_image.specs.Keeps.{Agrees};
ghost use Rattle.d64_image.specs.Memory.{sectors_in};
ghost use Rattle.shop_jobs.specs.Runs.{dry_end, IsDryRun, IsPlayRun};

use command_faults::CommandFault;
use d64_image::{KeptMirror, SectorFile};
use disk_layout::Fault;
use host_session::Replies;
use shop_commands::{DryFault, dry, play_file};
use std::alloc::Global;
use std::io::Write;

/// The end of a run without a disk.
fn dry_ended(end: Result<(), DryFault>) -> Result<Option<Fault>, CommandFault>
    ensures { result ≡ dry_end end }
{
    match end {
        Ok(()) => Ok(None),
        Err(DryFault::BadLine(line)) => Err(CommandFault::ScriptLine(line)),
        Err(DryFault::Output) => Err(CommandFault::File),
    }
}

/// Prints the replies to a script, from no cards on and without a disk. `ScriptLine` if a line can't be played: nothing was
/// printed. `File` if the output failed.
// Out of line: its frame is large, and a frame touches each page of it.
#[inline(never)]
pub fn dry_run<W: Write>(script: &[u8], out: &mut W) -> Result<Option<Fault>, CommandFault>
    ensures { IsDryRun W.contents script.now out.old out.new result }
{
    dry_ended(dry(script, out))
}

/// Plays the script on the shop of the image that the file keeps, and hands the file back. `Device` if the file failed,
/// `File` if the output did; and the other refusals of `play_file`, at which nothing was done.
// Out of line: a session is large, and a frame that has its room touches each page of it.
#[inline(never)]
pub fn play_run<F: SectorFile, T: Replies<KeptMirror<F>>>(
    alloc: Global,
    image: &[u8],
    script: &[u8],
    file: F,
    out: &mut T,
) -> (F, Result<Option<Fault>, CommandFault>)
    // if it is known what the file keeps, it is this image
    requires agrees { Agrees (F.keeps.kept file) (sectors_in image.now) }
    ensures run { IsPlayRun F.keeps T.output image.now script.now file result.0 out.old out.new result.1 }
{
    let (left, end) = play_file(alloc, image, script, file, out);
    match end {
        Ok(()) => (left, Ok(None)),
        Err(fault) => (left, Err(fault)),
    }
}
