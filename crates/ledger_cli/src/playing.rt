//! Scripts played on the shop of an image, whose replies go to any writer.
ghost use Rattle.std.specs.Prelude.{◌≡◌, ◌≢◌, IfErr, OnOk};
ghost use Rattle.d64_image.specs.Keeps.{Agrees};
ghost use Rattle.d64_image.specs.Memory.{sectors_in};
ghost use Rattle.host_session.specs.events.Telling.{TellsNone};
ghost use Rattle.host_session.specs.runs.Outputs.{written};
ghost use Rattle.host_session.specs.shop.Shop.{IsShop, Shop};
ghost use Rattle.shop_commands.specs.Faults.{script_fault};
ghost use Rattle.shop_commands.specs.Plays.{IsFileFault, IsPlayEnd, IsPlayedFile};
ghost use Rattle.shop_jobs.specs.Runs.{IsPlayRun};

use command_faults::{CommandFault, file_of, load};
use d64_image::{KeptMirror, SectorFile, Sectors};
use disk_layout::Fault;
use host_session::{ScriptFault, run_script};
use shop_commands::of_script;
use std::alloc::Global;
use std::io::{self, Write};

/// Flushes a writer. Its replies stay written.
fn hand_on<W: Write>(out: &mut W) -> io::Result<()>
    ensures { TellsNone (written W.contents) out.old out.new }
{
    out.flush()
}

/// The outcome of a run that this fault ended. Replies that were written before it are handed on.
fn told<W: Write>(fault: ScriptFault, out: &mut W) -> CommandFault
    ensures value { result ≡ script_fault fault }
    ensures silent { (fault ≢ ScriptFault.Output) → (fault ≢ ScriptFault.Device) → out.new ≡ out.old }
    ensures told { TellsNone (written W.contents) out.old out.new }
{
    if matches!(fault, ScriptFault::Output | ScriptFault::Device) {
        // the fault is reported, whatever comes of this
        let _ = hand_on(out);
        return of_script(fault);
    }
    of_script(fault)
}

/// Plays the lines of a script on the shop of a disk, and writes the reply to each before the next is played. What was
/// written is handed on at the end. The disk is handed back.
fn play_lines<D: Sectors, W: Write>(
    disk: D,
    script: &[u8],
    out: &mut W,
) -> Result<D, (CommandFault, D)>
    ensures { IsPlayEnd D.history (written W.contents) disk script.now out.old out.new result }
{
    match run_script(disk, script, out) {
        Ok(left) => match hand_on(out) {
            Ok(()) => Ok(left),
            Err(_) => Err((CommandFault::File, left)),
        },
        Err((fault, left)) => Err((told(fault, out), left)),
    }
}

/// Plays the script on the shop of an image, over the file that keeps the image, which is handed back.
fn play_over<F: SectorFile, W: Write>(
    alloc: Global,
    image: &[u8],
    script: &[u8],
    file: F,
    out: &mut W,
) -> (F, Result<(), CommandFault>)
    requires agrees { Agrees (F.keeps.kept file) (sectors_in image.now) }
    ensures ok { OnOk result.1
        (IsPlayedFile F.keeps (written W.contents) image.now script.now file result.0 out.old out.new) }
    ensures err { IfErr result.1
        (IsFileFault F.keeps (written W.contents) image.now script.now file result.0 out.old out.new) }
{
    let disk = match load(alloc, image) {
        Ok(disk) => disk,
        Err(fault) => return (file, Err(fault)),
    };
    match play_lines(KeptMirror::new(file, disk), script, out) {
        Ok(mirror) => file_of(mirror, Ok(())),
        Err((fault, mirror)) => file_of(mirror, Err(fault)),
    }
}

/// Plays a script on the shop of the image that the file keeps, and hands the file back. `Device` if the file failed,
/// `File` if the output did.
pub(crate) fn play_written<F: SectorFile, W: Write>(
    alloc: Global,
    image: &[u8],
    script: &[u8],
    file: F,
    out: &mut W,
) -> (F, Result<Option<Fault>, CommandFault>)
    // if it is known what the file keeps, it is this image
    requires agrees { Agrees (F.keeps.kept file) (sectors_in image.now) }
    ensures run { IsPlayRun F.keeps (written W.contents) image.now script.now file result.0 out.old out.new result.1 }
    ensures reached { (s : Shop) → IsShop (sectors_in image.now) s → F.keeps.reached file result.0 }
{
    let (left, end) = play_over(alloc, image, script, file, out);
    match end {
        Ok(()) => (left, Ok(None)),
        Err(fault) => (left, Err(fault)),
    }
}
