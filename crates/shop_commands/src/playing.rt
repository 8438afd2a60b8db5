//! Scripts played on the shop of a disk, and on that of an image over the image's file.
ghost use Rattle.std.specs.Prelude.{◌≡◌, ◌≢◌, IfErr, OnOk};
ghost use Rattle.d64_image.specs.Keeps.{Agrees};
ghost use Rattle.d64_image.specs.Memory.{sectors_in};
ghost use Rattle.host_session.specs.events.Telling.{TellsNone};
ghost use Rattle.shop_commands.specs.Faults.{script_fault};
ghost use Rattle.shop_commands.specs.Plays.{IsFileFault, IsPlayEnd, IsPlayedFile};

use crate::faults::of_script;
use command_faults::{CommandFault, file_of, load};
use d64_image::{KeptMirror, SectorFile, Sectors};
use host_session::{Replies, ScriptFault, play_script};
use std::alloc::Global;

/// The outcome of a run that this fault ended. Replies that were passed before it are handed on.
fn told<D: Sectors, T: Replies<D>>(fault: ScriptFault, out: &mut T) -> CommandFault
    ensures value { result ≡ script_fault fault }
    ensures silent { (fault ≢ ScriptFault.Output) → (fault ≢ ScriptFault.Device) → out.new ≡ out.old }
    ensures told { TellsNone T.output out.old out.new }
{
    match fault {
        ScriptFault::Output | ScriptFault::Device => {
            // the fault is returned, whatever comes of this
            let _ = out.hand_on();
        }
        ScriptFault::Open(_) | ScriptFault::BadLine(_) => {}
    }
    of_script(fault)
}

/// Plays the lines of a script on the shop of a disk, and passes the reply to each before the next is played. What was
/// passed is handed on at the end, also after a fault. The disk is handed back.
///
/// `BadLine`, the first bad line, and the faults of an opening, in its order: nothing was done then. After `File` the
/// output failed; the lines that were played stand. `Device` if the device failed: the last reply is `MEDIA`, or
/// `CUT` if it failed in the recovery.
pub fn play_image<D: Sectors, T: Replies<D>>(
    disk: D,
    script: &[u8],
    out: &mut T,
) -> Result<D, (CommandFault, D)>
    ensures { IsPlayEnd D.history T.output disk script.now out.old out.new result }
{
    match play_script(disk, script, out) {
        Ok(left) => match out.hand_on() {
            Ok(()) => Ok(left),
            Err(_) => Err((CommandFault::File, left)),
        },
        Err((fault, left)) => Err((told::<D, T>(fault, out), left)),
    }
}

/// Plays the lines of a script on the shop of an image, as `play_image` does, over the file that keeps the image. Each
/// sector is handed to the file before memory takes it, and so before its line's reply is passed. The file is handed
/// back.
///
/// `ImageSize`; `NoMemory` if there was none for the disk; `BadLine`, the first bad line; and the faults of an
/// opening, in its order. Nothing was done then. After `File` the output failed; the lines that were played stand.
/// `Device` if the file failed.
// Out of line: a session is large, and a frame that has its room touches each page of it.
#[inline(never)]
pub fn play_file<F: SectorFile, T: Replies<KeptMirror<F>>>(
    alloc: Global,
    image: &[u8],
    script: &[u8],
    file: F,
    out: &mut T,
) -> (F, Result<(), CommandFault>)
    // if it is known what the file keeps, it is this image
    requires agrees { Agrees (F.keeps.kept file) (sectors_in image.now) }
    ensures ok { OnOk result.1 (IsPlayedFile F.keeps T.output image.now script.now file result.0 out.old out.new) }
    ensures err { IfErr result.1 (IsFileFault F.keeps T.output image.now script.now file result.0 out.old out.new) }
{
    let disk = match load(alloc, image) {
        Ok(disk) => disk,
        Err(fault) => return (file, Err(fault)),
    };
    match play_image(KeptMirror::new(file, disk), script, out) {
        Ok(mirror) => file_of(mirror, Ok(())),
        Err((fault, mirror)) => file_of(mirror, Err(fault)),
    }
}
