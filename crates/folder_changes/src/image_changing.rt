//! The image in a folder, changed.
ghost use Rattle.std.specs.Prelude.{◌≡◌, ◌≢◌, Err, IfErr, IfOk, None, OnErr, OnOk, length, true};
ghost use Rattle.std.specs.Io.KnownBytes.{Appends};
ghost use Rattle.command_faults.specs.Outputs.{HandsPart};
ghost use Rattle.command_faults.specs.declared.faults.CommandFault.TheVariants as faults;
ghost use Rattle.d64_image.specs.Memory.{disk_image, sectors_in};
ghost use Rattle.disk_changes.specs.Changes.{IsFit};
ghost use Rattle.folder_changes.specs.FolderChanges.{GivesChanged, IsChangeOver, IsChangePrinted, IsUnplaced};
ghost use Rattle.image_log.specs.life.Bringing.{RestsAlone};
ghost use Rattle.image_log.specs.life.Folders.{LeavesFolders};
ghost use Rattle.image_log.specs.life.Replacing.{KeepsOrGives};

use command_faults::{CommandFault, flush, put};
use disk_changes::{Change, Changed, change};
use image_log::{LogFile, LogFolder, LogRoom, ReplaceFault, replace, sectors_of};
use std::alloc::Global;
use std::io::Write;

/// Puts the disk that came of a change in the place of the image, unless it is the same. The only errors are `NoMemory`,
/// and then nothing was done; `File`, if the folder failed before anything of the image was tried; and `Device`, if it failed
/// later.
fn put_in_place<F: LogFile, D: LogFolder<F>>(
    alloc: Global,
    folder: &mut D,
    image: &[u8],
    made: &Changed,
) -> Result<(), CommandFault>
    requires { length image.now ≡ 174848 }
    ensures any_moment { RestsAlone D.history folder.old (sectors_in image.now)
        → LeavesFolders D.history folder.old folder.new
        (KeepsOrGives None (sectors_in image.now) (disk_image made.now.disk)) }
    ensures ok { OnOk result (RestsAlone D.history folder.old (sectors_in image.now)
        → RestsAlone D.history folder.new (disk_image made.now.disk)) }
    ensures err { IfErr result (IsUnplaced D.history image.now folder.old folder.new) }
    ensures cause { IfErr result (λ fault. fault ≢ faults.NoMemory → D.history.has_failed folder.new ≡ true) }
{
    if made.disk.bytes() == image {
        return Ok(());
    }
    let Ok(room) = LogRoom::new(alloc) else {
        return Err(CommandFault::NoMemory);
    };
    match replace(
        folder,
        room,
        sectors_of(image),
        sectors_of(made.disk.bytes()),
    ) {
        Ok(()) => Ok(()),
        Err(ReplaceFault::Unbegun(_)) => Err(CommandFault::File),
        Err(ReplaceFault::Unfinished(_)) => Err(CommandFault::Device),
    }
}

/// Prints the text of a change, and flushes the output. Returns how many sectors the change leaves taken though no file owns
/// them.
fn print<W: Write>(made: &Changed, out: &mut W) -> Result<u16, CommandFault>
    ensures ok { IfOk result (λ left. (left ≡ made.now.left)
        × Appends (W.contents out.old) (W.contents out.new) made.now.text.items) }
    ensures part { OnErr result (HandsPart (W.contents out.old) (W.contents out.new) made.now.text.items) }
    ensures err { IfErr result (λ fault. fault ≡ faults.File) }
{
    put(out, made.text.as_slice())?;
    flush(out)?;
    Ok(made.left)
}

/// Prints what a change to this image would print, and makes none. Returns how many sectors it would leave taken though no
/// file owns them. `File` if the output failed, which has a first part of the text. Any other error refuses the change, and
/// nothing was printed.
pub fn show_change<W: Write>(
    alloc: Global,
    image: &[u8],
    what: &Change<'_>,
    out: &mut W,
) -> Result<u16, CommandFault>
    requires fit { IsFit what.now.kind.now }
    ensures { IsChangePrinted what.now image.now W.contents out.old out.new result }
{
    let made = change(alloc, what, image)?;
    print(&made, out)
}

/// Changes the image in a folder, all or nothing, and prints the change's text. Returns how many sectors it leaves taken
/// though no file owns them. `image` has the bytes of IMAGE, which has no log beside it; both are synced, as `land` leaves
/// them. A power loss at any moment, and an error, leave a folder that gives this image, or the one with the change.
///
/// `Device` if the folder or its log's file failed: nothing was printed. `File` if they failed before anything of IMAGE was
/// tried: it is as it was, and nothing was printed. `File` also if the output failed, which has a first part of the text: the
/// image is changed. Any other error refuses the change: nothing was written or printed.
pub fn change_image<F: LogFile, D: LogFolder<F>, W: Write>(
    alloc: Global,
    folder: &mut D,
    image: &[u8],
    what: &Change<'_>,
    out: &mut W,
) -> Result<u16, CommandFault>
    requires fit { IsFit what.now.kind.now }
    ensures run { IsChangeOver D.history what.now image.now folder.old folder.new W.contents out.old out.new result }
    ensures any_moment { RestsAlone D.history folder.old (sectors_in image.now)
        → LeavesFolders D.history folder.old folder.new (GivesChanged what.now image.now) }
    ensures cause { result ≡ Err faults.Device → D.history.has_failed folder.new ≡ true }
{
    let made = change(alloc, what, image)?;
    put_in_place(alloc, folder, image, &made)?;
    print(&made, out)
}
