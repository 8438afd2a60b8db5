//! A change of an image, over the image's bytes and any file that is written and sought.
ghost use Rattle.disk_changes.specs.Changes.{IsChanged, IsFit, IsRefused};
ghost use Rattle.ledger_cli.specs.Changed.{IsChangeJob, IsChangeMade, IsChangeWritten};

use crate::changing::Ended;
use crate::making::write_over;
use command_faults::CommandFault;
use disk_changes::{Change, change};
use folder_changes::show_change;
use image_edits::{Effect, change_end};
use shop_commands::print_whole;
use std::alloc::Global;
use std::io::{Seek, Write};

/// Changes the image, writes what comes of it over what the file holds, and prints the change's text. Returns how many
/// sectors stay taken though no file owns them. A refusal leaves file and output as they were. `Device` if the file failed,
/// which has a prefix of the writes then and isn't a sound disk's; `File` if the output failed, and the file has the
/// changed image.
fn write_changed<F: Write + Seek, W: Write>(
    alloc: Global,
    image: &[u8],
    what: &Change<'_>,
    file: &mut F,
    out: &mut W,
) -> Result<u16, CommandFault>
    requires fit { IsFit what.now.kind.now }
    ensures { IsChangeWritten F.stream_position F.stream_bytes F.contents W.contents (IsChanged what.now image.now)
        (IsRefused what.now image.now) file.old file.new out.old out.new result }
{
    let made = change(alloc, what, image)?;
    if write_over(file, made.disk.bytes()).is_err() {
        return Err(CommandFault::Device);
    }
    match print_whole(out, made.text.as_slice()) {
        Ok(()) => Ok(made.left),
        Err(_) => Err(CommandFault::File),
    }
}

/// Does what `write_changed` does over the file of a job. `File` if there is none.
fn change_made<F: Write + Seek + Drop, W: Write>(
    alloc: Global,
    image: &[u8],
    what: &Change<'_>,
    file: Option<F>,
    out: &mut W,
) -> (Option<F>, Ended)
    requires fit { IsFit what.now.kind.now }
    ensures { IsChangeMade F.stream_position F.stream_bytes F.contents W.contents (IsChanged what.now image.now)
        (IsRefused what.now image.now) file result.0 out.old out.new result.1 }
{
    let Some(mut file) = file else {
        return (None, Err(CommandFault::File));
    };
    let ended = write_changed(alloc, image, what, &mut file, out);
    (Some(file), change_end(ended))
}

/// Changes the image over the file of a job, or only prints what that would print.
pub(crate) fn change_over<F: Write + Seek + Drop, W: Write>(
    alloc: Global,
    image: &[u8],
    what: &Change<'_>,
    effect: Effect,
    file: Option<F>,
    out: &mut W,
) -> (Option<F>, Ended)
    requires fit { IsFit what.now.kind.now }
    ensures { IsChangeJob F.stream_position F.stream_bytes F.contents W.contents effect (IsChanged what.now image.now)
        (IsRefused what.now image.now) file result.0 out.old out.new result.1 }
{
    match effect {
        Effect::Written => change_made(alloc, image, what, file, out),
        Effect::Printed => (file, change_end(show_change(alloc, image, what, out))),
    }
}
