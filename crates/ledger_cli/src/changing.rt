//! Jobs that make an image or run its shop, over its file.
ghost use Rattle.std.specs.Prelude.{◌≤◌, length};
ghost use Rattle.ledger_cli.specs.Runs.{IsCopyJob, IsFormatted, IsNewMade, IsPlayed};
ghost use Rattle.file_changes.specs.Names.{name_bytes};

use crate::making::{copy_image, make_disk, make_image};
use crate::playing::play_written;
use crate::stream::{begin, file_of};
use command_faults::CommandFault;
use disk_layout::Fault;
use file_changes::Name;
use opened_files::run_end;
use std::alloc::Global;
use std::io::{Seek, Write};

/// How a job ended.
pub(crate) type Ended = Result<Option<Fault>, CommandFault>;

/// Makes the file the image of an empty shop.
pub(crate) fn format<F: Write + Seek + Drop, W: Write>(
    alloc: Global,
    tills: u8,
    file: Option<F>,
    out: &mut W,
) -> (Option<F>, Ended)
    requires some { 1 ≤ tills }
    requires few { tills ≤ 64 }
    ensures { IsFormatted F.stream_position F.stream_bytes F.contents W.contents tills file result.0
        out.old out.new result.1 }
{
    let Some(mut file) = file else {
        return (None, Err(CommandFault::File));
    };
    let ended = make_image(alloc, tills, &mut file, out);
    (Some(file), run_end(ended))
}

/// Makes the file the image of an empty disk.
pub(crate) fn begin_disk<F: Write + Seek + Drop, W: Write>(
    alloc: Global,
    name: &Name,
    id: [u8; 2],
    file: Option<F>,
    out: &mut W,
) -> (Option<F>, Ended)
    requires name { length (name_bytes name.now) ≤ 16 }
    ensures { IsNewMade F.stream_position F.stream_bytes F.contents W.contents (name_bytes name.now) id file result.0
        out.old out.new result.1 }
{
    let Some(mut file) = file else {
        return (None, Err(CommandFault::File));
    };
    let ended = make_disk(alloc, name.as_bytes(), id, &mut file, out);
    (Some(file), run_end(ended))
}

/// Copies the image to the file.
pub(crate) fn copy<F: Write + Seek + Drop, W: Write>(
    image: &[u8],
    file: Option<F>,
    out: &mut W,
) -> (Option<F>, Ended)
    ensures { IsCopyJob F.stream_position F.stream_bytes F.contents W.contents image.now file result.0
        out.old out.new result.1 }
{
    let Some(mut file) = file else {
        return (None, Err(CommandFault::File));
    };
    let ended = copy_image(image, &mut file, out);
    (Some(file), run_end(ended))
}

/// Plays a script on the image, over its file.
pub(crate) fn play<F: Write + Seek + Drop, W: Write>(
    alloc: Global,
    image: &[u8],
    script: &[u8],
    file: Option<F>,
    out: &mut W,
) -> (Option<F>, Ended)
    ensures { IsPlayed F.stream_position F.stream_bytes F.contents W.contents image.now script.now file result.0
        out.old out.new result.1 }
{
    match begin(alloc, image, file) {
        Ok(stream) => {
            let (stream, ended) = play_written(alloc, image, script, stream, out);
            (file_of(stream), ended)
        }
        Err((fault, file)) => (file, Err(fault)),
    }
}
