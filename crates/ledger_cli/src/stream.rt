//! The file of a job, as a file that keeps the sectors of a disk.
ghost use Rattle.std.specs.Prelude.{◌≡◌, IfErr, IfOk, Some};
ghost use Rattle.ledger_cli.specs.Streams.{IsBegun, WhyUnbegun, stream_file};

use command_faults::{CommandFault, load};
use d64_image::{DeviceAsFile, Mirror};
use std::alloc::Global;
use std::io::{Seek, Write};

/// A disk in memory and its file: each sector is handed to the file, at 256 times its index, before memory takes it.
pub(crate) type Stream<F> = DeviceAsFile<Mirror<F>>;

/// The file that holds this image, taken up; it isn't touched. `File` if there is none; `ImageSize`, `NoMemory`. The file
/// is handed back then.
pub(crate) fn begin<F: Write + Seek>(
    alloc: Global,
    image: &[u8],
    file: Option<F>,
) -> Result<Stream<F>, (CommandFault, Option<F>)>
    ensures ok { IfOk result (λ stream. IsBegun image.now stream × (file ≡ Some (stream_file stream))) }
    ensures err { IfErr result (λ e. (e.1 ≡ file) × WhyUnbegun image.now file e.0) }
{
    let Some(file) = file else {
        return Err((CommandFault::File, None));
    };
    match load(alloc, image) {
        Ok(disk) => Ok(DeviceAsFile::new(Mirror::new(file, disk))),
        Err(fault) => Err((fault, Some(file))),
    }
}

/// The file, handed back.
pub(crate) fn file_of<F: Write + Seek + Drop>(stream: Stream<F>) -> Option<F>
    ensures { result ≡ Some (stream_file stream) }
{
    let (file, _) = stream.into_inner().into_inner();
    Some(file)
}
