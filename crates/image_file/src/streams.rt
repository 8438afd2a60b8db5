//! The standard streams that were closed when the program started.
ghost use Rattle.std.specs.Prelude.{◌≡◌, ℤ, IfOk, IfSome, Option, pos};
ghost use Rattle.image_file.specs.Streams.{AreStreams, IsAt};

use std::fs::{File, OpenOptions};
use std::io;
use std::os::fd::AsRawFd;
use std::rt::Files;

/// A file that can always be read and written, and is always empty.
const NOTHING: &str = "/dev/null";

/// The files that stand in for standard streams that were closed when the program started: reading standard input then
/// fails, and so does writing to the outputs. Without them the next file that is opened would take a closed stream's
/// number, and output would be written to it. The program holds them until it ends.
#[derive(Drop)]
pub struct ClosedStreams<F> {
    input: Option<F>,
    output: Option<F>,
    errors: Option<F>,
}

/// The file, if its number is this stream's.
fn if_stream<F: AsRawFd + Drop>(file: F, stream: i32) -> Option<F>
    ensures { IfSome result (IsAt F.raw_fd stream) }
{
    if file.as_raw_fd() == stream {
        return Some(file);
    }
    None
}

impl<F: AsRawFd + Drop> ClosedStreams<F> {
    /// Opens `/dev/null` in the place of each closed stream: standard input only for writing, an output only for reading.
    /// The system gives a file the lowest number that is free. So if the file gets another number than
    /// the stream's, the stream is open, and the file is closed again. An error if `/dev/null` can't be opened.
    pub fn hold<R: Files<File = F>>(rt: &R) -> io::Result<ClosedStreams<F>>
        ensures { IfOk result (AreStreams F.raw_fd) }
    {
        let input = OpenOptions::new().write(true).open(rt, NOTHING)?;
        let input = if_stream(input, 0);
        let output = if_stream(File::open(rt, NOTHING)?, 1);
        let errors = if_stream(File::open(rt, NOTHING)?, 2);
        Ok(ClosedStreams {
            input,
            output,
            errors,
        })
    }
}
