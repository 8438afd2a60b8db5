//! The bytes of the files that a job reads.
ghost use Rattle.std.specs.Prelude.{◌≡◌, IfOk, IfSome, take, vec_items};

use d64_image::IMAGE_BYTES;
use std::alloc::Global;
use std::io::{self, Read};

/// How many bytes of an image are read: one more than a disk has, which is enough to see that there are too
/// many.
const MOST_READ: u64 = IMAGE_BYTES as u64 + 1;

/// How many bytes a script may have, or another text: 16 MiB.
pub const MOST_SCRIPT: usize = 16 << 20;

/// The bytes of a script: all that the reader has left. Its error if reading failed, or if there was no memory for them;
/// `FileTooLarge` if there are more than 16 MiB. `room` is how many bytes memory is taken for at once: any number will do,
/// and with one more than the file has it need not grow.
pub fn read_script<R: Read + Drop>(alloc: Global, reader: R, room: usize) -> io::Result<Vec<u8>>
    ensures { IfOk result (λ bytes. IfSome (R.remaining reader) (λ all. vec_items bytes ≡ all)) }
{
    let mut front = reader.take(MOST_SCRIPT as u64 + 1);
    let mut bytes = Vec::with_capacity(alloc, room.min(MOST_SCRIPT + 1))?;
    front.read_to_end(&mut bytes)?;
    if bytes.len() > MOST_SCRIPT {
        return Err(io::ErrorKind::FileTooLarge.into());
    }
    Ok(bytes)
}

/// The bytes of an image: the first 174,849 that the reader has left, or all of them if there are fewer. Its error if
/// reading failed, or if there was no memory for them.
pub fn read_image<R: Read + Drop>(alloc: Global, reader: R) -> io::Result<Vec<u8>>
    ensures { IfOk result (λ bytes. IfSome (R.remaining reader)
        (λ all. vec_items bytes ≡ take 174849 all)) }
{
    read_script(alloc, reader.take(MOST_READ), MOST_READ as usize)
}
