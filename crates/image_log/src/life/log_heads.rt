//! How a log begins.
ghost use Rattle.std.specs.Prelude.{◌≡◌};
ghost use Rattle.image_log.specs.life.LogHeads.{begins_as_log as begins};

use std::io::{self, Read};

/// The bytes of a log from the tenth to the 63rd: its first block is one of a base's 46, and has the first 15 sectors.
const LOG_HEAD: [u8; 54] = [
    1, 15, 0, 0, 0, 0, 0, 0, 1, 0, 2, 0, 3, 0, 4, 0, 5, 0, 6, 0, 7, 0, 8, 0, 9, 0, 10, 0, 11, 0,
    12, 0, 13, 0, 14, 0, 0, 0, 0, 0, 0, 0, 0, 0, 0, 0, 0, 0, 0, 0, 0, 0, 0, 0,
];

/// Whether a file with these first bytes begins as a log does.
pub(crate) fn begins_as_log(head: &[u8; 64]) -> bool
    ensures { result ≡ begins head.now }
{
    head[10..64] == LOG_HEAD[..54]
}

/// The first 64 bytes of a file of which nothing was read.
pub(crate) fn head_of<F: Read>(file: &mut F) -> io::Result<[u8; 64]> {
    let mut head = [0; 64];
    file.read_exact(&mut head)?;
    Ok(head)
}
