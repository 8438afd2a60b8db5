//! A new log's file.
ghost use Rattle.std.specs.Prelude.{◌≡◌, [], List, None, OnErr, OnOk, Some, ℕ, true};
ghost use Rattle.image_log.specs.Files.{Rests};
ghost use Rattle.image_log.specs.Recovered.{IsLog};

use crate::blocks::BLOCK;
use crate::log::LOG_BYTES;
use crate::log_file::LogFile;
use std::io;

/// How many bytes are written at once, and how often: 25 blocks, of which a log has 41 times as many.
const PART: usize = BLOCK * 25;

const PARTS: usize = LOG_BYTES / PART;

/// Fills an empty file with zeros, room for all blocks and the mark's, and syncs it. Its length is synced first: so a kill
/// or a power loss leaves a file that is empty or as long as a log, whatever stands in it.
pub(crate) fn lay_out<F: LogFile>(file: &mut F) -> io::Result<()>
    ensures laid { OnOk result (F.history.held file.old ≡ Some [] → (f : List ℕ) × Rests F.history file.new f × IsLog f 0) }
    ensures unknown { F.history.held file.old ≡ None → F.history.held file.new ≡ None }
    ensures failed { OnErr result (F.history.has_failed file.new ≡ true) }
{
    file.lengthen(LOG_BYTES)?;
    file.sync()?;
    let zeros = [0; PART];
    for k in 0..PARTS {
        file.write_at(PART * k, &zeros)?;
    }
    file.sync()
}
