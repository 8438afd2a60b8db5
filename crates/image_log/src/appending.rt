//! Bytes that are written over others and synced.
ghost use Rattle.std.specs.Prelude.{◌≡◌, ◌+◌, ◌≤◌, List, None, OnErr, ℕ, length, true};
ghost use Rattle.image_log.specs.Files.{BringsBytes, Rests};

use crate::log_file::LogFile;
use std::io;

/// Writes these bytes over those from that place on, and syncs the file. At an error the caller stops.
pub(crate) fn append<F: LogFile>(file: &mut F, at: usize, bytes: &[u8]) -> io::Result<()>
    // a file at rest, in which these bytes don't reach past the end
    ensures brings { (f : List ℕ) → Rests F.history file.old f → at + length bytes.now ≤ length f
        → BringsBytes F.history file.old file.new at bytes.now f result }
    ensures unknown { F.history.held file.old ≡ None → F.history.held file.new ≡ None }
    ensures failed { OnErr result (F.history.has_failed file.new ≡ true) }
{
    file.write_at(at, bytes)?;
    file.sync()
}
