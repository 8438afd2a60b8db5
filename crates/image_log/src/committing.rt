//! The blocks of a commit, written after those of a log and synced.
ghost use Rattle.std.specs.Prelude.{◌≡◌, ◌+◌, ◌≤◌, IfOk, List, None, OnErr, ℕ, length, true};
ghost use Rattle.image_log.specs.Blocks.{brought};
ghost use Rattle.image_log.specs.Files.{LeavesOnly, Rests};
ghost use Rattle.image_log.specs.Recovered.{IsAppended, IsLog, IsTorn, recovered};

use crate::appending::append;
use crate::blocks::BLOCK;
use crate::filling::fill;
use crate::log_file::LogFile;
use std::io;

/// Makes the blocks of a commit in the room, writes them after the file's first `end` blocks, and syncs. Returns their
/// number. After an error the caller stops.
pub(crate) fn append_commit<F: LogFile>(
    file: &mut F,
    room: &mut [[u8; 4096]],
    end: usize,
    now: &[[u8; 256]],
    touched: &[bool; 683],
) -> io::Result<usize>
    requires room { length room.old ≡ 46 }
    requires sized { length now.now ≡ 683 }
    requires fits { end + 46 ≤ 1024 }
    ensures room { length room.new ≡ 46 }
    ensures few { IfOk result (λ n. n ≤ 46) }
    ensures moments { (f : List ℕ) → Rests F.history file.old f → IsLog f end → LeavesOnly F.history file.old file.new
        (IsTorn f end (brought touched.now now.now 683 (recovered f))) }
    ensures ok { IfOk result (λ n. (f : List ℕ) → Rests F.history file.old f → IsLog f end
        → IsAppended F.history file.new f end n (brought touched.now now.now 683 (recovered f))) }
    ensures unknown { F.history.held file.old ≡ None → F.history.held file.new ≡ None }
    ensures failed { OnErr result (F.history.has_failed file.new ≡ true) }
{
    let n = fill(room, now, touched, end);
    append(file, BLOCK * end, room[..n].as_flattened())?;
    Ok(n)
}
