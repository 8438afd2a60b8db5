//! A new log's file.
ghost use Rattle.std.specs.Prelude.{ℕ, OnOk};
ghost use Rattle.one_host.specs.History.{HeldOnly, Known, Since, Tells, Until};
ghost use Rattle.kept_logs.specs.Files.{IsEmpty, IsLaidOut, OnlyFile};

use image_log::{BLOCK, BLOCKS};
use one_host::{Failure, Handle, Host};

/// How many bytes are written at once, and how often: 25 blocks, of which a log has 41 times as many.
const PART: usize = BLOCK * 25;

const PARTS: usize = BLOCK * (BLOCKS + 1) / PART;

/// Fills an empty file with zeros, room for all blocks and the mark's, and syncs it. Its length is synced first: so a kill
/// or a power loss leaves a file that is empty or as long as a log, whatever stands in it.
pub(crate) fn lay_out<H: Host>(host: &mut H, file: Handle) -> Result<(), Failure>
    ensures any_moment { Known H.history → (n : ℕ) → Since n (IsEmpty file.number) (H.history.world host.old)
        → HeldOnly H.history host.old host.new (Until n (OnlyFile (H.history.world host.old) file.number)) }
    ensures ok { Known H.history → (n : ℕ) → Since n (IsEmpty file.number) (H.history.world host.old)
        → OnOk result (Since n (IsLaidOut (H.history.world host.old) file.number) (H.history.world host.new)) }
    ensures told { Known H.history → Tells H.history host.old host.new result }
{
    host.set_size(file, (PART * PARTS) as u64)?;
    host.sync(file)?;
    let zeros = [0; PART];
    for k in 0..PARTS {
        host.write_at(file, (PART * k) as u64, &zeros)?;
    }
    host.sync(file)?;
    Ok(())
}
