//! Bytes that are written over others and synced.
ghost use Rattle.one_host.specs.History.{HeldOnly, Known, Since, Tells, Until};
ghost use Rattle.kept_logs.specs.Files.{Has, Mixes, Takes, bytes_in};
ghost use Rattle.image_log.specs.Files.{overwritten};
ghost use Rattle.std.specs.Prelude.{ℕ, OnOk};

use one_host::{Failure, Handle, Host};

/// Writes these bytes over those of a file from that place on, and syncs it. The file was synced, and they don't reach past its
/// end. At an error a power loss leaves a mix of old and new bytes.
pub(crate) fn append<H: Host>(
    host: &mut H,
    file: Handle,
    at: usize,
    bytes: &[u8],
) -> Result<(), Failure>
    ensures any_moment { Known H.history → (n : ℕ) → Since n (Takes file.number at bytes.now) (H.history.world host.old)
        → HeldOnly H.history host.old host.new (Until n (Mixes (H.history.world host.old) file.number at bytes.now)) }
    ensures ok { Known H.history → (n : ℕ) → Since n (Takes file.number at bytes.now) (H.history.world host.old)
        → OnOk result (Since n (Has (H.history.world host.old) file.number
        (overwritten (bytes_in (H.history.world host.old) file.number) at bytes.now)) (H.history.world host.new)) }
    ensures told { Known H.history → Tells H.history host.old host.new result }
{
    host.write_at(file, at as u64, bytes)?;
    host.sync(file)?;
    Ok(())
}
