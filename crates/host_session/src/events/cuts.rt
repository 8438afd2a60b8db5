//! One event of a run: a message, or one in which power fails and the openings after it.
ghost use Rattle.std.specs.Prelude.{◌≡◌, ◌≤◌, ◌+◌, ◌*◌, ◌↔◌, IfErr, IfOk, IsTrue, false, length};
ghost use Rattle.host_session.specs.Held.{HeldOnly};
ghost use Rattle.host_session.specs.events.Events.{cut_at};
ghost use Rattle.host_session.specs.events.OneEvent.{EndsFailed, GoesOn, IsEvent, Leaves};
ghost use Rattle.host_session.specs.events.Within.{IsWithinMost, SparesTheDisk};
ghost use Rattle.host_session.specs.session.Handling.{IsMedia};
ghost use Rattle.host_session.specs.session.Opening.{Untouched};
ghost use Rattle.host_session.specs.shop.Shop.{IsSettled, IsShop, Shop};

use crate::session::Session;
use d64_image::{Fuse, Sectors};
use line_text::Cut;
use request_cards::{Reply, Word};

/// Passes a message to a session whose power fails after this number of writes, and takes the disk back.
fn cut_message<D: Sectors>(session: Session<D>, message: &[u8], after: u32) -> D
    ensures writes { (s : Shop) → IsSettled (D.history.image session.disk) s
        → D.history.writes result ≤ D.history.writes session.disk + after }
    ensures most { (s : Shop) → IsSettled (D.history.image session.disk) s
        → D.history.writes result ≤ D.history.writes session.disk + 3618 }
    ensures event { (s : Shop) → IsSettled (D.history.image session.disk) s → session.dead ≡ false
        → IsEvent D.history s (cut_at message.now after) session.disk result (Leaves D.history s result) }
    ensures spared { session.dead ≡ false → SparesTheDisk D.history (cut_at message.now after) session.disk result }
{
    let mut cut = session.fused(after);
    let _ = cut.handle(message);
    cut.close().into_inner()
}

/// Begins an opening whose power fails after this number of writes, and takes the disk back.
fn cut_opening<D: Sectors>(disk: D, writes: u32) -> D
    ensures moments { (s : Shop) → IsShop (D.history.image disk) s → HeldOnly D.history disk result (λ c. IsShop c s) }
    ensures writes { (s : Shop) → IsShop (D.history.image disk) s
        → D.history.writes result ≤ D.history.writes disk + writes }
    ensures most { (s : Shop) → IsShop (D.history.image disk) s
        → D.history.writes result ≤ D.history.writes disk + 952 }
    ensures later { (s : Shop) → IsShop (D.history.image disk) s → D.history.failures disk ≤ D.history.failures result }
    ensures quiet { (s : Shop) → IsSettled (D.history.image disk) s → Untouched D.history disk result }
{
    match Session::open(Fuse::new(disk, writes)) {
        Ok(session) => session.close().into_inner(),
        Err((_, fuse)) => fuse.into_inner(),
    }
}

/// Cuts each of these openings.
fn cut_openings<D: Sectors>(disk: D, recoveries: &[u32]) -> D
    ensures moments { (s : Shop) → IsShop (D.history.image disk) s → HeldOnly D.history disk result (λ c. IsShop c s) }
    ensures most { (s : Shop) → IsShop (D.history.image disk) s
        → D.history.writes result ≤ D.history.writes disk + 952 * length recoveries.now }
    ensures later { (s : Shop) → IsShop (D.history.image disk) s → D.history.failures disk ≤ D.history.failures result }
    ensures quiet { (s : Shop) → IsSettled (D.history.image disk) s → Untouched D.history disk result }
{
    let mut disk = disk;
    for &writes in recoveries {
        disk = cut_opening(disk, writes);
    }
    disk
}

/// A message in which power fails, the listed recoveries, and a whole recovery. If the whole one failed, Err has the
/// disk.
// Out of line: a run without a reset doesn't use these sessions.
#[inline(never)]
pub(crate) fn cut_event<D: Sectors>(
    session: Session<D>,
    message: &[u8],
    cut: &Cut,
) -> Result<Session<D>, D>
    ensures done { (s : Shop) → IsSettled (D.history.image session.disk) s → session.dead ≡ false
        → IfOk result (λ x. (x.dead ≡ false)
        × IsEvent D.history s (cut_at message.now cut.now.after) session.disk x.disk
        (GoesOn D.history s (cut_at message.now cut.now.after) Reply.Cut x.disk)
        × SparesTheDisk D.history (cut_at message.now cut.now.after) session.disk x.disk
        × IsWithinMost D.history (cut_at message.now cut.now.after) session.disk x.disk) }
    ensures stopped { (s : Shop) → IsSettled (D.history.image session.disk) s → session.dead ≡ false
        → IfErr result (λ d. IsEvent D.history s (cut_at message.now cut.now.after) session.disk d
        (EndsFailed D.history s (cut_at message.now cut.now.after) Reply.Cut d)
        × SparesTheDisk D.history (cut_at message.now cut.now.after) session.disk d
        × IsWithinMost D.history (cut_at message.now cut.now.after) session.disk d) }
{
    let cut_disk = cut_message(session, message, cut.after);
    let disk = cut_openings(cut_disk, cut.recoveries.as_slice());
    match Session::open(disk) {
        Ok(session) => Ok(session),
        Err((_, disk)) => Err(disk),
    }
}

/// Whether the device failed.
pub(crate) fn is_media(reply: Reply) -> bool
    ensures { IsTrue result ↔ IsMedia reply }
{
    matches!(
        reply,
        Reply::Told {
            word: Word::Media,
            ..
        }
    )
}
