//! Replies, printed on standard output.
ghost use Rattle.std.specs.Prelude.{◌≡◌, ◌≢◌, ◌≤◌, ◌+◌, ◌++◌, ◌∷◌, [], ℕ, IfErr, OnOk, Some, length, take};
ghost use Rattle.one_host.specs.declared.parts.Failure.{Failure};
ghost use Rattle.served_lines.specs.declared.faults.ServiceFault.TheVariants.{Host as OfHost, Open as OfOpening};
ghost use Rattle.host_session.specs.declared.faults.OpenFault.{OpenFault};
ghost use Rattle.one_host.specs.History.{HeldOnly, Known, Until, Since};
ghost use Rattle.request_cards.specs.Ledgers.{report};
ghost use Rattle.served_lines.specs.Printings.{OnlySaid, has_said};

use crate::faults::ServiceFault;
use one_host::{Host, Stream};
use request_cards::Reply;

/// How many bytes the line of a reply has at most.
const LINE_BYTES: usize = 44;

/// How many bytes 512 of them have.
pub(crate) const TEXT_BYTES: usize = 512 * LINE_BYTES;

/// Writes the line of a reply into a text from that place on. Returns the place after it.
fn write_reply(reply: &Reply, text: &mut [u8], at: usize) -> usize
    requires room { at + 44 ≤ length text.old }
    ensures more { result ≤ at + 44 }
    ensures line { take result text.new ≡ take at text.old ++ report (reply.now ∷ []) }
    ensures sized { length text.new ≡ length text.old }
{
    let mut room = [b'\n'; LINE_BYTES];
    let start = reply.write(&mut room, LINE_BYTES - 1);
    let line = &room[start..];
    text[at..at + line.len()].copy_from_slice(line);
    at + line.len()
}

/// Writes these replies into a text, each on a line of its own. Returns how many bytes they take. There is room for 512 of them.
pub(crate) fn write_replies(replies: &[Reply], text: &mut [u8]) -> usize
    requires room { length text.old ≡ 22528 }
    ensures within { result ≤ length text.new }
    ensures sized { length text.new ≡ 22528 }
    ensures report { length replies.now ≤ 512 → take result text.new ≡ report replies.now }
{
    let mut at = 0;
    for reply in replies {
        if text.len() - at < LINE_BYTES {
            return at;
        }
        at = write_reply(reply, text, at);
    }
    at
}

/// Prints a text whole.
pub(crate) fn print_whole<H: Host>(host: &mut H, text: &[u8]) -> Result<(), ServiceFault>
    ensures any_moment { Known H.history → (n : ℕ) → n ≤ (H.history.world host.old).hands
        → HeldOnly H.history host.old host.new (Until n (OnlySaid (H.history.world host.old) text.now)) }
    ensures ok { Known H.history → (n : ℕ) → n ≤ (H.history.world host.old).hands
        → OnOk result (Since n (λ w. w ≡ has_said (H.history.world host.old) text.now) (H.history.world host.new)) }
    ensures told { Known H.history → IfErr result (λ e. (f : Failure) → e ≡ OfHost f → H.history.failed host.new ≡ Some f) }
    ensures opened { IfErr result (λ e. (f : OpenFault) → e ≢ OfOpening f) }
{
    let mut at = 0;
    while at < text.len() {
        let count = match host.print(Stream::Output, &text[at..]) {
            Ok(count) => count,
            Err(failure) => return Err(ServiceFault::Host(failure)),
        };
        if count == 0 {
            return Err(ServiceFault::NotTaken);
        }
        at += count;
    }
    Ok(())
}
