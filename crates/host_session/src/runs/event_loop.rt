//! One loop for all runs.
ghost use Rattle.std.specs.Prelude.{◌≡◌, ◌<◌, IsSome, false};
ghost use Rattle.host_session.specs.runs.Loops.{Ends, HasCome, HasComeBut, IsRun, IsStretch, Origin, with_disk};

use crate::events::cuts::{cut_event, is_media};
use crate::events::sinks::Replies;
use crate::events::sources::{EventSource, Next};
use crate::faults::OpenFault;
use crate::session::Session;
use d64_image::Sectors;
use request_cards::Reply;

/// Why a run ended before its last event.
#[derive(Clone, Copy, Debug, PartialEq, Eq)]
pub enum LoopFault {
    /// The disk wasn't opened, and no event was taken.
    Open(OpenFault),
    /// The input failed. All events that it gave were run.
    Input,
    /// The reply to the last event wasn't taken whole. The event was run.
    Output,
    /// The device failed in the last event, whose reply is MEDIA, or in the whole recovery after a cut one.
    Device,
}

/// The end of a stretch of whole messages.
enum Stopped {
    /// Power fails in the event that was taken last, which isn't handled yet.
    Cut,
    /// The run is over.
    Ended(Result<(), LoopFault>),
}

/// Handles messages up to the next event with a reset, and passes each reply on before the next event is taken.
fn whole_messages<D: Sectors, A: EventSource<D>, T: Replies<D>>(
    session: &mut Session<D>,
    asks: &mut A,
    out: &mut T,
) -> Stopped
    ensures way { (from : Origin D A T) → HasCome D.history A.source T.output from session.old.disk asks.old out.old
        → session.old.dead ≡ false
        → IsStretch D.history A.source T.output from session.new asks.new out.new result }
    ensures cut { result ≡ Stopped.Cut → IsSome (A.source.here asks.new).cut_after
        × (A.source.fuel asks.new < A.source.fuel asks.old) }
{
    loop {
        match asks.next(session.disk()) {
            Next::Event => {}
            Next::End => return Stopped::Ended(Ok(())),
            Next::Failed => return Stopped::Ended(Err(LoopFault::Input)),
        }
        if asks.cut().is_some() {
            return Stopped::Cut;
        }
        let reply = session.handle(asks.message());
        let taken = out.tell(&reply, session.disk());
        if is_media(reply) {
            return Stopped::Ended(Err(LoopFault::Device));
        }
        if taken.is_err() {
            return Stopped::Ended(Err(LoopFault::Output));
        }
    }
}

/// The end of a run, with its disk.
fn ended<D>(disk: D, end: Result<(), LoopFault>) -> Result<D, (LoopFault, D)>
    ensures { result ≡ with_disk disk end }
{
    match end {
        Ok(()) => Ok(disk),
        Err(fault) => Err((fault, disk)),
    }
}

/// The run from an event with a reset on, which was taken and isn't handled yet.
// Out of line: a run without a reset doesn't use these sessions.
#[inline(never)]
fn run_on<D: Sectors, A: EventSource<D>, T: Replies<D>>(
    session: Session<D>,
    asks: &mut A,
    out: &mut T,
) -> Result<D, (LoopFault, D)>
    requires { IsSome (A.source.here asks.old).cut_after }
    ensures { (from : Origin D A T) → HasComeBut D.history A.source T.output from session.disk asks.old out.old
        → session.dead ≡ false → Ends D.history A.source T.output from asks.new out.new result }
{
    let mut session = session;
    loop {
        let cut = asks.cut().unwrap();
        session = match cut_event(session, asks.message(), cut) {
            Ok(next) => next,
            Err(disk) => {
                // the device failed, whether the reply is taken or not
                let _ = out.tell(&Reply::Cut, &disk);
                return Err((LoopFault::Device, disk));
            }
        };
        if out.tell(&Reply::Cut, session.disk()).is_err() {
            return Err((LoopFault::Output, session.close()));
        }
        match whole_messages(&mut session, asks, out) {
            Stopped::Cut => {}
            Stopped::Ended(end) => return ended(session.close(), end),
        }
    }
}

/// Runs the events one after another on a disk that is opened first, and passes each reply on before the next event is
/// taken. The clauses of `IsRun` say what it does. docs/EMBED.md says how much stack it takes.
pub fn run<D: Sectors, A: EventSource<D>, T: Replies<D>>(
    disk: D,
    asks: &mut A,
    out: &mut T,
) -> Result<D, (LoopFault, D)>
    ensures { IsRun D.history A.source T.output disk asks.old asks.new out.old out.new result }
{
    let mut session = match Session::open(disk) {
        Ok(session) => session,
        Err((fault, disk)) => return Err((LoopFault::Open(fault), disk)),
    };
    match whole_messages(&mut session, asks, out) {
        Stopped::Cut => run_on(session, asks, out),
        Stopped::Ended(end) => ended(session.close(), end),
    }
}
