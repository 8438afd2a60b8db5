//! Runs of events.
ghost use Rattle.std.specs.Prelude.{◌≡◌, map, vec_capacity};
ghost use Rattle.host_session.specs.events.Events.{message_of};
ghost use Rattle.host_session.specs.runs.Faults.{play_fault_of, play_number};
ghost use Rattle.host_session.specs.runs.EventPlays.{PlaysEvents};

use crate::events::sources::EventList;
use crate::faults::OpenFault;
use crate::runs::event_loop::{LoopFault, run};
use d64_image::Sectors;
use line_text::Event;
use request_cards::Reply;
use thiserror::Error;

/// Why not all events were played.
#[derive(Clone, Copy, Debug, PartialEq, Eq, Error)]
pub enum PlayFault {
    /// The disk wasn't opened, and no event was played.
    #[error("{0}")]
    Open(OpenFault),
    /// There was no memory for all replies: nothing was done.
    #[error("NO MEMORY")]
    NoMemory,
    /// The device failed in a message, whose reply is MEDIA, or in the whole recovery after a cut one.
    #[error("DEVICE")]
    Device,
}

impl PlayFault {
    /// The fault's number: 1 Open, 2 NoMemory, 3 Device.
    pub fn number(self) -> u8
        ensures { result ≡ play_number self }
    {
        match self {
            PlayFault::Open(_) => 1,
            PlayFault::NoMemory => 2,
            PlayFault::Device => 3,
        }
    }
}

/// The fault that is returned for events whose run this fault ended. All events, and room for their replies, are there.
fn fault_of(fault: LoopFault) -> PlayFault
    ensures { result ≡ play_fault_of fault }
{
    match fault {
        LoopFault::Open(fault) => PlayFault::Open(fault),
        LoopFault::Device | LoopFault::Input | LoopFault::Output => PlayFault::Device,
    }
}

/// Plays the events one after another, on a disk that is opened first.
///
/// A message without a reset is handled, and its reply is the session's. In a message with a reset, power fails after
/// the given number of its sector writes. Then each listed recovery is stopped after its writes, a whole one follows,
/// and the reply is `Cut`. The replies are appended to the list.
///
/// `play` stops after a message with the reply MEDIA, and after a whole recovery that failed; the list has the replies
/// to both. docs/EMBED.md says how much stack a play takes.
pub fn play<D: Sectors>(
    disk: D,
    events: &[Event<'_>],
    replies: &mut Vec<Reply>,
) -> Result<D, (PlayFault, D)>
    ensures { PlaysEvents D.history (map message_of events.now) disk
        (vec_capacity replies.old) replies.old.items replies.new.items result }
{
    match replies.try_reserve(events.len()) {
        Ok(()) => {}
        Err(_) => return Err((PlayFault::NoMemory, disk)),
    }
    let mut asks = EventList::new(events);
    match run(disk, &mut asks, replies) {
        Ok(disk) => Ok(disk),
        Err((fault, disk)) => Err((fault_of(fault), disk)),
    }
}
