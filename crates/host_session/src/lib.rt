//! A shop on a disk: what the disk stands for at each moment, its opening, its requests, and runs of them with resets.
#![tactic(auto)]

mod faults;
mod laws;
// The two files of a shop on a disk: found, read and checked; their records are written through a drive.
mod shop;
// An open session: its disk opened and brought to rest, its messages answered.
mod session;
// One event of a run: its source, a cut in it, and the receiver of its reply.
mod events;
// The loop of all runs, and its callers.
mod runs;

pub use events::printing::PrintedReplies;
pub use events::sinks::Replies;
pub use events::sources::{EventList, EventSource, Next, ScriptEvents};
pub use faults::OpenFault;
pub use laws::{blank_is_a_shop, both_ends, last_two, one_shop, only_grows, refused_no_shop};
pub use line_text::{Cut, Event};
pub use runs::event_loop::{LoopFault, run};
pub use runs::plays::{PlayFault, play};
pub use runs::scripts::{ScriptFault, play_script, run_script};
pub use session::Session;
