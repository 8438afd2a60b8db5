//! Runs of scripts.
ghost use Rattle.std.specs.Prelude.{◌≡◌};
ghost use Rattle.host_session.specs.runs.Outputs.{written};
ghost use Rattle.host_session.specs.runs.Faults.{script_fault_of, script_number};
ghost use Rattle.host_session.specs.runs.ScriptRuns.{IsScriptRun};

use crate::events::lines::LentReplies;
use crate::events::sinks::Replies;
use crate::events::sources::ScriptEvents;
use crate::faults::OpenFault;
use crate::runs::event_loop::{LoopFault, run};
use d64_image::Sectors;
use line_text::first_bad_line;
use std::io::Write;
use thiserror::Error;

/// Why a script wasn't played to its end.
#[derive(Clone, Copy, Debug, PartialEq, Eq, Error)]
pub enum ScriptFault {
    /// The disk wasn't opened, and no line was played.
    #[error("{0}")]
    Open(OpenFault),
    /// A line is bad: the first such line, counted from 1. Nothing was done.
    #[error("SCRIPT LINE {0}")]
    BadLine(usize),
    /// The output failed to take a reply. The lines up to that one were played.
    #[error("FILE")]
    Output,
    /// The device failed in a message, whose reply is MEDIA, or in the whole recovery after a cut one.
    #[error("DEVICE")]
    Device,
}

impl ScriptFault {
    /// The fault's number: 1 Open, 2 BadLine, 3 Output, 4 Device.
    pub fn number(self) -> u8
        ensures { result ≡ script_number self }
    {
        match self {
            ScriptFault::Open(_) => 1,
            ScriptFault::BadLine(_) => 2,
            ScriptFault::Output => 3,
            ScriptFault::Device => 4,
        }
    }
}

/// The fault that is returned for a script whose run this fault ended. The whole input is there, so it doesn't fail.
fn fault_of(fault: LoopFault) -> ScriptFault
    ensures { result ≡ script_fault_of fault }
{
    match fault {
        LoopFault::Open(fault) => ScriptFault::Open(fault),
        LoopFault::Output => ScriptFault::Output,
        LoopFault::Device | LoopFault::Input => ScriptFault::Device,
    }
}

/// Plays the lines of a script one after another, as `play` plays events, and passes each reply on before the next line
/// is played. The clauses of `IsScriptRun` say what it does. `run_script` does the same over a writer.
///
/// All lines are checked before anything else is done. No memory is allocated. After `Output` the lines played stand,
/// the one whose reply wasn't fully taken among them. If the device failed, the last reply is passed on before `Device`
/// is returned; whether the output took that reply isn't reported. docs/EMBED.md says how much stack it takes.
pub fn play_script<D: Sectors, T: Replies<D>>(
    disk: D,
    script: &[u8],
    out: &mut T,
) -> Result<D, (ScriptFault, D)>
    ensures { IsScriptRun D.history T.output disk script.now out.old out.new result }
{
    if let Some(line) = first_bad_line(script) {
        return Err((ScriptFault::BadLine(line), disk));
    }
    let mut asks = ScriptEvents::new(script);
    match run(disk, &mut asks, out) {
        Ok(disk) => Ok(disk),
        Err((fault, disk)) => Err((fault_of(fault), disk)),
    }
}

/// Plays the lines of a script one after another, and writes each reply, on a line that ends with LF, before the next
/// line is played. Hands the disk back.
///
/// Errors:
/// - `BadLine` of the first bad line, before anything else is done. Nothing is written.
/// - `Open` if the disk isn't opened. Nothing is written to `out`.
/// - `Output` if the writer fails or takes no more. The lines handled so far stand.
/// - `Device` if the device failed, after the first MEDIA, or after a `CUT` whose whole recovery failed. It is returned
///   even if the writer failed too.
///
/// No memory is allocated. It takes as much stack as `play_script`.
pub fn run_script<D: Sectors, W: Write>(
    disk: D,
    script: &[u8],
    out: &mut W,
) -> Result<D, (ScriptFault, D)>
    ensures { IsScriptRun D.history (written W.contents) disk script.now out.old out.new result }
{
    let mut lines = LentReplies::new(out);
    play_script(disk, script, &mut lines)
}
