//! Landing the log of a service or a play, by how that ended.
ghost use Rattle.std.specs.Prelude.{◌≡◌};
ghost use Rattle.shop_jobs.specs.LandedRuns.{IsLandedEnd, landing_fault, unlanded as unlanded_end};

use command_faults::CommandFault;
use disk_layout::Fault;
use image_log::{LiveLog, LogFault, LogFile, LogFolder};
use opened_files::log_refusal;

/// What is reported of a log that can't be landed for this reason: `NoMemory` if memory was refused, otherwise `Device`.
fn landing_refusal(refusal: CommandFault) -> CommandFault
    ensures { result ≡ landing_fault refusal }
{
    match refusal {
        CommandFault::NoMemory => CommandFault::NoMemory,
        _ => CommandFault::Device,
    }
}

/// How a service ends that ended so, and whose log can't be landed for this fault: a refusal stays what it is.
fn unlanded(
    ended: Result<Option<Fault>, CommandFault>,
    fault: &LogFault,
) -> Result<Option<Fault>, CommandFault>
    ensures { result ≡ unlanded_end ended fault.now }
{
    match ended {
        Ok(_) | Err(CommandFault::File) => Err(landing_refusal(log_refusal(fault))),
        Err(refusal) => Err(refusal),
    }
}

/// Lands the log of a service that ended so. If a commit of it failed or the image's file has gone, the log stays where
/// it is, and the next service or change lands it. `NoMemory` or `Device` if it couldn't be landed.
pub(crate) fn landed_end<L: LogFile, D: LogFolder<L> + Drop>(
    log: LiveLog<L, D>,
    ended: Result<Option<Fault>, CommandFault>,
) -> (Option<D>, Result<Option<Fault>, CommandFault>)
    ensures { IsLandedEnd D.history log ended result.0 result.1 }
{
    if let Err(CommandFault::Device) = ended {
        return (None, ended);
    }
    let (folder, landed) = log.end();
    match landed {
        Ok(()) => (Some(folder), ended),
        Err(fault) => (Some(folder), unlanded(ended, &fault)),
    }
}
