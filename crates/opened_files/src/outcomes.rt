//! What came of a run, as the end of a job.
ghost use Rattle.std.specs.Prelude.{◌≡◌};
ghost use Rattle.opened_files.specs.Ends.{as_run};

use command_faults::CommandFault;
use disk_layout::Fault;

/// What came of a run that prints no fault, as a job's end.
pub fn run_end(ended: Result<(), CommandFault>) -> Result<Option<Fault>, CommandFault>
    ensures { result ≡ as_run ended }
{
    match ended {
        Ok(()) => Ok(None),
        Err(fault) => Err(fault),
    }
}
