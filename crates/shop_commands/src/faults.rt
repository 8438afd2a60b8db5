//! Why a command over a shop isn't done.
ghost use Rattle.std.specs.Prelude.{◌≡◌};
ghost use Rattle.shop_commands.specs.Faults.{opening_fault, script_fault};

use command_faults::CommandFault;
use host_session::{OpenFault, ScriptFault};

/// What is reported if a shop's disk isn't opened for this fault.
pub fn of_opening(fault: OpenFault) -> CommandFault
    ensures { result ≡ opening_fault fault }
{
    match fault {
        OpenFault::Layout(fault) => CommandFault::Layout(fault),
        OpenFault::NoStock => CommandFault::NoStock,
        OpenFault::NoRequests => CommandFault::NoRequests,
        OpenFault::BadCard(record) => CommandFault::BadCard(record),
        OpenFault::BadRequestCard(till) => CommandFault::BadRequestCard(till),
        OpenFault::TwoIntents => CommandFault::TwoIntents,
        OpenFault::Device => CommandFault::Device,
    }
}

/// What is reported if a script isn't played to its end for this fault.
pub fn of_script(fault: ScriptFault) -> CommandFault
    ensures { result ≡ script_fault fault }
{
    match fault {
        ScriptFault::Open(fault) => of_opening(fault),
        ScriptFault::BadLine(line) => CommandFault::ScriptLine(line),
        ScriptFault::Output => CommandFault::File,
        ScriptFault::Device => CommandFault::Device,
    }
}
