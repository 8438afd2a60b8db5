//! Texts appended to bytes in memory.
ghost use Rattle.std.specs.Prelude.{◌≡◌, ◌++◌, IfErr, IfSome, OnOk};
ghost use Rattle.command_faults.specs.declared.faults.CommandFault.TheVariants as faults;

use command_faults::CommandFault;
use std::fmt::Display;
use std::io::Write;

/// Appends this text. `NoMemory` if there was none.
pub(crate) fn put<T: Display + Drop>(out: &mut Vec<u8>, text: T) -> Result<(), CommandFault>
    ensures ok { OnOk result (IfSome (T.output text) (λ text. out.new.items ≡ out.old.items ++ text)) }
    ensures err { IfErr result (λ fault. fault ≡ faults.NoMemory) }
{
    if write!(out, "{text}").is_err() {
        return Err(CommandFault::NoMemory);
    }
    Ok(())
}
