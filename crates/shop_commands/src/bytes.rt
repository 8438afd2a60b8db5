//! Bytes handed to a writer.
ghost use Rattle.std.specs.Prelude.{◌≡◌, IfErr, OnOk};
ghost use Rattle.std.specs.Io.KnownBytes.{Appends};
ghost use Rattle.line_text.specs.Handed.{AppendsPart};
ghost use Rattle.command_faults.specs.declared.faults.CommandFault.TheVariants as faults;

use command_faults::{CommandFault, flush};
use line_text::hand_whole;
use std::io::Write;

/// Passes all of these bytes to the writer, and flushes it. `File` if it failed; then it has the first of these bytes, or
/// all.
pub fn print_whole<W: Write>(out: &mut W, bytes: &[u8]) -> Result<(), CommandFault>
    ensures ok { OnOk result (Appends (W.contents out.old) (W.contents out.new) bytes.now) }
    ensures err { IfErr result (λ fault.
        (fault ≡ faults.File) × AppendsPart (W.contents out.old) (W.contents out.new) bytes.now) }
{
    match hand_whole(out, bytes) {
        Ok(()) => flush(out),
        Err(_) => Err(CommandFault::File),
    }
}
