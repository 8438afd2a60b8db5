//! Bytes and texts handed to a writer.
ghost use Rattle.std.specs.Prelude.{◌≡◌, ◌++◌, IfErr, IfSome, OnErr, OnOk, codes};
ghost use Rattle.std.specs.Io.KnownBytes.{Appends, Keeps};
ghost use Rattle.command_faults.specs.Outputs.{HandsPart};
ghost use Rattle.command_faults.specs.declared.faults.CommandFault.TheVariants as faults;

use crate::faults::CommandFault;
use line_text::hand_whole;
use std::fmt::Display;
use std::io::Write;

/// Passes all of these bytes to the writer, in one call if it takes them. `File` if it failed or took no byte: then it has
/// a first part of them.
pub fn put<W: Write>(out: &mut W, bytes: &[u8]) -> Result<(), CommandFault>
    ensures ok { OnOk result (Appends (W.contents out.old) (W.contents out.new) bytes.now) }
    ensures part { OnErr result (HandsPart (W.contents out.old) (W.contents out.new) bytes.now) }
    ensures err { IfErr result (λ fault. fault ≡ faults.File) }
{
    match hand_whole(out, bytes) {
        Ok(()) => Ok(()),
        Err(_) => Err(CommandFault::File),
    }
}

/// Passes this text to the writer. `File` if it failed, which may then have a part.
pub fn print_text<W: Write, T: Display + Drop>(out: &mut W, text: T) -> Result<(), CommandFault>
    ensures ok { OnOk result (IfSome (T.output text)
        (λ text. Appends (W.contents out.old) (W.contents out.new) text)) }
    ensures err { IfErr result (λ fault. fault ≡ faults.File) }
{
    if write!(out, "{text}").is_err() {
        return Err(CommandFault::File);
    }
    Ok(())
}

/// Prints this on a line of its own. `File` if the writer failed.
pub fn print_line<W: Write, T: Display + Drop>(out: &mut W, text: T) -> Result<(), CommandFault>
    ensures ok { OnOk result (IfSome (T.output text)
        (λ text. Appends (W.contents out.old) (W.contents out.new) (text ++ codes "\n"))) }
    ensures err { IfErr result (λ fault. fault ≡ faults.File) }
{
    if writeln!(out, "{text}").is_err() {
        return Err(CommandFault::File);
    }
    Ok(())
}

/// Flushes the writer. `File` if it failed.
pub fn flush<W: Write>(out: &mut W) -> Result<(), CommandFault>
    ensures kept { Keeps (W.contents out.old) (W.contents out.new) }
    ensures err { IfErr result (λ fault. fault ≡ faults.File) }
{
    if out.flush().is_err() {
        return Err(CommandFault::File);
    }
    Ok(())
}
