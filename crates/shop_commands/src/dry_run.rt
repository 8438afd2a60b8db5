//! The run of a script without a disk.
ghost use Rattle.std.specs.Prelude.{◌≡◌, ◌↔◌, ℕ, None, IfErr, IsSome, OnOk, Ok, Err, Some};
ghost use Rattle.std.specs.Io.KnownBytes.{Appends, Keeps};
ghost use Rattle.request_cards.specs.Ledgers.{replies_from, report};
ghost use Rattle.request_cards.specs.Tables.{IsWithin, held_by, limits_of};
ghost use Rattle.shop_commands.specs.Faults.{IsDryFault, dry_number, dry_status};
ghost use Rattle.line_text.specs.scripts.Lines.{first_reset, lines};
ghost use Rattle.shop_commands.specs.Faults.{dry_text};
ghost use Rattle.shop_commands.specs.DryRuns.{dry_report, dry_start};

use line_text::{first_reset_line, next_line};
use request_cards::Ledger;
use std::error::Error;
use std::fmt::{self, Display, Formatter};
use std::io::Write;

/// Why a script has no replies, or not all of them.
#[derive(Clone, Copy, Debug, PartialEq, Eq)]
pub enum DryFault {
    /// A line can't be played: the first such line, counted from 1.
    BadLine(usize),
    /// The output failed.
    Output,
}

impl DryFault {
    /// The fault's number: 2 for `BadLine`, 3 for `Output`.
    pub fn number(&self) -> u8
        ensures { result ≡ dry_number self.now }
    {
        match self {
            DryFault::BadLine(_) => 2,
            DryFault::Output => 3,
        }
    }

    /// The exit status: 1 for the script, 3 for the output.
    pub fn status(&self) -> u8
        ensures { result ≡ dry_status self.now }
    {
        match self {
            DryFault::BadLine(_) => 1,
            DryFault::Output => 3,
        }
    }
}

impl Display for DryFault {
    ghost output = { λ fault. Some (dry_text fault) };

    fn fmt<W: fmt::Write>(&self, f: &mut Formatter<W>) -> fmt::Result {
        match self {
            DryFault::BadLine(line) => write!(f, "SCRIPT LINE {line}"),
            DryFault::Output => f.write_str("FILE"),
        }
    }
}

impl Error for DryFault {}

/// The last item that has room on a fresh disk with 64 tills.
const TOP: u16 = 8819;

/// Writes the reply to each line of the script, from the ledger on.
fn play<W: Write>(script: &[u8], ledger: &mut Ledger, out: &mut W) -> Result<(), DryFault>
    requires limits { limits_of ledger.old ≡ dry_start }
    requires within { IsWithin ledger.old }
    ensures ok { OnOk result (Appends (W.contents out.old) (W.contents out.new)
        (report (replies_from dry_start (held_by ledger.old) (lines script.now)))) }
    ensures err { IfErr result (λ e. e ≡ DryFault.Output) }
{
    let mut rest = script;
    while let Some((line, more)) = next_line(rest) {
        if ledger.reply(line).write_line(out).is_err() {
            return Err(DryFault::Output);
        }
        rest = more;
    }
    Ok(())
}

/// Flushes the writer.
fn hand_on<W: Write>(out: &mut W) -> Result<(), DryFault>
    ensures kept { Keeps (W.contents out.old) (W.contents out.new) }
    ensures err { IfErr result (λ e. e ≡ DryFault.Output) }
{
    match out.flush() {
        Ok(()) => Ok(()),
        Err(_) => Err(DryFault::Output),
    }
}

/// Writes the reply to each line of a script on a line of its own, as a fresh disk with 64 tills
/// would give it, and flushes the writer. It takes no memory and needs no disk.
///
/// A line that begins with `@` is bad: the first such line is returned before anything is written
/// (`BadLine`). If the writer fails, what it took of the replies is open (`Output`).
pub fn dry<W: Write>(script: &[u8], out: &mut W) -> Result<(), DryFault>
    // A bad line is returned exactly if there is one, and it is the first.
    ensures bad_line { (n : ℕ) →
        (result ≡ Err (DryFault.BadLine n)) ↔ (first_reset (lines script.now) ≡ Some n) }
    // Then nothing was written.
    ensures untouched { IsSome (first_reset (lines script.now)) → out.new ≡ out.old }
    // If no line is bad, each has its reply over the lines before it.
    ensures good { OnOk result (first_reset (lines script.now) ≡ None) }
    ensures ok { OnOk result
        (Appends (W.contents out.old) (W.contents out.new) (dry_report script.now)) }
    // The output is reported only if no line is at fault.
    ensures err { IfErr result (IsDryFault (first_reset (lines script.now))) }
{
    if let Some(line) = first_reset_line(script) {
        return Err(DryFault::BadLine(line));
    }
    let mut ledger = Ledger::new(64, TOP);
    play(script, &mut ledger, out)?;
    hand_on(out)
}
