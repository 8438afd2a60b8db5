//! How a job ends: what is reported of it on standard error, and the exit status.
ghost use Rattle.std.specs.Prelude.{◌≡◌, IfErr, IsOk, OnErr, OnOk};
ghost use Rattle.std.specs.Io.KnownBytes.{Appends};
ghost use Rattle.line_text.specs.Handed.{AppendsPart};
ghost use Rattle.opened_files.specs.Ends.{end_status, refusal_line};

use arrayvec::ArrayVec;
use command_faults::CommandFault;
use disk_layout::Fault;
use line_text::{NotTaken, hand_whole};
use std::io::Write;

/// Prints a refusal in one line; nothing if the output has reported it. Its error is that standard error failed, and then
/// has a first part of the line. This can't be reported.
pub fn tell<E: Write>(err: &mut E, refusal: CommandFault) -> Result<(), NotTaken>
    ensures told { OnOk result (Appends (E.contents err.old) (E.contents err.new) (refusal_line refusal)) }
    ensures part { OnErr result (AppendsPart (E.contents err.old) (E.contents err.new) (refusal_line refusal)) }
{
    if !refusal.is_told() {
        return Ok(());
    }
    // the longest is `SCRIPT LINE` with a number of 20 digits
    let mut line = ArrayVec::<u8, 40>::new();
    if writeln!(line, "{refusal}").is_err() {
        return Err(NotTaken);
    }
    hand_whole(err, line.as_slice())
}

/// How a job ended, as the program reports it.
#[derive(Clone, Copy, Debug, PartialEq, Eq)]
pub struct Ending {
    /// The exit status.
    pub status: u8,
    /// Whether what was to be reported on standard error was taken whole.
    pub told: Result<(), NotTaken>,
}

/// The end of a job that ended so. If the job isn't done, it prints why, in one line. With status 1 that is what the
/// image or the script has wrong, such as `IMAGE SIZE`, `LAYOUT LOOP 17/0`, `BAD CARD 3` or `SCRIPT LINE 2`. The status
/// is 1 also if a check reported a fault, on the output. With status 3 it is `FILE` if a file couldn't be opened or read,
/// the image wasn't made, or the output failed. It is `DEVICE` if the file of `play` failed, `IN USE` if another program
/// has the image, or `NO MEMORY`. If standard error failed, it has a first part of the line, and `told` is an error.
pub fn end<E: Write>(ended: Result<Option<Fault>, CommandFault>, err: &mut E) -> Ending
    ensures status { result.status ≡ end_status ended }
    ensures quiet { IsOk ended → (err.new ≡ err.old) × IsOk result.told }
    ensures told { IfErr ended (λ refusal. OnOk result.told
        (Appends (E.contents err.old) (E.contents err.new) (refusal_line refusal))) }
    ensures part { IfErr ended (λ refusal. OnErr result.told
        (AppendsPart (E.contents err.old) (E.contents err.new) (refusal_line refusal))) }
{
    match ended {
        Ok(None) => Ending {
            status: 0,
            told: Ok(()),
        },
        Ok(Some(_)) => Ending {
            status: 1,
            told: Ok(()),
        },
        Err(refusal) => Ending {
            status: refusal.status(),
            told: tell(err, refusal),
        },
    }
}
