//! What is printed of words that are refused, and the help that words ask for.
use crate::faults::JobFault;
use crate::other_words::other_word;
use clap::error::ErrorKind as WordsKind;
use command_faults::CommandFault;
use image_file::{Failures, NotedRuntime};
use opened_files::end;
use std::io::{self, Write};
use std::rt::Files;

/// Reports a failure of the system, and returns its exit status.
pub(crate) fn refuse<E: Write>(err: &mut E, error: &io::Error) -> u8 {
    end(Err(CommandFault::of_io(error)), err).status
}

/// Prints which command does what a word of another program asks for, if one of these texts is such a word.
fn explain_other_word<E: Write>(texts: &[&str], err: &mut E) -> io::Result<()> {
    match other_word(texts) {
        Some((word, commands)) => writeln!(err, "ledger: {word} is {commands} here"),
        None => Ok(()),
    }
}

/// Prints what the words may be. What `clap` refuses it explains itself, but no word of another program.
fn explain_words<E: Write>(fault: &JobFault, texts: &[&str], err: &mut E) {
    let _ = match fault {
        JobFault::Words(error) if error.kind() == WordsKind::InvalidSubcommand =>
            explain_other_word(texts, err),
        JobFault::Words(_) => Ok(()),
        JobFault::Tills => writeln!(err, "ledger: TILLS is 1 to 64"),
        JobFault::Length => writeln!(err, "ledger: BYTES is 1 to 254"),
        JobFault::Sector => writeln!(
            err,
            "ledger: T/S is a track and a sector that it has, such as 17/4"
        ),
        JobFault::Images => writeln!(
            err,
            "ledger: give one image, alone or with --svg; or up to 400 with --sheet; or two with --compare"
        ),
        JobFault::Name => writeln!(
            err,
            "ledger: a name has 1 to 16 bytes; one that isn't plain text is a backslash and two digits, such as \\c1"
        ),
        JobFault::Id => writeln!(
            err,
            "ledger: ID has two bytes; one that isn't plain text is a backslash and two digits, such as \\c1"
        ),
        JobFault::Flags => writeln!(err, "ledger: give --fields or --at, not both"),
        JobFault::Kind => writeln!(
            err,
            "ledger: TYPE is prg, seq or usr; of a file that is put, cvt too; of a deleted one, rel"
        ),
        JobFault::Positions => writeln!(
            err,
            "ledger: POSITIONS are up to 32 numbers of 1 to 254, which rise from 1, such as 1,25,49"
        ),
        JobFault::Path => writeln!(
            err,
            "ledger: - is standard input, and no file is made or changed there; a file of that name is ./-"
        ),
    };
}

/// Prints a text on the output, as a job does.
fn print_text<R: Files + Print>(rt: &R, text: &[u8]) -> io::Result<()> {
    let failures = Failures::none();
    Print::write_all(&NotedRuntime::new(rt, &[], &failures), text)
}

/// Prints what `clap` says of the words: help on the output, and why they are refused on standard error.
fn print_words<R, E>(rt: &R, said: &clap::Error, err: &mut E) -> io::Result<()>
where
    R: Files + Print + AllocGlobal,
    E: Write,
{
    let mut text = Vec::new(rt.alloc());
    write!(text, "{said}")?;
    if said.use_stderr() {
        return err.write_all(text.as_slice());
    }
    print_text(rt, text.as_slice())
}

/// Reports why the words ask for nothing, or prints the help that they ask for, and returns the exit status.
pub(crate) fn refuse_words<R, E>(rt: &R, fault: &JobFault, texts: &[&str], err: &mut E) -> u8
where
    R: Files + Print + AllocGlobal,
    E: Write,
{
    let status = fault.status();
    let ended = match fault {
        // If memory ran out, there may be no text.
        JobFault::Words(_) if status == CommandFault::NoMemory.status() => {
            return end(Err(CommandFault::NoMemory), err).status;
        }
        JobFault::Words(error) => print_words(rt, error, err),
        _ => writeln!(err, "{fault}"),
    };
    explain_words(fault, texts, err);
    match ended {
        // Help that can't be printed is an output that failed.
        Err(error) if status == 0 => refuse(err, &error),
        _ => status,
    }
}

/// Prints what a word means that the program prints, and returns the exit status.
pub(crate) fn print_meaning<R, E>(rt: &R, word: &str, meaning: &str, err: &mut E) -> u8
where
    R: Files + Print + AllocGlobal,
    E: Write,
{
    let mut text = Vec::new(rt.alloc());
    let ended = match writeln!(text, "{word}: {meaning}") {
        Ok(()) => print_text(rt, text.as_slice()),
        failed => failed,
    };
    match ended {
        Ok(()) => 0,
        Err(error) => refuse(err, &error),
    }
}
