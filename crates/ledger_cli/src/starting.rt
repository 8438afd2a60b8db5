//! What the program does before it reads its words.
use command_faults::CommandFault;
use ledger_jobs::ClosedStreams;
use opened_files::end;
use std::io::Write;
use std::os::fd::AsRawFd;
use std::rt::Files;

/// Holds the places of the standard streams that are closed, before any file is opened. If that can't be done, prints
/// `FILE`, and returns the exit status 3.
pub fn hold_streams<F, R, E>(rt: &R, err: &mut E) -> Result<ClosedStreams<F>, u8>
where
    F: AsRawFd + Drop,
    R: Files<File = F>,
    E: Write,
{
    match ClosedStreams::hold(rt) {
        Ok(held) => Ok(held),
        Err(error) => Err(end(Err(CommandFault::of_io(&error)), err).status),
    }
}
