//! The files that a job names, opened and read.
ghost use Rattle.std.specs.Prelude.{◌≡◌, IfErr, IfOk, vec_items};
ghost use Rattle.opened_files.specs.HostFiles.{IsUnread, OfText};
ghost use Rattle.opened_files.specs.Rights.{MayReadText, MayLook};
ghost use Rattle.image_file.specs.paths.Rights.{Look, May};

use command_faults::CommandFault;
use image_file::{HostFiles, read_script, regular_at};
use std::fs::{Metadata, OpenFile};
use std::io;

/// The name under which standard input is read. It is read as it is, since the program may not be allowed to open it
/// again.
pub const STANDARD_INPUT: &str = "/dev/stdin";

/// One more than how many bytes the file has; 0 if the system doesn't say.
pub(crate) fn room_for<F: OpenFile>(file: &F) -> usize {
    match file.metadata() {
        Ok(told) => told.len().saturating_add(1) as usize,
        Err(_) => 0,
    }
}

/// All bytes of a script's file, or of standard input.
pub(crate) fn script_at<R: HostFiles + Input + AllocGlobal>(
    rt: &R,
    path: &str,
) -> io::Result<Vec<u8>>
    requires { MayReadText R.rights rt.now path.now }
    ensures { OfText R.stands rt.now path.now (λ all. IfOk result (λ bytes. vec_items bytes ≡ all)) }
{
    if path == STANDARD_INPUT {
        return read_script(rt.alloc(), rt.reader(), 0);
    }
    let file = rt.open_to_read(path)?;
    let room = room_for(&file);
    read_script(rt.alloc(), file, room)
}

/// The same, or why a job isn't begun that needs it: `File`, `NotReady` or `NoMemory`.
pub fn script_to_play<R: HostFiles + Input + AllocGlobal>(
    rt: &R,
    path: &str,
) -> Result<Vec<u8>, CommandFault>
    requires { MayReadText R.rights rt.now path.now }
    ensures read { OfText R.stands rt.now path.now (λ all. IfOk result (λ script. vec_items script ≡ all)) }
    ensures err { IfErr result IsUnread }
{
    Ok(script_at(rt, path)?)
}

/// Whether a regular file stands at a path. An error if another thing does.
pub(crate) fn is_file_at<R: HostFiles>(rt: &R, path: &str) -> io::Result<bool>
    requires { May R.rights rt.now Look path.now }
{
    match regular_at(rt, path) {
        Ok(_) => Ok(true),
        Err(error) if error.kind() == io::ErrorKind::NotFound => Ok(false),
        Err(error) => Err(error),
    }
}

/// What the system says of the regular file at a path. None of standard input, and if the system doesn't say. No file is
/// opened.
pub fn metadata_of<R: HostFiles>(rt: &R, path: &str) -> Option<Metadata>
    requires { MayLook R.rights rt.now path.now }
{
    if path == STANDARD_INPUT {
        return None;
    }
    regular_at(rt, path).ok()
}

/// The number of its bytes.
pub fn size_of<R: HostFiles>(rt: &R, path: &str) -> Option<u64>
    requires { MayLook R.rights rt.now path.now }
{
    let found = metadata_of(rt, path)?;
    Some(found.len())
}
