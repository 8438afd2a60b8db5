//! Files that can be opened without waiting, and that are no devices.
ghost use Rattle.std.specs.Prelude.{◌≡◌, IfOk, IsErr, Ok};
ghost use Rattle.std.specs.Fs.{IsFile, file_type};
ghost use Rattle.image_file.specs.paths.Rights.{Look, May, MayRead, MayWrite, Read as ToRead, Write as ToWrite};
ghost use Rattle.image_file.specs.paths.Standing.{AreOf, IsMissing};

use crate::paths::host::HostFiles;
use std::fs::Metadata;
use std::io;

/// Passes on the metadata of a regular file. An error if it is a pipe, a device or a folder: opening such a thing may
/// block, and writing to it may do harm.
pub fn regular(found: io::Result<Metadata>) -> io::Result<Metadata>
    ensures regular { IfOk result (λ found. IsFile (file_type found)) }
    ensures unfound { IsErr found → IsErr result }
    ensures same { IfOk result (λ it. found ≡ Ok it) }
{
    let found = found?;
    if found.is_file() {
        return Ok(found);
    }
    let said = "it is a pipe, a device or a folder";
    Err(io::Error::new(io::ErrorKind::InvalidInput, said))
}

/// The metadata of the file at a path, which isn't opened. An error if it isn't a regular file, or there is none.
pub fn regular_at<R: HostFiles>(rt: &R, path: &str) -> io::Result<Metadata>
    requires { May R.rights rt.now Look path.now }
    ensures regular { IfOk result (λ found. IsFile (file_type found)) }
    ensures missing { IsMissing R.stands rt.now path.now → IsErr result }
    ensures seen { IfOk result (R.traces.seen rt.now path.now) }
{
    regular(rt.look_at(path))
}

/// The regular file at a path, opened for reading. Anything else isn't opened, and returns an error.
pub fn opened_to_read<R: HostFiles>(rt: &R, path: &str) -> io::Result<R::File>
    requires { MayRead R.rights rt.now path.now }
    ensures missing { IsMissing R.stands rt.now path.now → IsErr result }
    ensures bytes { IfOk result (λ file. AreOf R.stands rt.now path.now (R.File.Read.remaining file)) }
    ensures opened { IfOk result (R.traces.opened rt.now ToRead path.now) }
{
    regular_at(rt, path)?;
    rt.open_to_read(path)
}

/// The regular file at a path, opened for reading and writing. It is neither made nor cut. Anything else isn't opened,
/// and returns an error.
pub fn opened_to_change<R: HostFiles>(rt: &R, path: &str) -> io::Result<R::File>
    requires { MayWrite R.rights rt.now path.now }
    ensures missing { IsMissing R.stands rt.now path.now → IsErr result }
    ensures bytes { IfOk result (λ file. AreOf R.stands rt.now path.now (R.File.Read.remaining file)) }
    ensures opened { IfOk result (λ file. R.traces.opened rt.now ToWrite path.now file) }
{
    regular_at(rt, path)?;
    rt.open_to_change(path)
}
