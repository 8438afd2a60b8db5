//! Names of open files. Such a name may come to lead elsewhere.
ghost use Rattle.std.specs.Prelude.{◌≡◌, false, true};
ghost use Rattle.std.specs.Fs.{metadata_len};
ghost use Rattle.std.proofs.Props.{props};
ghost use Rattle.image_file.specs.paths.Rights.{Look, May};
ghost use Rattle.image_file.specs.paths.Names.{IsSeenAs};
ghost use Rattle.image_file.specs.paths.Standing.{IsMissing};

use crate::paths::host::HostFiles;
use std::fs::{Metadata, OpenFile};
use std::io;
use std::os::unix::fs::MetadataExt;

/// Which file it is: its device, its number on that, and how many bytes it has.
#[derive(Clone, Copy, Debug, PartialEq, Eq)]
pub struct Identity {
    device: u64,
    number: u64,
    bytes: u64,
}

impl Identity {
    /// The file that this metadata describes.
    fn of(found: &Metadata) -> Identity
        ensures { result.bytes ≡ metadata_len found.now }
    {
        Identity::sized(found, found.len())
    }

    /// The file that this metadata describes, once it has this many bytes.
    pub fn sized(found: &Metadata, bytes: u64) -> Identity
        ensures { result.bytes ≡ bytes }
    {
        Identity {
            device: found.dev(),
            number: found.ino(),
            bytes,
        }
    }
}

/// Whether a path leads to this file, and that has as many bytes. False if the system can't say.
pub fn leads_to<R: HostFiles>(rt: &R, path: &str, file: Identity) -> bool
    requires { May R.rights rt.now Look path.now }
    ensures missing { IsMissing R.stands rt.now path.now → result ≡ false }
    ensures seen { result ≡ true → IsSeenAs R.traces rt.now path.now file }
{
    match rt.look_at(path) {
        Ok(found) => Identity::of(&found) == file,
        Err(_) => false,
    }
}

/// Something that may go.
pub trait NameStays {
    /// Whether it is still there.
    fn is_still_named(&self) -> bool;
}

/// The name of an open file, by which others find it.
#[derive(Drop)]
pub struct FileName<'a, R: HostFiles> {
    rt: &'a R,
    path: &'a str,
    file: Identity,
    // it may be looked for
    ghost looks: { May R.rights rt.now Look path.now } by { Prim.hlevel props },
}

impl<'a, R: HostFiles> FileName<'a, R> {
    /// The name of a file that was opened by this path, as long as the file is now.
    pub fn of<F: OpenFile>(rt: &'a R, path: &'a str, file: &F) -> io::Result<FileName<'a, R>>
        requires { May R.rights rt.now Look path.now }
    {
        let found = file.metadata()?;
        Ok(FileName {
            rt,
            path,
            file: Identity::of(&found),
        })
    }
}

impl<R: HostFiles> NameStays for FileName<'_, R> {
    /// Whether the path leads to the same file, and that has as many bytes. False if the system can't say.
    fn is_still_named(&self) -> bool {
        leads_to(self.rt, self.path, self.file)
    }
}
