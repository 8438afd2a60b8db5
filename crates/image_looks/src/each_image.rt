//! Several images, each read as if it were alone, in their order.
ghost use Rattle.std.specs.Prelude.{List, ℕ, All, IfOk, map, ◌≡◌, IfErr};
ghost use Rattle.image_looks.specs.EachImage.{IsCutOff, AreEach, IsOneFrom, Loaded, as_loaded, IsReadAt, IsSeveralEnd};
ghost use Rattle.opened_files.specs.Rights.{MayReadImage};
ghost use Rattle.std.specs.Io.KnownBytes.{Keeps};

use command_faults::CommandFault;
use disk_layout::Fault;
use image_file::{HostFiles, Locks};
use opened_files::{Extent, image_as};
use std::fs::OpenFile;
use std::io::{self, Read, Write};

/// What is printed of each of several images.
pub(crate) trait PrintsImage<R: HostFiles + AllocGlobal, W: Write> {
    /// What is printed of what was read of the image at a path, with which exit status.
    ghost prints: { Self → List ℕ → Loaded → W → W → ℕ → Type 0 };

    /// Prints that, or why the image couldn't be read. Returns the exit status of this image. `File` if the output failed;
    /// `NoMemory`.
    fn print(
        &self,
        rt: &R,
        path: &str,
        read: Result<Vec<u8>, CommandFault>,
        out: &mut W,
    ) -> Result<u8, CommandFault>
        requires { MayReadImage R.rights rt.now path.now }
        ensures ok { IfOk result (prints self.now path.now (as_loaded read) out.old out.new) }
        ensures err { IfErr result IsCutOff };
}

/// Prints what is asked of the image at a path, of which this extent is taken, and returns its exit status.
fn print_one<F, R, W, P>(
    rt: &R,
    what: &P,
    extent: Extent,
    path: &str,
    out: &mut W,
) -> Result<u8, CommandFault>
where
    F: Read + Locks + OpenFile + Drop,
    R: HostFiles<File = F> + Input + AllocGlobal,
    W: Write,
    P: PrintsImage<R, W>,
    requires { MayReadImage R.rights rt.now path.now }
    ensures ok { IfOk result
        (IsOneFrom (IsReadAt R.rights R.stands rt.now extent) (P.prints what.now) path.now out.old out.new) }
    ensures err { IfErr result IsCutOff }
{
    what.print(rt, path, image_as(rt, extent, path), out)
}

/// Prints what is asked of each of several images, in their order, and returns the greatest exit status of theirs. An image
/// is locked with others that read it while it is read, and this extent is taken of each. `File` if the output failed, and `NoMemory`: the images after that
/// one aren't read.
pub(crate) fn print_each<F, R, W, P>(
    rt: &R,
    what: &P,
    extent: Extent,
    paths: &[&str],
    out: &mut W,
) -> Result<u8, CommandFault>
where
    F: Read + Locks + OpenFile + Drop,
    R: HostFiles<File = F> + Input + AllocGlobal,
    W: Write,
    P: PrintsImage<R, W>,
    requires { All (λ path. MayReadImage R.rights rt.now path.now) paths.now }
    ensures ok { IfOk result (AreEach (IsReadAt R.rights R.stands rt.now extent) (P.prints what.now)
        (map (λ path. path.now) paths.now) out.old out.new) }
    ensures err { IfErr result IsCutOff }
{
    let mut greatest = 0;
    for path in paths {
        let status = print_one(rt, what, extent, path, out)?;
        greatest = status.max(greatest);
    }
    Ok(greatest)
}

/// The end of a job over several images, with the greatest exit status of theirs. `Several` if that isn't 0.
pub(crate) fn status_end(greatest: u8) -> Result<Option<Fault>, CommandFault>
    ensures { IsSeveralEnd (λ n. n ≡ greatest) result }
{
    match greatest {
        0 => Ok(None),
        _ => Err(CommandFault::Several(greatest)),
    }
}

/// The same once the output has handed on what it held back. `File` if it failed.
pub(crate) fn several_end<W: Write>(
    greatest: u8,
    out: &mut W,
) -> Result<Option<Fault>, CommandFault>
    ensures { IsSeveralEnd (λ n. (n ≡ greatest) × Keeps (W.contents out.old) (W.contents out.new)) result }
{
    match out.flush() {
        Err(_) => Err(CommandFault::File),
        Ok(()) => status_end(greatest),
    }
}
