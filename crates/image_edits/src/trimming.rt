//! Tracks 1 to 35 of an image of another size, over its bytes and over its file.
ghost use Rattle.std.specs.Prelude.{◌≡◌, take};
ghost use Rattle.opened_files.specs.HostFiles.{OfImage, TrimEnds};
ghost use Rattle.opened_files.specs.Ends.{EndsAs};
ghost use Rattle.image_edits.specs.Trims.{IsTrimRun, as_trimmed};
ghost use Rattle.opened_files.specs.Rights.{MayReadImage};

use command_faults::CommandFault;
use disk_layout::Fault;
use disk_pictures::trim_image;
use image_file::{HostFiles, Locks};
use opened_files::long_image_at;
use std::alloc::Global;
use std::fs::OpenFile;
use std::io::{Read, Write};

/// The end of a job that trimmed an image.
fn trimmed_end(ended: Result<bool, CommandFault>) -> Result<Option<Fault>, CommandFault>
    ensures { result ≡ as_trimmed ended }
{
    match ended {
        Ok(true) => Ok(None),
        Ok(false) => Err(CommandFault::Trimmed),
        Err(fault) => Err(fault),
    }
}

/// Prints tracks 1 to 35 of an image, and on `err` what isn't there, as `trim_image` does. The error is `Trimmed` if
/// something was reported on `err`.
pub fn trim_run<W: Write, E: Write>(
    alloc: Global,
    image: &[u8],
    out: &mut W,
    err: &mut E,
) -> Result<Option<Fault>, CommandFault>
    ensures { EndsAs as_trimmed result
        (IsTrimRun W.contents E.contents image.now out.old out.new err.old err.new) }
{
    trimmed_end(trim_image(alloc, image, out, err))
}

/// Prints tracks 1 to 35 of the image at a path, and on `err` what isn't there.
pub fn do_trim<F, R, W, E>(
    rt: &R,
    path: &str,
    out: &mut W,
    err: &mut E,
) -> Result<Option<Fault>, CommandFault>
where
    F: Read + Locks + OpenFile + Drop,
    R: HostFiles<File = F> + Input + AllocGlobal,
    W: Write,
    E: Write,
    requires { MayReadImage R.rights rt.now path.now }
    ensures { OfImage R.rights R.stands rt.now path.now (λ all. TrimEnds out.old out.new err.old err.new result
        (EndsAs as_trimmed result (IsTrimRun W.contents E.contents (take 206115 all) out.old out.new err.old err.new))) }
{
    let image = long_image_at(rt, path)?;
    trim_run(rt.alloc(), image.as_slice(), out, err)
}
