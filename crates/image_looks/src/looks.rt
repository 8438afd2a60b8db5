//! What is printed of one image: over its bytes, and over those at a path.
ghost use Rattle.std.specs.Prelude.{◌≡◌};
ghost use Rattle.image_looks.specs.LookRuns.{IsLookedAt};
ghost use Rattle.image_looks.specs.Looks.{IsAsIs, IsLook, IsShowEnd, taken_end as end_of};
ghost use Rattle.opened_files.specs.Rights.{MayReadImage};

use crate::kinds::{DiskLook, Look};
use crate::reporting::{Report, faults_image, report_image};
use command_faults::CommandFault;
use d64_image::Place;
use damaged_files::disk_in;
use disk_layout::Fault;
use disk_pictures::{free_image, sector_image};
use disk_reports::{check_image, list_image};
use file_rescues::{bytes_image, file_records_image};
use image_file::{HostFiles, Locks};
use opened_files::{Loss, image_as, run_end, see_log_away};
use shop_commands::show_image;
use std::alloc::Global;
use std::fs::OpenFile;
use std::io::{Read, Write};

/// How it ended that a file was taken out: it is all there is of it, or it is cut short there.
fn taken_end(ended: Result<Option<Place>, CommandFault>) -> Result<Option<Fault>, CommandFault>
    ensures { result ≡ end_of ended }
{
    match ended {
        Ok(None) => Ok(None),
        Ok(Some(place)) => Err(CommandFault::Short(place)),
        Err(fault) => Err(fault),
    }
}

/// Prints what an image holds of a shop.
fn print_shop<W: Write>(
    alloc: Global,
    image: &[u8],
    loss: Loss,
    out: &mut W,
) -> Result<Option<Fault>, CommandFault>
    ensures { IsShowEnd W.contents loss image.now out.old out.new result }
{
    see_log_away(image, loss)?;
    run_end(show_image(alloc, image, out))
}

/// Prints what is asked of the disk in an image that may have more tracks, or error bytes.
fn look_as_is<W: Write>(
    alloc: Global,
    what: DiskLook,
    image: &[u8],
    out: &mut W,
) -> Result<Option<Fault>, CommandFault>
    ensures { IsAsIs W.contents what image.now out.old out.new result }
{
    match what {
        DiskLook::List(form) => run_end(list_image(alloc, disk_in(image), form, out)),
        DiskLook::Check => report_image(alloc, Report::Verdict, image, out),
        DiskLook::Faults => report_image(alloc, Report::Faults, image, out),
        DiskLook::Show(loss) => print_shop(alloc, disk_in(image), loss, out),
    }
}

/// Prints what is asked of an image, and hands on what the output held back. Returns the fault that a check of it reports, if
/// that is printed.
///
/// `ImageSize`, `NoMemory`, and what the command of this look finds wrong with the image: nothing was printed then, unless
/// the records or bytes of a damaged file are. `File` if the output failed, which may then have a part. `Short` if the file
/// that was printed is cut short. `Trimmed`: a check found no fault, and lines that were printed say what isn't on the disk of
/// the image. `LogAway` if a shop is to be shown whose log has the rest, and that loss isn't accepted:
/// nothing was printed.
pub fn look<W: Write>(
    alloc: Global,
    what: &Look,
    image: &[u8],
    out: &mut W,
) -> Result<Option<Fault>, CommandFault>
    ensures { IsLook W.contents what.now image.now out.old out.new result }
{
    match *what {
        Look::List(form) => run_end(list_image(alloc, image, form, out)),
        Look::Check => check_image(alloc, image, out),
        Look::Faults => faults_image(alloc, image, out),
        Look::Show(loss) => print_shop(alloc, image, loss, out),
        Look::AsIs(disk) => look_as_is(alloc, disk, image, out),
        Look::Map => report_image(alloc, Report::Map, image, out),
        Look::Picture => report_image(alloc, Report::Picture, image, out),
        Look::Poster => report_image(alloc, Report::Poster, image, out),
        Look::Free => run_end(free_image(alloc, image, out)),
        Look::Sector(place) => run_end(sector_image(alloc, image, place, out)),
        Look::Records {
            form,
            candidates,
            ref name,
        } => taken_end(file_records_image(alloc, image, candidates, name.as_bytes(), form, out)),
        Look::Bytes {
            form,
            candidates,
            ref name,
        } => taken_end(bytes_image(alloc, image, candidates, name.as_bytes(), form, out)),
    }
}

/// Prints what is asked of the image at a path, as its shop is now. If the image has 40 or 42 tracks, or error bytes, this is what
/// stands on the first 35 tracks, unless the look takes a disk of 35 tracks alone.
pub fn do_look<F, R, W>(
    rt: &R,
    what: &Look,
    path: &str,
    out: &mut W,
) -> Result<Option<Fault>, CommandFault>
where
    F: Read + Locks + OpenFile + Drop,
    R: HostFiles<File = F> + Input + AllocGlobal,
    W: Write,
    requires { MayReadImage R.rights rt.now path.now }
    ensures { IsLookedAt R.rights R.stands W.contents rt.now what.now path.now out.old out.new result }
{
    let image = image_as(rt, what.extent(), path)?;
    look(rt.alloc(), what, image.as_slice(), out)
}
