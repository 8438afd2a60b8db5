//! Making the image of an empty shop at a path.
ghost use Rattle.std.specs.Prelude.{◌≡◌, ◌≤◌, IfOk, OnOk, length, string_bytes, true};
ghost use Rattle.opened_files.specs.Rights.{MayChangeImage, MayMakeImage};
ghost use Rattle.image_file.specs.paths.Rights.{MayWrite};
ghost use Rattle.shop_jobs.specs.Formats.{IsFormattedEnd, IsPlaced, IsReplacedAt};

use command_faults::CommandFault;
use d64_image::IMAGE_BYTES;
use disk_layout::Fault;
use folder_changes::HostImages;
use image_file::{EndedFile, HostFiles, Locks};
use image_log::{LogNames, find_log};
use opened_files::{opened_alone, put_image, run_end, see_size, size_of};
use shop_commands::{fresh_disk, print_whole};
use std::fs::OpenFile;
use std::io::Write;

/// The image's file at a path, which this program has alone, and the names of its log. `ImageSize` if it has another size;
/// `File` also if something else than a log stands in the place of its log.
fn image_to_replace<F, R>(rt: &R, path: &str) -> Result<(LogNames, F), CommandFault>
where
    F: Locks + OpenFile + Drop,
    R: HostFiles<File = F> + AllocGlobal,
    requires { MayChangeImage R.rights rt.now path.now }
    ensures { IfOk result (λ found. R.rights.leads rt.now path.now (string_bytes found.0.image) ≡ true) }
{
    let file = opened_alone(rt, path)?;
    see_size(&file)?;
    let names = LogNames::of(rt, rt.alloc(), path)?;
    find_log(rt, &names)?;
    Ok((names, file))
}

/// Puts an image in the place of the one that stands at a path, and of its log, all or nothing.
fn replace_image<F, R>(rt: &R, path: &str, image: &[u8]) -> Result<(), CommandFault>
where
    F: EndedFile + Locks + OpenFile + Drop,
    R: HostFiles<File = F> + HostImages + AllocGlobal,
    requires changes { MayChangeImage R.rights rt.now path.now }
    requires size { length image.now ≡ 174848 }
    ensures { OnOk result (IsReplacedAt R.rights R.replaced rt.now path.now image.now) }
{
    let (names, file) = image_to_replace(rt, path)?;
    match rt.replace_at(rt.alloc(), &names, file, image)? {
        Ok(()) => Ok(()),
        Err(fault) => Err(fault),
    }
}

/// Puts an image at a path. One that stands there is replaced, with its log, all or nothing.
fn place<F, R>(rt: &R, path: &str, image: &[u8]) -> Result<(), CommandFault>
where
    F: EndedFile + Locks + OpenFile + Drop,
    R: HostFiles<File = F> + HostImages + AllocGlobal,
    requires makes { MayMakeImage R.rights rt.now path.now }
    requires changes { MayChangeImage R.rights rt.now path.now }
    requires size { length image.now ≡ 174848 }
    ensures { OnOk result (IsPlaced F.EndedFile.remains R.traces R.rights R.replaced rt.now path.now image.now) }
{
    if size_of(rt, path) == Some(IMAGE_BYTES as u64) {
        return replace_image(rt, path, image);
    }
    put_image(rt, path, image)
}

/// Makes the image of an empty shop with 1 to 64 tills (an odd number gives one more) at a path, and prints `FORMATTED`. An image
/// that stands there is replaced, with its log, all or nothing.
///
/// `NoMemory` if there is none for the disk. `ImageSize`, `InUse`, `TwoNames` or `File`: the image that stood there couldn't be
/// replaced, and stands there; or the errors of `put_image`. `File` also if `out` failed, which then has a prefix of what is
/// printed.
pub fn do_format<F, R, W>(
    rt: &R,
    path: &str,
    tills: u8,
    out: &mut W,
) -> Result<Option<Fault>, CommandFault>
where
    F: EndedFile + Locks + OpenFile + Drop,
    R: HostFiles<File = F> + HostImages + AllocGlobal,
    W: Write,
    requires makes { MayMakeImage R.rights rt.now path.now }
    requires changes { MayChangeImage R.rights rt.now path.now }
    requires some { 1 ≤ tills }
    requires few { tills ≤ 64 }
    ensures { IsFormattedEnd F.EndedFile.remains R.traces R.rights R.replaced W.contents rt.now path.now tills
        out.old out.new result }
{
    let disk = match fresh_disk(rt.alloc(), tills) {
        Ok(disk) => disk,
        Err(fault) => return Err(fault),
    };
    place(rt, path, disk.bytes())?;
    run_end(print_whole(out, b"FORMATTED\n"))
}
