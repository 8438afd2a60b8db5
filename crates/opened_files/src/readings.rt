//! The bytes of an image that is read: its file is opened, locked and read.
ghost use Rattle.std.specs.Prelude.{◌≡◌, IfErr, IfOk, IfSome, take, vec_items};
ghost use Rattle.opened_files.specs.Extents.{taken_as};
ghost use Rattle.opened_files.specs.HostFiles.{IsUnbegun, OfImage, OfImageFile};
ghost use Rattle.opened_files.specs.Rights.{MayReadFile, MayReadImage};
ghost use Rattle.damaged_files.specs.reached.Sizes.{disk_of};

use crate::extents::Extent;
use crate::files::STANDARD_INPUT;
use crate::image_logs::{logged_image, opened_shared};
use crate::locks::read_shared;
use command_faults::CommandFault;
use damaged_files::{LARGEST_IMAGE, disk_in};
use image_file::{HostFiles, Locks, read_image, read_script};
use std::alloc::Global;
use std::fs::OpenFile;
use std::io::{self, Read};

/// How many bytes of a longer image are read: one more than the largest has, which is enough to see that there are too many.
const MOST_READ: u64 = LARGEST_IMAGE as u64 + 1;

/// The bytes of the image at a path as its shop is now: of its log, if one stands beside it. Nobody begins to write the
/// image while it is read.
pub fn image_of_file<F, R>(rt: &R, path: &str) -> Result<Vec<u8>, CommandFault>
where
    F: Locks + OpenFile + Drop,
    R: HostFiles<File = F> + AllocGlobal,
    requires { MayReadFile R.rights rt.now path.now }
    ensures read { OfImageFile R.rights R.stands rt.now path.now
        (λ all. IfOk result (λ image. vec_items image ≡ take 174849 all)) }
    ensures err { IfErr result IsUnbegun }
{
    let mut file = opened_shared(rt, path)?;
    match logged_image(rt, path, &file)? {
        Some(image) => Ok(read_image(rt.alloc(), image.as_slice().as_flattened())?),
        None => Ok(read_shared(rt.alloc(), &mut file)?),
    }
}

/// The bytes of the image at a path, as its shop is now, or of standard input.
pub fn image_at<F, R>(rt: &R, path: &str) -> Result<Vec<u8>, CommandFault>
where
    F: Locks + OpenFile + Drop,
    R: HostFiles<File = F> + Input + AllocGlobal,
    requires { MayReadImage R.rights rt.now path.now }
    ensures read { OfImage R.rights R.stands rt.now path.now
        (λ all. IfOk result (λ image. vec_items image ≡ take 174849 all)) }
    ensures err { IfErr result IsUnbegun }
{
    if path == STANDARD_INPUT {
        return Ok(read_image(rt.alloc(), rt.reader())?);
    }
    image_of_file(rt, path)
}

/// The bytes that a reader has, up to one more than the largest image has.
fn read_long<R: Read + Drop>(alloc: Global, reader: R) -> io::Result<Vec<u8>>
    ensures { IfOk result (λ bytes. IfSome (R.remaining reader) (λ all. vec_items bytes ≡ take 206115 all)) }
{
    read_script(alloc, reader.take(MOST_READ), MOST_READ as usize)
}

/// The bytes of an image's file, up to one more than the largest image has.
fn read_long_file<F: Locks + Drop>(alloc: Global, file: F) -> io::Result<Vec<u8>>
    ensures { IfOk result (λ bytes. IfSome (F.unread file) (λ all. vec_items bytes ≡ take 206115 all)) }
{
    read_long(alloc, file)
}

/// The bytes of the image at a path, as its shop is now, or of standard input: up to one more than the largest image of 42 tracks
/// has.
pub fn long_image_at<F, R>(rt: &R, path: &str) -> Result<Vec<u8>, CommandFault>
where
    F: Read + Locks + OpenFile + Drop,
    R: HostFiles<File = F> + Input + AllocGlobal,
    requires { MayReadImage R.rights rt.now path.now }
    ensures read { OfImage R.rights R.stands rt.now path.now
        (λ all. IfOk result (λ image. vec_items image ≡ take 206115 all)) }
    ensures err { IfErr result IsUnbegun }
{
    if path == STANDARD_INPUT {
        return Ok(read_long(rt.alloc(), rt.reader())?);
    }
    let file = opened_shared(rt, path)?;
    match logged_image(rt, path, &file)? {
        Some(image) => Ok(read_long(rt.alloc(), image.as_slice().as_flattened())?),
        None => Ok(read_long_file(rt.alloc(), file)?),
    }
}

/// Cuts off what comes after the first 35 tracks of an image of 40 or 42.
fn cut_to_disk(image: &mut Vec<u8>)
    ensures { vec_items image.new ≡ disk_of (vec_items image.old) }
{
    let length = disk_in(image.as_slice()).len();
    image.truncate(length);
}

/// The same of longer images: their first 35 tracks.
fn first_tracks_at<F, R>(rt: &R, path: &str) -> Result<Vec<u8>, CommandFault>
where
    F: Read + Locks + OpenFile + Drop,
    R: HostFiles<File = F> + Input + AllocGlobal,
    requires { MayReadImage R.rights rt.now path.now }
    ensures read { OfImage R.rights R.stands rt.now path.now
        (λ all. IfOk result (λ image. vec_items image ≡ disk_of (take 206115 all))) }
    ensures err { IfErr result IsUnbegun }
{
    let mut image = long_image_at(rt, path)?;
    cut_to_disk(&mut image);
    Ok(image)
}

/// What a command that takes images of this extent takes of the image at a path, as its shop is now, or of standard input.
pub fn image_as<F, R>(rt: &R, extent: Extent, path: &str) -> Result<Vec<u8>, CommandFault>
where
    F: Read + Locks + OpenFile + Drop,
    R: HostFiles<File = F> + Input + AllocGlobal,
    requires { MayReadImage R.rights rt.now path.now }
    ensures read { OfImage R.rights R.stands rt.now path.now
        (λ all. IfOk result (λ image. vec_items image ≡ taken_as extent all)) }
    ensures err { IfErr result IsUnbegun }
{
    match extent {
        Extent::Disk => image_at(rt, path),
        Extent::FirstTracks => first_tracks_at(rt, path),
        Extent::Whole => long_image_at(rt, path),
    }
}
