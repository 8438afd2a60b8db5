//! An image written over a file, so that a power loss leaves the old bytes, no disk, or the new one.
ghost use Rattle.std.specs.Prelude.{◌≡◌, length};
ghost use Rattle.image_file.specs.Replacing.{AllAreFilled, AllAreSpoiled, IsFilling, IsReplaced, IsSealing, IsSpoiling};

use crate::remaining::EndedFile;
use d64_image::IMAGE_BYTES;
use std::io;

/// The byte of an image at which the first sector of the directory, 18/1, begins.
pub const DIRECTORY_START: usize = 91_648;

/// The byte of an image at which the sector after it begins.
pub const DIRECTORY_END: usize = 91_904;

/// A first sector of a directory that links to track 255, which no disk has.
pub const SPOILED_DIRECTORY: [u8; 256] = [255; 256];

/// Spoils the directory of the image that a file may hold, and syncs that.
fn spoil<F: EndedFile>(file: &mut F) -> io::Result<()>
    ensures { IsSpoiling F.remains file.old file.new result }
{
    file.write_over(&SPOILED_DIRECTORY, DIRECTORY_START as u64)?;
    file.sync_whole()
}

/// Writes all of an image except the first sector of its directory over a file in which that sector is spoiled, and
/// syncs that.
fn fill<F: EndedFile>(file: &mut F, image: &[u8]) -> io::Result<()>
    requires size { length image.now ≡ 174848 }
    requires spoiled { AllAreSpoiled F.remains file.old }
    ensures { IsFilling F.remains file.old file.new image.now result }
{
    file.write_over(&image[..DIRECTORY_START], 0)?;
    file.write_over(&image[DIRECTORY_END..], DIRECTORY_END as u64)?;
    file.end_at(IMAGE_BYTES as u64)?;
    file.sync_whole()
}

/// Writes the first sector of an image's directory into a file that has the rest of the image, and syncs it.
fn seal<F: EndedFile>(file: &mut F, image: &[u8]) -> io::Result<()>
    requires size { length image.now ≡ 174848 }
    requires filled { AllAreFilled F.remains file.old image.now }
    ensures { IsSealing F.remains file.old file.new image.now result }
{
    file.write_over(
        &image[DIRECTORY_START..DIRECTORY_END],
        DIRECTORY_START as u64,
    )?;
    file.sync_whole()
}

/// Replaces all that a file holds with an image. If power fails on the way, there remains what could remain before, or
/// bytes that aren't the image of a sound disk, or the image. At Ok the image remains. At an error any of the three
/// may: the file may be spoiled. A file that was made for it gets its name at the end.
pub fn replace_image<F: EndedFile>(file: &mut F, image: &[u8]) -> io::Result<()>
    requires size { length image.now ≡ 174848 }
    ensures { IsReplaced F.remains file.old file.new image.now result }
{
    spoil(file)?;
    fill(file, image)?;
    seal(file, image)?;
    file.finish()
}
