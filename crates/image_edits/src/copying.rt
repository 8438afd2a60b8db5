//! Copies of images, as their shops are now.
ghost use Rattle.std.specs.Prelude.{◌≡◌, codes, length};
ghost use Rattle.image_edits.specs.Copies.{IsCopyEnd};
ghost use Rattle.image_edits.specs.EditRuns.{IsCopiedFrom};
ghost use Rattle.opened_files.specs.Makings.{IsMadeAt, IsNewEnd};
ghost use Rattle.opened_files.specs.Rights.{MayMakeImage, MayReadImage};

use command_faults::CommandFault;
use d64_image::IMAGE_BYTES;
use disk_layout::Fault;
use image_file::{EndedFile, HostFiles, Locks};
use opened_files::{image_at, make_image, metadata_of, run_end};
use shop_commands::print_whole;
use std::fs::{Metadata, OpenFile};
use std::io::{Read, Write};

/// Makes an image at a path, as `make_image` does, and prints this.
pub(crate) fn make_told<F, R, W>(
    rt: &R,
    path: &str,
    like: Option<Metadata>,
    image: &[u8],
    said: &[u8],
    out: &mut W,
) -> Result<Option<Fault>, CommandFault>
where
    F: EndedFile + Locks + OpenFile + Drop,
    R: HostFiles<File = F> + AllocGlobal,
    W: Write,
    requires makes { MayMakeImage R.rights rt.now path.now }
    requires size { length image.now ≡ 174848 }
    ensures { IsNewEnd W.contents (IsMadeAt F.EndedFile.remains R.traces rt.now path.now image.now) said.now
        out.old out.new result }
{
    make_image(rt, path, like, image)?;
    run_end(print_whole(out, said))
}

/// Makes a copy of this image at a path, and prints `COPIED`. `ImageSize`: nothing was done.
fn copy_read<F, R, W>(
    rt: &R,
    copy: &str,
    like: Option<Metadata>,
    image: &[u8],
    out: &mut W,
) -> Result<Option<Fault>, CommandFault>
where
    F: EndedFile + Locks + OpenFile + Drop,
    R: HostFiles<File = F> + AllocGlobal,
    W: Write,
    requires makes { MayMakeImage R.rights rt.now copy.now }
    ensures { IsCopyEnd R.traces F.EndedFile.remains W.contents rt.now copy.now (codes "COPIED\n") image.now
        out.old out.new result }
{
    if image.len() != IMAGE_BYTES {
        return Err(CommandFault::ImageSize);
    }
    make_told(rt, copy, like, image, b"COPIED\n", out)
}

/// Copies the image at a path, as its shop is now, to a file at another path, at which there must be none, and prints `COPIED`.
/// The copy is made for the people who may use the image. `ImageSize`: nothing was done. The other errors are those of
/// `image_at` and of `make_image`; and `File` if `out` failed, which then has a prefix of what is printed.
pub fn do_copying<F, R, W>(
    rt: &R,
    path: &str,
    copy: &str,
    out: &mut W,
) -> Result<Option<Fault>, CommandFault>
where
    F: EndedFile + Read + Locks + OpenFile + Drop,
    R: HostFiles<File = F> + Input + AllocGlobal,
    W: Write,
    requires image { MayReadImage R.rights rt.now path.now }
    requires copy { MayMakeImage R.rights rt.now copy.now }
    ensures { IsCopiedFrom R.rights R.stands R.traces F.EndedFile.remains W.contents rt.now path.now copy.now
        out.old out.new result }
{
    let image = image_at(rt, path)?;
    copy_read(rt, copy, metadata_of(rt, path), image.as_slice(), out)
}
