//! A contact sheet of images, each read as if it were alone.
ghost use Rattle.std.specs.Prelude.{All, IfOk, map, IfErr};
ghost use Rattle.image_looks.specs.EachImage.{IsCutOff, as_loaded, IsReadAt};
ghost use Rattle.image_looks.specs.SheetPages.{IsSheetPrinted, IsTileOf, IsUnreadTile};
ghost use Rattle.image_looks.specs.LookRuns.{AreDrawnOnSheet};
ghost use Rattle.opened_files.specs.Rights.{MayReadImage};
ghost use Rattle.opened_files.specs.declared.extents.Extent.TheVariants as extents;

use crate::each_image::{PrintsImage, print_each, status_end};
use command_faults::CommandFault;
use disk_layout::Fault;
use disk_pictures::{sheet_begin, sheet_finish, sheet_refusal, sheet_tile};
use image_file::{HostFiles, Locks};
use opened_files::Extent;
use std::alloc::Global;
use std::fs::OpenFile;
use std::io::{Read, Write};

/// Prints the tile of an image that can't be read, with what the command would report of it alone. Returns its exit
/// status.
fn print_unread<W: Write>(
    alloc: Global,
    path: &str,
    refusal: CommandFault,
    out: &mut W,
) -> Result<u8, CommandFault>
    ensures ok { IfOk result (IsUnreadTile W.contents path.now refusal out.old out.new) }
    ensures err { IfErr result IsCutOff }
{
    let Ok(told) = format!(in alloc; "{refusal}") else {
        return Err(CommandFault::NoMemory);
    };
    sheet_refusal(path, told.as_str(), out)?;
    Ok(refusal.status())
}

/// Prints the tile of the image at a path, of which this was read, and returns the exit status that its picture alone would
/// have.
// Out of line: its frame is large, and a frame touches each page of it.
#[inline(never)]
fn print_tile_of<W: Write>(
    alloc: Global,
    path: &str,
    read: Result<Vec<u8>, CommandFault>,
    out: &mut W,
) -> Result<u8, CommandFault>
    ensures ok { IfOk result (IsTileOf W.contents path.now (as_loaded read) out.old out.new) }
    ensures err { IfErr result IsCutOff }
{
    match read {
        Ok(image) => sheet_tile(alloc, path, image.as_slice(), out),
        Err(refusal) => print_unread(alloc, path, refusal, out),
    }
}

/// Images that have a tile each on a sheet.
#[derive(Clone, Copy)]
struct Tiled;

impl<R: HostFiles + AllocGlobal, W: Write> PrintsImage<R, W> for Tiled {
    ghost prints = { λ _. IsTileOf W.contents };

    fn print(
        &self,
        rt: &R,
        path: &str,
        read: Result<Vec<u8>, CommandFault>,
        out: &mut W,
    ) -> Result<u8, CommandFault> {
        print_tile_of(rt.alloc(), path, read, out)
    }
}

/// Prints the sheet of the images at these paths, and returns the greatest exit status of theirs.
fn print_sheet<F, R, W>(rt: &R, paths: &[&str], out: &mut W) -> Result<u8, CommandFault>
where
    F: Read + Locks + OpenFile + Drop,
    R: HostFiles<File = F> + Input + AllocGlobal,
    W: Write,
    requires { All (λ path. MayReadImage R.rights rt.now path.now) paths.now }
    ensures ok { IfOk result (IsSheetPrinted (IsReadAt R.rights R.stands rt.now extents.Whole) W.contents
        (map (λ path. path.now) paths.now) out.old out.new) }
    ensures err { IfErr result IsCutOff }
{
    sheet_begin(out, paths.len())?;
    let greatest = print_each(rt, &Tiled, Extent::Whole, paths, out)?;
    sheet_finish(out)?;
    Ok(greatest)
}

/// Draws the images at these paths on a contact sheet, in their order. An image is locked with others that read it while
/// it is read, and one image is in memory at a time.
///
/// `Several`: an image has a fault or is refused, as its tile says. `File` if the output failed, and `NoMemory`.
pub fn do_sheet<F, R, W>(rt: &R, paths: &[&str], out: &mut W) -> Result<Option<Fault>, CommandFault>
where
    F: Read + Locks + OpenFile + Drop,
    R: HostFiles<File = F> + Input + AllocGlobal,
    W: Write,
    requires { All (λ path. MayReadImage R.rights rt.now path.now) paths.now }
    ensures { AreDrawnOnSheet R.rights R.stands W.contents rt.now (map (λ path. path.now) paths.now) out.old out.new result }
{
    let greatest = print_sheet(rt, paths, out)?;
    status_end(greatest)
}
