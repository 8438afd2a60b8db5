//! Making the image of an empty shop where nothing stands.
ghost use Rattle.std.specs.Prelude.{◌≤◌};
ghost use Rattle.opened_files.specs.Rights.{MayMakeImage};
ghost use Rattle.shop_jobs.specs.NewShops.{IsNewShopEnd};

use command_faults::CommandFault;
use disk_layout::Fault;
use image_file::{EndedFile, HostFiles, Locks};
use opened_files::{make_image, run_end};
use shop_commands::{fresh_disk, print_whole};
use std::fs::OpenFile;
use std::io::Write;

/// Makes the image of an empty shop with 1 to 64 tills (an odd number gives one more) at a path where nothing stands, and prints
/// `FORMATTED`. `NoMemory` if there is none for the disk; the errors of `make_image`; and `File` if `out` failed, which then
/// has a prefix of what is printed.
pub fn do_format_new<F, R, W>(
    rt: &R,
    path: &str,
    tills: u8,
    out: &mut W,
) -> Result<Option<Fault>, CommandFault>
where
    F: EndedFile + Locks + OpenFile + Drop,
    R: HostFiles<File = F> + AllocGlobal,
    W: Write,
    requires makes { MayMakeImage R.rights rt.now path.now }
    requires some { 1 ≤ tills }
    requires few { tills ≤ 64 }
    ensures { IsNewShopEnd R.traces F.EndedFile.remains W.contents rt.now path.now tills out.old out.new result }
{
    let disk = fresh_disk(rt.alloc(), tills)?;
    make_image(rt, path, None, disk.bytes())?;
    run_end(print_whole(out, b"FORMATTED\n"))
}
