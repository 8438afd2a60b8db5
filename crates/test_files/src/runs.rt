//! Scripts that are played on the shop of a file in memory, which is synced at the end.
ghost use Rattle.std.specs.Prelude.{◌≡◌, Err, OnOk, true};
ghost use Rattle.host_session.specs.events.Events.{messages_of};
ghost use Rattle.line_text.specs.scripts.Lines.{lines};
ghost use Rattle.command_faults.specs.declared.faults.CommandFault.TheVariants as faults;
ghost use Rattle.test_files.specs.Files.{has_failed};
ghost use Rattle.test_files.specs.Shops.{bytes_there};
ghost use Rattle.test_files.specs.WholeFiles.{file_in, whole_held};
ghost use Rattle.test_files.specs.WholeShops.{HoldsAShop, IsPlayedInFile};

use crate::whole_file::WholeFile;
use command_faults::CommandFault;
use d64_image::KeptMirror;
use disk_layout::Fault;
use host_session::Replies;
use image_file::ImageFile;
use shop_jobs::play_durably;
use std::alloc::Global;

/// Plays a script on the shop of the image that the file holds, and syncs it at the end: the file then, and how that
/// ended. If the program dies at any point of it, the file has the shop after a prefix of the lines.
pub fn play_in_file<T: Replies<KeptMirror<ImageFile<WholeFile>>>>(
    alloc: Global,
    image: &[u8],
    script: &[u8],
    file: WholeFile,
    out: &mut T,
) -> (WholeFile, Result<Option<Fault>, CommandFault>)
    requires image { image.now ≡ whole_held file }
    ensures done { OnOk result.1 (IsPlayedInFile T.output script.now file result.0 out.old out.new) }
    // all that it holds then is there
    ensures held { OnOk result.1 (bytes_there (file_in result.0) ≡ whole_held result.0) }
    // however it ended
    ensures stays { HoldsAShop (messages_of (lines script.now)) file result.0 }
    // the device is reported only if a call of the file failed
    ensures device { result.1 ≡ Err faults.Device → has_failed (file_in result.0) ≡ true }
{
    play_durably(alloc, image, script, file, out)
}
