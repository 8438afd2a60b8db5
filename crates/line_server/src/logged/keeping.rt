//! What a session's disk in memory came to, committed to a log.
ghost use Rattle.std.specs.Prelude.{◌≡◌, length};
ghost use Rattle.image_log.specs.Marks.{Covers, NoneTouched};
ghost use Rattle.line_server.specs.logged.Keeping.{IsKept};

use d64_image::{MemDisk, SECTORS};
use image_log::{ImageLog, TouchedDisk};
use std::io;

/// Copies each marked sector of the image of now into the kept image, which is the one committed last. Returns which of
/// them changed.
pub fn take_changes(
    kept: &mut [[u8; 256]],
    now: &[[u8; 256]],
    marked: &[bool; SECTORS],
) -> [bool; SECTORS]
    requires kept { length kept.old ≡ 683 }
    requires now { length now.now ≡ 683 }
    ensures kept { length kept.new ≡ 683 }
    // if every sector that changed is marked, every one is returned, and the image is as it is now
    ensures covers { Covers marked.now kept.old now.now → Covers result kept.old now.now }
    ensures brought { Covers marked.now kept.old now.now → kept.new ≡ now.now }
    // if the disk is unchanged, no sector is returned
    ensures same { kept.old ≡ now.now → NoneTouched result }
{
    let mut touched = [false; SECTORS];
    for i in 0..SECTORS {
        if marked[i] && kept[i] != now[i] {
            kept[i] = now[i];
            touched[i] = true;
        }
    }
    touched
}

/// Commits the disk as it is now to the log, if it isn't the image that was committed last.
pub(crate) fn commit_changes<L: ImageLog>(
    disk: &TouchedDisk<MemDisk>,
    kept: &mut [[u8; 256]],
    log: &mut L,
) -> io::Result<()>
    requires { length kept.old ≡ 683 }
    ensures length { length kept.new ≡ 683 }
    ensures kept { IsKept L.history disk.now kept.old kept.new log.old log.new result }
{
    let (now, _) = disk.disk().bytes().as_chunks::<256>();
    let touched = take_changes(kept, now, disk.touched());
    log.commit(now, &touched)
}
