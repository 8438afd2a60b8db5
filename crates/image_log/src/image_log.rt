//! A log of a disk's images, as its user sees it.
ghost use Rattle.image_log.specs.ImageLogs.{IsCommitted, LogHistory};
ghost use Rattle.std.specs.Prelude.{◌≡◌, length};

use crate::log::Log;
use crate::log_file::LogFile;
use std::io;

/// A log of a disk's images: what a power loss leaves of it is an image. It makes room for further commits by itself,
/// or takes no more if it is full.
pub trait ImageLog {
    /// What a log of this type stands for, and what a power loss may leave of it.
    ghost history: { LogHistory Self };

    /// Makes the image as it is now durable, by the sectors that were touched since the last commit: `touched[i]` says
    /// that the sector with index i was. At an error it stands for the image before or after, and takes no more commits.
    fn commit(&mut self, now: &[[u8; 256]], touched: &[bool; 683]) -> io::Result<()>
        requires sized { length now.now ≡ 683 }
        ensures { IsCommitted history self.old self.new now.now touched.now result };
}

/// A log that isn't renewed: once it is full, it takes no more commits, and its file is left alone.
impl<F: LogFile> ImageLog for Log<F> {
    ghost use Rattle.image_log.specs.ImageLogs.{of_log};

    ghost history = { of_log };

    fn commit(&mut self, now: &[[u8; 256]], touched: &[bool; 683]) -> io::Result<()> {
        if self.is_full() {
            return Err(io::ErrorKind::StorageFull.into());
        }
        Log::commit(self, now, touched)
    }
}
