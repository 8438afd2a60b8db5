//! Files that are overwritten, and what may remain of them after a power loss.
ghost use Rattle.std.specs.Prelude.{◌≡◌, OnOk, bit_and};
ghost use Rattle.std.specs.Fs.{metadata_mode};
ghost use Rattle.image_file.specs.Remains.{IsBroughtWhole, IsEndedBehind, IsFinished, IsPutOver, Remains, unknown};

use std::fs::{File, Metadata, Permissions};
use std::io;
use std::os::unix::fs::{FileExt, MetadataExt, PermissionsExt, fchown};

/// A file that can be written over at any place and ended after any byte.
pub trait EndedFile {
    // what is known of the bytes that it holds, and of those that remain after a power loss
    ghost remains: { Remains Self } = { unknown };

    /// Writes all these bytes over those from that place on; zeros fill what was missing before it. At an error a part
    /// of them may be written.
    fn write_over(&mut self, bytes: &[u8], at: u64) -> io::Result<()>
        ensures { IsPutOver remains self.old self.new bytes.now at result };

    /// Ends the file after this many bytes: what it held after them is gone, and zeros fill what was missing.
    fn end_at(&mut self, bytes: u64) -> io::Result<()>
        ensures { IsEndedBehind remains self.old self.new bytes result };

    /// Syncs all that it holds, and its length.
    fn sync_whole(&mut self) -> io::Result<()>
        ensures { IsBroughtWhole remains self.old self.new result };

    /// Nothing more is written, and all is synced: a file that was made under another name gets its own.
    fn finish(&mut self) -> io::Result<()>
        ensures { IsFinished remains self.old self.new };

    /// Lets those people read and write it who may do so with the file that this metadata describes, as far as the system
    /// allows that, and nobody else.
    fn guard_as(&self, _like: &Metadata) {}
}

/// The mode of a file in the making that is to be guarded as another: only its owner may use it.
pub fn private_mode(like: &Metadata) -> u32
    ensures { result ≡ bit_and (metadata_mode like.now) 0o600 }
{
    like.mode() & 0o600
}

/// The mode of a file that has another group than the one like which it is guarded: its group may do what all others may.
fn ungrouped(mode: u32) -> u32 {
    mode & 0o606 | mode << 3 & 0o060 & mode
}

impl EndedFile for File {
    fn write_over(&mut self, bytes: &[u8], at: u64) -> io::Result<()> {
        FileExt::write_all_at(self, bytes, at)
    }

    fn end_at(&mut self, bytes: u64) -> io::Result<()> {
        self.set_len(bytes)
    }

    fn sync_whole(&mut self) -> io::Result<()> {
        self.sync_all()
    }

    fn finish(&mut self) -> io::Result<()> {
        Ok(())
    }

    // a file that can't be given away has its maker as its owner
    fn guard_as(&self, like: &Metadata) {
        let (owner, group) = (Some(like.uid()), Some(like.gid()));
        let mode = if fchown(self, owner, group).is_ok() || fchown(self, None, group).is_ok() {
            like.mode() & 0o666
        } else {
            ungrouped(like.mode())
        };
        // a system without modes keeps its own
        let _ = self.set_permissions(Permissions::from_mode(mode));
    }
}
