//! Files that are written at places, and synced.
ghost use Rattle.std.specs.Prelude.{◌≡◌, Bool, List, None, OnErr, OnOk, Option, ℕ, true, ⊤};
ghost use Rattle.image_file.specs.Lasting.{Whole};

use std::fs::File;
use std::io;
use std::os::unix::fs::FileExt;

/// A file that is written at places.
pub trait WritesAt {
    ghost use Rattle.std.specs.Prelude.{◌≡◌, OnErr, OnOk};
    ghost use Rattle.image_file.specs.Durable.{AllStays, WritesOver};
    ghost use Rattle.image_file.specs.Lasting.{IsSectorIn, StaysOr, TakesSector};

    // the bytes that it holds, if they are known
    ghost held: { Self → Option (List ℕ) } = { λ _. None };

    // the bytes that stay if the machine loses power, if they are known
    ghost lasting: { Self → Option (List ℕ) } = { λ _. None };

    // the bytes that it holds, if it is known that a write that fails stands there whole or not at all
    ghost whole: { Whole held };

    // nobody else writes it; and nobody else reads it either
    ghost IsShared: { Self → Type 0 } = { λ _. ⊤ };

    ghost IsOwned: { Self → Type 0 } = { λ _. ⊤ };

    // the bytes that reads give from here on, if they are known
    ghost unread: { Self → Option (List ℕ) } = { λ _. None };

    // whether one of its calls may have failed
    ghost has_failed: { Self → Bool } = { λ _. true };

    /// Writes all these bytes over those from that place on, in bytes from the file's start. At an error a prefix of them
    /// was written.
    fn write_all_at(&mut self, bytes: &[u8], at: u64) -> io::Result<()>
        ensures written { WritesOver (held self.old) (held self.new) at bytes.now result }
        ensures whole { IsSectorIn (whole.lasting.bytes self.old) at bytes.now
            → TakesSector whole.lasting self.old self.new at bytes.now result }
        ensures failed { OnErr result (has_failed self.new ≡ true) }
        ensures passed { OnOk result (has_failed self.new ≡ has_failed self.old) };

    /// Syncs what it holds, whichever program wrote it. At an error any of what wasn't there may be, or not, and a
    /// further sync says nothing: the caller doesn't go on.
    fn sync(&mut self) -> io::Result<()>
        ensures same { held self.new ≡ held self.old }
        ensures lasting { OnOk result (AllStays held lasting self.new) }
        ensures failed { OnErr result (has_failed self.new ≡ true) }
        ensures passed { OnOk result (has_failed self.new ≡ has_failed self.old) }
        ensures whole { StaysOr whole.lasting self.old self.new (whole.lasting.bytes self.old) }
        ensures owned { IsOwned self.old → IsOwned self.new }
        ensures shared { IsShared self.old → IsShared self.new }
        ensures unread { unread self.new ≡ unread self.old };
}

impl WritesAt for File {
    ghost use Rattle.image_file.specs.Lasting.{unknown_whole};

    ghost whole = { unknown_whole };

    // In line, as all on the way to the file is: a return right after a call of the system is dear.
    #[inline(always)]
    fn write_all_at(&mut self, bytes: &[u8], at: u64) -> io::Result<()> {
        FileExt::write_all_at(self, bytes, at)
    }

    fn sync(&mut self) -> io::Result<()> {
        self.sync_data()
    }
}
