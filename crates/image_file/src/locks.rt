//! Files that one program at a time writes.
ghost use Rattle.std.specs.Prelude.{⊤};

use crate::durability::WritesAt;
use crate::reading::read_image;
use crate::remaining::EndedFile;
use std::alloc::Global;
use std::fs::{File, TryLockError};
use std::io::{self, Read};

/// A file that programs lock before they read or write it. The lock isn't waited for, and it falls with the open file,
/// also if the program dies. It binds programs that ask for it, and no others.
pub trait Locks: WritesAt + EndedFile + Read {
    ghost use Rattle.std.specs.Prelude.{◌≡◌, Err, IfOk, IfSome, OnOk, take, vec_items};
    ghost use Rattle.std.specs.declared.fs.locks.TryLockError.TheVariants.{WouldBlock};

    // another program had a lock on it when it was asked for one
    ghost IsTaken: { Self → Type 0 } = { λ _. ⊤ };

    /// Locks the file for this program alone. `WouldBlock` if another has a lock on it.
    fn lock_alone(&mut self) -> Result<(), TryLockError>
        ensures owned { OnOk result (Self.IsOwned self.new) }
        ensures shared { OnOk result (Self.IsShared self.new) }
        ensures taken { result ≡ Err WouldBlock → IsTaken self.new }
        ensures held { Self.held self.new ≡ Self.held self.old }
        ensures remains { Self.EndedFile.remains.held self.new ≡ Self.EndedFile.remains.held self.old }
        ensures unread { Self.unread self.new ≡ Self.unread self.old };

    /// Locks the file so that others may read it too, and none writes it. `WouldBlock` if another has it alone.
    fn lock_shared(&mut self) -> Result<(), TryLockError>
        ensures shared { OnOk result (Self.IsShared self.new) }
        ensures taken { result ≡ Err WouldBlock → IsTaken self.new }
        ensures held { Self.held self.new ≡ Self.held self.old }
        ensures unread { Self.unread self.new ≡ Self.unread self.old };

    /// The bytes of the image in this file: the first 174,849, or all of them if there are fewer. Nothing was read of it
    /// before. Its error if reading failed, or if there was no memory for them.
    fn image(&mut self, alloc: Global) -> io::Result<Vec<u8>>
        // it is locked first, alone or with others that read it
        requires shared { Self.IsShared self.old }
        ensures ok { IfOk result (λ bytes. IfSome (Self.held self.old) (λ all. vec_items bytes ≡ take 174849 all)) }
        ensures read { IfOk result (λ bytes. IfSome (Self.unread self.old) (λ all. vec_items bytes ≡ take 174849 all)) }
        ensures owned { Self.IsOwned self.old → Self.IsOwned self.new }
        ensures held { Self.held self.new ≡ Self.held self.old }
        ensures lasting { Self.lasting self.new ≡ Self.lasting self.old };

    // what is left of it is what reads give
    ghost reads: { (file : Self) → Self.WritesAt.unread file ≡ Self.Read.remaining file };
}

impl Locks for File {
    ghost use Rattle.std.specs.Prelude.{refl};

    ghost reads = { λ _. refl };

    fn lock_alone(&mut self) -> Result<(), TryLockError> {
        self.try_lock()
    }

    fn lock_shared(&mut self) -> Result<(), TryLockError> {
        self.try_lock_shared()
    }

    fn image(&mut self, alloc: Global) -> io::Result<Vec<u8>> {
        read_image(alloc, self)
    }
}
