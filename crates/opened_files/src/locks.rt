//! Image files that a job locks, reads, writes and syncs.
ghost use Rattle.std.specs.Prelude.{◌≡◌, IfErr, IfOk, IfSome, OnOk, take, vec_items};
ghost use Rattle.image_file.specs.Durable.{AllStays};
ghost use Rattle.opened_files.specs.HostFiles.{IsUnbegun, IsUnread};

use command_faults::CommandFault;
use disk_layout::Fault;
use image_file::Locks;
use std::alloc::Global;
use std::io;

/// Locks an image's file for this program alone. `InUse`: nothing was read or changed.
pub(crate) fn lock_exclusive<F: Locks>(file: &mut F) -> Result<(), CommandFault>
    ensures owned { OnOk result (F.IsOwned file.new) }
    ensures shared { OnOk result (F.IsShared file.new) }
    ensures untouched { F.held file.new ≡ F.held file.old }
    ensures remains { F.EndedFile.remains.held file.new ≡ F.EndedFile.remains.held file.old }
    ensures unread { F.unread file.new ≡ F.unread file.old }
    ensures err { IfErr result IsUnread }
{
    match file.lock_alone() {
        Ok(()) => Ok(()),
        Err(error) => Err(CommandFault::of_lock(&error)),
    }
}

/// Locks an image's file so that nobody writes it while it is read. `InUse`: nothing was read.
pub(crate) fn lock_shared<F: Locks>(file: &mut F) -> Result<(), CommandFault>
    ensures shared { OnOk result (F.IsShared file.new) }
    ensures untouched { F.held file.new ≡ F.held file.old }
    ensures unread { F.unread file.new ≡ F.unread file.old }
    ensures err { IfErr result IsUnread }
{
    match file.lock_shared() {
        Ok(()) => Ok(()),
        Err(error) => Err(CommandFault::of_lock(&error)),
    }
}

/// The bytes of an image that nobody writes while it is read.
pub fn read_shared<F: Locks>(alloc: Global, file: &mut F) -> io::Result<Vec<u8>>
    requires shared { F.IsShared file.old }
    ensures bytes { IfOk result (λ bytes. IfSome (F.held file.old) (λ all. vec_items bytes ≡ take 174849 all)) }
    ensures read { IfOk result (λ bytes. IfSome (F.unread file.old) (λ all. vec_items bytes ≡ take 174849 all)) }
    ensures untouched { F.held file.new ≡ F.held file.old }
{
    file.image(alloc)
}

/// The bytes of an image that this program has alone.
pub fn read_owned<F: Locks>(alloc: Global, file: &mut F) -> Result<Vec<u8>, CommandFault>
    requires owned { F.IsOwned file.old }
    requires shared { F.IsShared file.old }
    ensures bytes { IfOk result (λ bytes. IfSome (F.held file.new) (λ all. vec_items bytes ≡ take 174849 all)) }
    ensures read { IfOk result (λ bytes. IfSome (F.unread file.old) (λ all. vec_items bytes ≡ take 174849 all)) }
    ensures owned { F.IsOwned file.new }
    ensures untouched { F.held file.new ≡ F.held file.old }
    ensures lasting { F.lasting file.new ≡ F.lasting file.old }
    ensures err { IfErr result IsUnbegun }
{
    match file.image(alloc) {
        Ok(bytes) => Ok(bytes),
        Err(error) => Err(CommandFault::of_io(&error)),
    }
}

/// The same of an image that is to be changed. What its file holds is synced first: an earlier program's writes may still
/// be on their way. `Device` if that failed.
pub fn read_synced<F: Locks>(alloc: Global, file: &mut F) -> Result<Vec<u8>, CommandFault>
    requires owned { F.IsOwned file.old }
    requires shared { F.IsShared file.old }
    ensures read { IfOk result (λ bytes. IfSome (F.unread file.old) (λ all. vec_items bytes ≡ take 174849 all)) }
    ensures synced { OnOk result (AllStays F.held F.lasting file.new) }
    ensures owned { F.IsOwned file.new }
    ensures err { IfErr result IsUnbegun }
{
    match file.sync() {
        Ok(()) => read_owned(alloc, file),
        Err(_) => Err(CommandFault::Device),
    }
}
