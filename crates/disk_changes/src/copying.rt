//! A file of another image copied into an image.
ghost use Rattle.std.specs.Prelude.{◌≡◌, ◌≤◌, ◌⊎◌, ◌↔◌, ℕ, IfErr, IfOk, IsTrue, List, MatchOption, length};
ghost use Rattle.d64_image.specs.Memory.{disk_image, sectors_in};
ghost use Rattle.disk_changes.specs.Copies.{HasLockOf, IsCopied, IsCopyOf, IsCopyRefusal, IsEmptyCopyOf, IsNoCopyOf};
ghost use Rattle.disk_changes.specs.Copies.{IsNoEmptyCopyOf, IsNoPlainCopyOf, IsPlainCopyOf, IsUnlockedFor};
ghost use Rattle.disk_changes.specs.Copies.{IsNoRecordCopyOf, IsNoTextOf, IsRecordCopyOf, IsTextOf};
ghost use Rattle.disk_changes.specs.Copies.{plain_type as plain_type_of};
ghost use Rattle.disk_layout.specs.Layout.{is_rel, record_length};
ghost use Rattle.file_changes.specs.Deletes.{IsLocked};
ghost use Rattle.rel_records.specs.File.{IsLength};

use crate::changes::{Changed, Lock};
use crate::emptying::{emptied, names_no_block};
use crate::locking::relocked;
use crate::making::made;
use crate::outcomes::{changed, in_memory};
use crate::putting::put;
use crate::storing::stored;
use command_faults::CommandFault;
use d64_image::MemDisk;
use damaged_files::Loss;
use disk_layout::{EntryView, Slot};
use file_changes::FileType;
use file_rescues::{RecordForm, records_image, whole_file};
use std::alloc::Global;

/// The least type byte of a closed entry that is locked.
const LEAST_LOCKED: u8 = 0xC0;

/// The type of a file that isn't relative.
fn plain_type(entry: &Slot) -> Option<FileType>
    ensures { result ≡ plain_type_of entry.now }
{
    match EntryView::new(&entry.bytes).type_byte() % 16 {
        1 => Some(FileType::Seq),
        2 => Some(FileType::Prg),
        3 => Some(FileType::Usr),
        _ => None,
    }
}

/// Whether the entry is that of a closed relative file.
pub(crate) fn is_relative(entry: &Slot) -> bool
    ensures { IsTrue result ↔ IsTrue (is_rel entry.now) }
{
    EntryView::new(&entry.bytes).is_relative()
}

/// Whether the file of a closed entry is locked.
fn is_locked(entry: &Slot) -> bool
    ensures { IsTrue result ↔ IsLocked entry.now }
{
    LEAST_LOCKED <= EntryView::new(&entry.bytes).type_byte()
}

/// The disk on which a file of this name was put, with the lock of an entry.
fn with_lock_of(
    alloc: Global,
    entry: &Slot,
    name: &[u8],
    first: Changed,
) -> Result<MemDisk, CommandFault>
    ensures ok { IfOk result (HasLockOf entry.now name.now first) }
    ensures err { IfErr result (IsUnlockedFor entry.now name.now first) }
{
    if !is_locked(entry) {
        return Ok(first.disk);
    }
    match relocked(alloc, first.disk.bytes(), name, Lock::Set) {
        Ok(second) => Ok(second.disk),
        Err(fault) => Err(fault),
    }
}

/// The image with a new file of this name, which has these bytes, and the type and the lock of an entry. `NoFile` if that is of no
/// PRG, SEQ or USR file.
fn copy_of(
    alloc: Global,
    entry: &Slot,
    content: &[u8],
    to: &[u8],
    image: &[u8],
    cut: Loss,
) -> Result<Changed, CommandFault>
    requires to { length to.now ≤ 16 }
    ensures ok { IfOk result (IsCopyOf entry.now content.now to.now image.now cut) }
    ensures err { IfErr result (IsNoCopyOf entry.now content.now to.now image.now cut) }
{
    let Some(kind) = plain_type(entry) else {
        return Err(CommandFault::NoFile);
    };
    let first = put(alloc, image, to, kind, content, cut)?;
    let disk = with_lock_of(alloc, entry, to, first)?;
    changed(alloc, disk, b"COPIED\n")
}

/// The image with a new file of this name that has no block, and the type and the lock of an entry. `NoFile` if that is of no PRG, SEQ or
/// USR file. A file of one block is put there, which then gives this block back: `DiskFull` if there is none.
fn empty_copy(
    alloc: Global,
    entry: &Slot,
    to: &[u8],
    image: &[u8],
    cut: Loss,
) -> Result<Changed, CommandFault>
    requires to { length to.now ≤ 16 }
    ensures ok { IfOk result (IsEmptyCopyOf entry.now to.now image.now cut) }
    ensures err { IfErr result (IsNoEmptyCopyOf entry.now to.now image.now cut) }
{
    let Some(kind) = plain_type(entry) else {
        return Err(CommandFault::NoFile);
    };
    let first = put(alloc, image, to, kind, &[], cut)?;
    let empty = emptied(alloc, first.disk, to)?;
    let freed = changed(alloc, empty, b"COPIED\n")?;
    let disk = with_lock_of(alloc, entry, to, freed)?;
    changed(alloc, disk, b"COPIED\n")
}

/// The image with a copy of a file that isn't relative, which has these bytes: of one without a block if the entry names none.
fn plain_copy(
    alloc: Global,
    entry: &Slot,
    content: &[u8],
    to: &[u8],
    image: &[u8],
    cut: Loss,
) -> Result<Changed, CommandFault>
    requires to { length to.now ≤ 16 }
    ensures ok { IfOk result (IsPlainCopyOf entry.now content.now to.now image.now cut) }
    ensures err { IfErr result (IsNoPlainCopyOf entry.now content.now to.now image.now cut) }
{
    if names_no_block(entry) {
        return empty_copy(alloc, entry, to, image, cut);
    }
    copy_of(alloc, entry, content, to, image, cut)
}

/// The lines of the records of a source's first closed relative file of that name, as `records_image` prints them. That file isn't cut
/// short.
fn records_text(alloc: Global, source: &[u8], name: &[u8]) -> Result<Vec<u8>, CommandFault>
    ensures ok { IfOk result (λ text. IsTextOf source.now name.now text.items) }
    ensures err { IfErr result (IsNoTextOf source.now name.now) }
{
    let mut text = Vec::new(alloc);
    match records_image(alloc, source, name, RecordForm::Lines, &mut text) {
        Ok(None) => Ok(text),
        Ok(Some(place)) => Err(CommandFault::Short(place)),
        Err(fault) => Err(in_memory(fault)),
    }
}

/// The record length of an entry, if a relative file can have it.
fn record_size(entry: &Slot) -> Option<u8>
    ensures { MatchOption result (¬ (IsLength (record_length entry.now)))
        (λ size. (size ≡ record_length entry.now) × IsLength size) }
{
    match EntryView::new(&entry.bytes).record_length() {
        0 | 255 => None,
        size => Some(size),
    }
}

/// The image with a new relative file of this name, in which these lines are stored, and which has the record length and the lock
/// of an entry. `NoFile` if that record length is none.
fn record_copy(
    alloc: Global,
    entry: &Slot,
    text: &[u8],
    to: &[u8],
    image: &[u8],
    cut: Loss,
) -> Result<Changed, CommandFault>
    requires to { length to.now ≤ 16 }
    ensures ok { IfOk result (IsRecordCopyOf entry.now text.now to.now image.now cut) }
    ensures err { IfErr result (IsNoRecordCopyOf entry.now text.now to.now image.now cut) }
{
    let Some(size) = record_size(entry) else {
        return Err(CommandFault::NoFile);
    };
    let first = made(alloc, image, to, size, cut)?;
    let second = stored(alloc, first.disk.bytes(), to, text, cut)?;
    let disk = with_lock_of(alloc, entry, to, second)?;
    changed(alloc, disk, b"COPIED\n")
}

/// The image with a copy of the records of the first closed relative file of that name, which has the record length and the lock of
/// an entry.
fn relative_copy(
    alloc: Global,
    entry: &Slot,
    source: &[u8],
    name: &[u8],
    to: &[u8],
    image: &[u8],
    cut: Loss,
) -> Result<Changed, CommandFault>
    requires to { length to.now ≤ 16 }
    ensures ok { IfOk result (λ made. (given : List ℕ) × IsTextOf source.now name.now given
        × IsRecordCopyOf entry.now given to.now image.now cut made) }
    ensures err { IfErr result (λ why. IsNoTextOf source.now name.now why
        ⊎ ((given : List ℕ) × IsTextOf source.now name.now given × IsNoRecordCopyOf entry.now given to.now image.now cut why)) }
{
    let text = records_text(alloc, source, name)?;
    record_copy(alloc, entry, text.as_slice(), to, image, cut)
}

/// The image with a copy of the first closed file of that name of another image, which gets the name `to`: of its records if it
/// is relative, otherwise of its bytes; without a block if it has none.
pub(crate) fn copied(
    alloc: Global,
    image: &[u8],
    source: &[u8],
    name: &[u8],
    to: &[u8],
    cut: Loss,
) -> Result<Changed, CommandFault>
    requires to { length to.now ≤ 16 }
    ensures ok { IfOk result (IsCopied source.now name.now to.now image.now cut) }
    ensures err { IfErr result (IsCopyRefusal source.now name.now to.now image.now cut) }
{
    let (entry, content) = whole_file(alloc, source, name)?;
    if is_relative(&entry) {
        return relative_copy(alloc, &entry, source, name, to, image, cut);
    }
    plain_copy(alloc, &entry, content.as_slice(), to, image, cut)
}
