//! Images of a snapshot that are changed and replaced.
ghost use Rattle.std.specs.Prelude.{◌≡◌, ◌↔◌, IfOk, IfSome, IsErr, IsOk, IsSome, length, string_bytes};
ghost use Rattle.d64_image.specs.Memory.{sectors_in};
ghost use Rattle.disk_changes.specs.Changes.{IsFit};
ghost use Rattle.image_log.specs.life.Bringing.{RestsAlone};
ghost use Rattle.image_log.specs.life.HostLogs.{untagged_folders};
ghost use Rattle.image_log.specs.life.LogRights.{MayKeepLogOf};
ghost use Rattle.image_log.specs.life.Tags.{SaysLogAway};
ghost use Rattle.image_log.specs.life.MemFolders.{folder_in_memory};
ghost use Rattle.test_files.specs.KnownFolders.{IsChangedIn, IsReplacedIn, snapshot_changed, snapshot_replaced};

use crate::snapshots::host::Snapshot;
use crate::snapshots::open_file::SnapshotFile;
use command_faults::CommandFault;
use d64_image::IMAGE_BYTES;
use disk_changes::Change;
use folder_changes::{HostImages, change_image, put_image_in};
use image_file::HostFiles;
use image_log::{HostLogs, ImageFolder, LogNames, MemFolder, is_log_away, sectors_of};
use std::alloc::Global;
use std::fs::OpenFile;
use std::io::{self, ErrorKind, Write};

/// A folder in memory with this image alone, if it is one. An error if it says that its log is away.
fn folder_with(alloc: Global, image: &[u8]) -> io::Result<Option<MemFolder>>
    ensures rests { IfOk result (λ found. IfSome found (λ folder. RestsAlone folder_in_memory folder (sectors_in image.now))) }
    ensures some { IfOk result (λ found. IsSome found ↔ (length image.now ≡ 174848)) }
    ensures there { IsOk result → SaysLogAway image.now → ⊥ }
{
    if is_log_away(image) {
        return Err(ErrorKind::InvalidData.into());
    }
    if image.len() != IMAGE_BYTES {
        return Ok(None);
    }
    let folder = MemFolder::new(alloc, sectors_of(image))?;
    Ok(Some(folder))
}

/// Changes the image in the folder of this file, and prints the change's text.
fn change_in<F, R, W>(
    rt: &R,
    alloc: Global,
    names: &LogNames,
    file: F,
    image: &[u8],
    what: &Change<'_>,
    out: &mut W,
) -> io::Result<Result<u16, CommandFault>>
where
    F: OpenFile + Drop,
    R: HostFiles<File = F> + HostLogs,
    W: Write,
    requires log { MayKeepLogOf R.rights rt.now (string_bytes names.now.image) }
    requires fit { IsFit what.now.kind.now }
    ensures run { IfOk result (IsChangedIn (untagged_folders R.folders R.HostFiles F.Read F.Seek) (λ d. d.at.image ≡ file) what.now image.now
        W.contents out.old out.new) }
    ensures quiet { IsErr result → out.new ≡ out.old }
{
    let mut folder = ImageFolder::new(rt, names, file)?;
    Ok(change_image(alloc, &mut folder, image, what, out))
}

/// Puts an image in the place of all that the folder of this file has.
fn replace_in<F, R>(
    rt: &R,
    alloc: Global,
    names: &LogNames,
    file: F,
    image: &[u8],
) -> io::Result<Result<(), CommandFault>>
where
    F: OpenFile + Drop,
    R: HostFiles<File = F> + HostLogs,
    requires log { MayKeepLogOf R.rights rt.now (string_bytes names.now.image) }
    requires size { length image.now ≡ 174848 }
    ensures { IfOk result (IsReplacedIn (untagged_folders R.folders R.HostFiles F.Read F.Seek) (λ d. d.at.image ≡ file) image.now) }
{
    let mut folder = ImageFolder::new(rt, names, file)?;
    Ok(put_image_in(alloc, &mut folder, image))
}

// The folder of an image that is changed has the bytes that the caller read of it; that of one that is replaced has those that the
// snapshot says.
impl<'s> HostImages for Snapshot<'s> {
    ghost changed = { snapshot_changed };

    ghost replaced = { snapshot_replaced };

    fn change_at<W: Write>(
        &self,
        alloc: Global,
        names: &LogNames,
        file: SnapshotFile<'s>,
        image: &[u8],
        what: &Change<'_>,
        out: &mut W,
    ) -> io::Result<Result<u16, CommandFault>> {
        let known = folder_with(alloc, image)?;
        change_in(self, alloc, names, file.in_folder(known), image, what, out)
    }

    fn replace_at(
        &self,
        alloc: Global,
        names: &LogNames,
        file: SnapshotFile<'s>,
        image: &[u8],
    ) -> io::Result<Result<(), CommandFault>> {
        let known = folder_with(alloc, self.image)?;
        if known.is_none() {
            return Err(ErrorKind::InvalidData.into());
        }
        replace_in(self, alloc, names, file.in_folder(known), image)
    }
}
