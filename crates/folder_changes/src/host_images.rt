//! Images of a host that are changed at their paths.
ghost use Rattle.std.specs.Prelude.{◌≡◌, IfOk, IsErr, List, OnOk, length, string_bytes, ℕ, ⊤};
ghost use Rattle.disk_changes.specs.Changes.{IsChanged, IsFit, IsRefused};
ghost use Rattle.disk_changes.specs.declared.changes.Changed.{Changed};
ghost use Rattle.folder_changes.specs.FolderChanges.{IsToldAs};
ghost use Rattle.image_log.specs.life.LogRights.{MayKeepLogOf};

use crate::image_changing::change_image;
use crate::image_replacing::put_image_in;
use command_faults::CommandFault;
use disk_changes::Change;
use image_file::PlainFiles;
use image_log::{HostLogs, ImageFolder, LogNames, forget_making};
use std::alloc::Global;
use std::io::{self, Write};

/// A host that changes the images at its paths, all or nothing.
pub trait HostImages: HostLogs {
    // of the image of these bytes at a path this was made, and stands there, if the host says that
    ghost changed: { Self → (path image : List ℕ) → Changed → Type 0 } = { λ _ _ _ _. ⊤ };

    // the image of these bytes was put at a path, in the place of the image there and of its log, and stands there, if the host
    // says that
    ghost replaced: { Self → (path image : List ℕ) → Type 0 } = { λ _ _ _. ⊤ };

    /// Changes the image of these names, whose open file and bytes these are, and prints the change's text. No log is beside
    /// it, and both are synced. Returns what `change_image` does over its folder. A log in the making that couldn't be made is taken
    /// away again, if the host allows it. The error is that of a file that is no regular one, or has a second name: nothing was
    /// done.
    fn change_at<W: Write>(
        &self,
        alloc: Global,
        names: &LogNames,
        file: Self::File,
        image: &[u8],
        what: &Change<'_>,
        out: &mut W,
    ) -> io::Result<Result<u16, CommandFault>>
        requires log { MayKeepLogOf Self.rights self.now (string_bytes names.now.image) }
        requires fit { IsFit what.now.kind.now }
        ensures run { IfOk result (IsToldAs W.contents
            (λ made. IsChanged what.now image.now made × changed self.now (string_bytes names.now.image) image.now made)
            (IsRefused what.now image.now) ⊤ out.old out.new) }
        ensures quiet { IsErr result → out.new ≡ out.old };

    /// Puts an image in the place of the one of these names, whose open file this is, and of its log. Returns what `put_image_in`
    /// does over its folder. The error is that of a file that is no regular one, or has a second name: nothing was done.
    fn replace_at(
        &self,
        alloc: Global,
        names: &LogNames,
        file: Self::File,
        image: &[u8],
    ) -> io::Result<Result<(), CommandFault>>
        requires log { MayKeepLogOf Self.rights self.now (string_bytes names.now.image) }
        requires size { length image.now ≡ 174848 }
        ensures { IfOk result (λ ended. OnOk ended (replaced self.now (string_bytes names.now.image) image.now)) };
}

impl<R: HostLogs + PlainFiles> HostImages for R {
    fn change_at<W: Write>(
        &self,
        alloc: Global,
        names: &LogNames,
        file: R::File,
        image: &[u8],
        what: &Change<'_>,
        out: &mut W,
    ) -> io::Result<Result<u16, CommandFault>> {
        let mut folder = ImageFolder::new(self, names, file)?;
        let ended = change_image(alloc, &mut folder, image, what, out);
        if let Err(CommandFault::File) = ended {
            // the log in the making that couldn't be made; while the image is locked nobody else makes one
            let _ = forget_making(self, names);
        }
        Ok(ended)
    }

    fn replace_at(
        &self,
        alloc: Global,
        names: &LogNames,
        file: R::File,
        image: &[u8],
    ) -> io::Result<Result<(), CommandFault>> {
        let mut folder = ImageFolder::new(self, names, file)?;
        Ok(put_image_in(alloc, &mut folder, image))
    }
}
