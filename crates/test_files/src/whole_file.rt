//! A file in memory in which no write leaves a part of itself.
ghost use Rattle.std.specs.Prelude.{◌≡◌};
ghost use Rattle.test_files.specs.Files.{is_whole};

use crate::disk_file::DiskFile;
use image_file::WritesAt;
use std::io;

/// A file whose writes, if they fail, leave what it held. What it holds at any moment is known, and with it what is left
/// if its program dies.
#[derive(Drop)]
pub struct WholeFile {
    file: DiskFile,
    ghost whole: { is_whole file },
}

impl WholeFile {
    ghost use Rattle.test_files.specs.WholeFiles.{file_in};

    /// Such a file.
    pub fn new(file: DiskFile) -> WholeFile
        requires whole { is_whole file }
        ensures { file_in result ≡ file }
    {
        WholeFile { file }
    }

    /// The file.
    pub fn into_inner(self) -> DiskFile
        ensures { result ≡ file_in self }
    {
        let WholeFile { file } = self;
        file
    }
}

impl WritesAt for WholeFile {
    ghost use Rattle.std.specs.Prelude.{◌≡◌, Some};
    ghost use Rattle.test_files.specs.Disks.{disk_bytes};
    ghost use Rattle.test_files.specs.Files.{file_disk, has_failed};
    ghost use Rattle.test_files.specs.WholeFiles.{file_in, whole_file, whole_held};

    ghost held = { λ f. Some (whole_held f) };

    ghost lasting = { λ f. Some (disk_bytes (file_disk (file_in f))) };

    ghost whole = { whole_file };

    ghost has_failed = { λ f. has_failed (file_in f) };

    fn write_all_at(&mut self, bytes: &[u8], at: u64) -> io::Result<()> {
        self.file.write_noted(bytes, at)
    }

    fn sync(&mut self) -> io::Result<()> {
        self.file.bring_noted()
    }
}
