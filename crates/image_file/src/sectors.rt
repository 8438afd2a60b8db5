//! A file that keeps the sectors of a disk at their places.
ghost use Rattle.std.specs.Prelude.{◌≤◌, ◌≡◌, true, List, ℕ, Some, length};
ghost use Rattle.image_file.specs.Lasting.{seen};

use crate::durability::WritesAt;
use d64_image::{IMAGE_BYTES, Place, SectorFile};
use std::io;

/// A file that has a sector at 256 times its index. Writing at a place needs no seek, so one call of the system writes a
/// sector, if the system takes it at once.
#[derive(Drop)]
pub struct ImageFile<F: WritesAt> {
    file: F,
    /// It is the file of an image.
    sized: bool,
    taken: u64,
    failed: u64,
    ghost fits: { failed ≤ 18446744073709551615 },
    ghost whole: { (all : List ℕ) → (seen F.whole.lasting sized).bytes file ≡ Some all → length all ≡ 174848 },
    ghost blamed: { 1 ≤ failed → F.has_failed file ≡ true },
}

impl<F: WritesAt> ImageFile<F> {
    ghost use Rattle.std.specs.Prelude.{IfSome, take};
    ghost use Rattle.image_file.specs.ImageFile.{BringsAll, IsLoaded, placed, placed_file};

    /// The file. It took no sector, and hasn't failed.
    pub fn new(file: F) -> ImageFile<F>
        ensures file { placed_file result ≡ file }
        ensures untaken { placed.writes result ≡ 0 }
        ensures unfailed { placed.failures result ≡ 0 }
    {
        ImageFile {
            file,
            sized: false,
            taken: 0,
            failed: 0,
        }
    }

    /// The file of an image with these bytes, which were read from it. It took no sector, and hasn't failed. It keeps what
    /// it holds, if that is known whole.
    pub fn of_image(file: F, image: &[u8]) -> ImageFile<F>
        requires image { IfSome (F.held file) (λ all. image.now ≡ take 174849 all) }
        ensures { IsLoaded image.now file result }
    {
        ImageFile {
            file,
            sized: image.len() == IMAGE_BYTES,
            taken: 0,
            failed: 0,
        }
    }

    /// The file.
    pub fn into_inner(self) -> F
        ensures { result ≡ placed_file self }
    {
        let ImageFile {
            file,
            sized: _,
            taken: _,
            failed: _,
        } = self;
        file
    }

    /// Syncs all that was written.
    pub fn finish(&mut self) -> io::Result<()>
        ensures { BringsAll self.old self.new result }
    {
        self.file.sync()
    }
}

impl<F: WritesAt> SectorFile for ImageFile<F> {
    ghost use Rattle.std.specs.Prelude.{OnErr, OnOk};
    ghost use Rattle.d64_image.specs.Keeps.{KeepsSector};
    ghost use Rattle.d64_image.specs.Offsets.{offset_of};
    ghost use Rattle.image_file.specs.Durable.{WritesOver};
    ghost use Rattle.image_file.specs.ImageFile.{placed, placed_file};

    ghost keeps = { placed };

    #[inline(always)]
    fn keep(&mut self, place: Place, from: &[u8; 256]) -> io::Result<()>
        ensures keeps { KeepsSector placed self.old self.new place from.now result }
        // the sector was written at 256 times its index, and nothing else; at an error a first part of it was
        ensures written { WritesOver (F.held (placed_file self.old)) (F.held (placed_file self.new)) (offset_of place)
            from.now result }
        // an error is returned only if the file failed
        ensures failed { OnErr result (F.has_failed (placed_file self.new) ≡ true) }
        ensures passed { OnOk result (F.has_failed (placed_file self.new) ≡ F.has_failed (placed_file self.old)) }
    {
        let at = 256 * place.index() as u64;
        let written = self.file.write_all_at(from, at);
        match &written {
            Ok(()) => self.taken = self.taken.saturating_add(1),
            Err(_) => self.failed = self.failed.saturating_add(1),
        }
        written
    }
}
