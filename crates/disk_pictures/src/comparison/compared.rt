//! A disk of a comparison: its image's path, its sectors, what is drawn of it, and what is reported of it.
ghost use Rattle.std.specs.Prelude.{◌≡◌, length};

use crate::drawing::Drawing;
use crate::verdicts::{Verdict, judged};
use command_faults::CommandFault;
use d64_image::Place;
use std::alloc::Global;

/// A disk of a comparison.
#[derive(Drop)]
pub(crate) struct Compared<'a> {
    /// The path of its image.
    pub(crate) path: &'a str,
    /// Its sectors, in the order of their indices.
    pub(crate) sectors: &'a [[u8; 256]],
    /// What is drawn of it.
    pub(crate) drawing: Drawing,
    /// What is reported of it.
    pub(crate) verdict: Verdict,
    pub ghost full: { length sectors.now ≡ 683 },
}

impl<'a> Compared<'a> {
    ghost use Rattle.std.specs.Prelude.{◌≢◌, IfErr, IfOk};
    ghost use Rattle.d64_image.specs.Images.{sector as sector_of};
    ghost use Rattle.disk_pictures.specs.ComparedOutcomes.{IsDiskOf, disk_in};
    ghost use Rattle.disk_pictures.specs.Outcomes.{IsPictureFault};
    ghost use Rattle.command_faults.specs.declared.faults.CommandFault.TheVariants as faults;

    /// The disk that has this image, which is at this path.
    pub(crate) fn of(
        alloc: Global,
        path: &'a str,
        image: &'a [u8],
    ) -> Result<Compared<'a>, CommandFault>
        ensures ok { IfOk result (λ disk. IsDiskOf path.now image.now (disk_in disk)) }
        ensures err { IfErr result (IsPictureFault image.now) }
        ensures not_file { IfErr result (λ fault. fault ≢ faults.File) }
    {
        let (drawing, verdict) = judged(alloc, image)?;
        let (sectors, _) = image.as_chunks::<256>();
        Ok(Compared {
            path,
            sectors,
            drawing,
            verdict,
        })
    }

    /// The bytes of a sector.
    pub(crate) fn sector(&self, place: Place) -> &[u8; 256]
        ensures { result.now ≡ sector_of self.now.sectors.now place }
    {
        &self.sectors[place.index()]
    }
}
