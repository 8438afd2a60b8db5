//! An image taken into memory, drawn and checked.
ghost use Rattle.std.specs.Prelude.{◌≢◌, IfErr, IfOk, Some};
ghost use Rattle.disk_pictures.specs.Outcomes.{IsJudged, IsPictureFault};
ghost use Rattle.disk_pictures.specs.Texts.{verdict_text};
ghost use Rattle.command_faults.specs.declared.faults.CommandFault.TheVariants as faults;

use crate::drawing::Drawing;
use crate::reading::draw;
use command_faults::{CommandFault, load};
use d64_image::Place;
use damaged_files::{Shortfall, sound_cut};
use disk_layout::Fault;
use layout_check::verdict;
use std::alloc::Global;
use std::fmt::{self, Display, Formatter};

/// What is reported of a disk.
#[derive(Clone, Copy)]
pub struct Verdict {
    /// What a check reports.
    pub found: Option<Fault>,
    /// Where the first file ends that is cut short.
    pub cut: Option<Place>,
}

/// The fault, and on a line of its own `SHORT` and that sector; `OK` if there is neither.
impl Display for Verdict {
    ghost output = { λ verdict. Some (verdict_text verdict) };

    fn fmt<W: fmt::Write>(&self, f: &mut Formatter<W>) -> fmt::Result {
        match (self.found, self.cut) {
            (Some(fault), None) => write!(f, "{fault}"),
            (Some(fault), Some(place)) => write!(f, "{fault}\n{}", Shortfall::Short(place)),
            (None, Some(place)) => write!(f, "{}", Shortfall::Short(place)),
            (None, None) => f.write_str("OK"),
        }
    }
}

/// What is drawn of the image, and what is reported of it. `ImageSize`; `NoMemory`; `Layout` if the directory's sectors aren't a chain
/// on track 18.
pub fn judged(alloc: Global, image: &[u8]) -> Result<(Drawing, Verdict), CommandFault>
    ensures ok { IfOk result (λ (drawing, verdict). IsJudged image.now drawing verdict) }
    ensures err { IfErr result (IsPictureFault image.now) }
    ensures not_file { IfErr result (λ fault. fault ≢ faults.File) }
{
    let mut disk = load(alloc, image)?;
    let drawing = draw(alloc, &mut disk)?;
    let found = verdict(&mut disk);
    let cut = sound_cut(&mut disk, None);
    Ok((drawing, Verdict { found, cut }))
}
