//! What is shown of an image as an object of JSON.
ghost use Rattle.std.specs.Prelude.{◌≡◌, ◌≢◌, IfErr, IfOk, OnOk};
ghost use Rattle.command_faults.specs.declared.faults.CommandFault.TheVariants as faults;
ghost use Rattle.image_looks.specs.EachImage.{IsCutOff};
ghost use Rattle.image_looks.specs.Extents.{object_extent};
ghost use Rattle.image_looks.specs.ShownObjects.{IsCheckedFault, IsShopFault, IsShownAs, IsShownFault, IsTaken, refusal_data, status_by, status_of};
ghost use Rattle.command_faults.specs.Faults.{command_text};
ghost use Rattle.json_looks.specs.Checks.{IsCheckShown};
ghost use Rattle.json_looks.specs.Objects.{IsObjectPrinted};
ghost use Rattle.json_looks.specs.Shops.{IsShown};
ghost use Rattle.opened_files.specs.Losses.{IsNear};

use command_faults::CommandFault;
use d64_image::IMAGE_BYTES;
use json_looks::{
    check_object, free_object, list_object, map_object, print_refused, print_unchecked, shop_object,
};
use opened_files::{Extent, Loss, see_log_away};
use std::alloc::Global;
use std::io::Write;

/// What is shown of an image as an object.
#[derive(Clone, Copy, Debug, PartialEq, Eq)]
pub enum ImageObject {
    /// What a check of it finds.
    Check {
        /// Whether the image may have more tracks, or error bytes.
        as_is: bool,
    },
    /// Its directory.
    List {
        /// Whether the image may have more tracks, or error bytes.
        as_is: bool,
    },
    /// How many sectors of each track its map calls free.
    Free,
    /// Which of its sectors is whose.
    Map,
    /// What it holds of a shop.
    Show {
        /// What is done if its log has the rest and isn't there.
        loss: Loss,
        /// Whether the image may have more tracks, or error bytes.
        as_is: bool,
    },
}

impl ImageObject {
    /// Which images are shown so: where they may be longer, the first 35 tracks, but a check and a map of the whole image.
    pub(crate) fn extent(self) -> Extent
        ensures { result ≡ object_extent self }
    {
        match self {
            ImageObject::Check { as_is: false }
            | ImageObject::List { as_is: false }
            | ImageObject::Show { as_is: false, .. } => Extent::Disk,
            ImageObject::Map | ImageObject::Check { as_is: true } => Extent::Whole,
            _ => Extent::FirstTracks,
        }
    }
}

/// Checks an image, which has to be a disk of 35 tracks alone unless it may be longer, and prints what is found.
fn show_check<W: Write>(
    alloc: Global,
    path: &str,
    image: &[u8],
    as_is: bool,
    out: &mut W,
) -> Result<bool, CommandFault>
    ensures ok { IfOk result (λ whole. IsTaken as_is image.now × IsCheckShown W.contents path.now image.now out.old out.new whole) }
    ensures err { IfErr result (IsCheckedFault as_is image.now) }
    ensures untouched { IfErr result (λ fault. (fault ≢ faults.File) → out.new ≡ out.old) }
{
    if !as_is && image.len() != IMAGE_BYTES {
        return Err(CommandFault::ImageSize);
    }
    check_object(alloc, path, image, out)
}

/// Prints what an image holds of a shop, unless its log has the rest and that loss isn't accepted.
fn show_shop<W: Write>(
    alloc: Global,
    path: &str,
    image: &[u8],
    loss: Loss,
    out: &mut W,
) -> Result<(), CommandFault>
    ensures ok { OnOk result (IsNear loss image.now × IsShown W.contents path.now image.now out.old out.new) }
    ensures err { IfErr result (IsShopFault loss image.now) }
    ensures untouched { IfErr result (λ fault. (fault ≢ faults.File) → out.new ≡ out.old) }
{
    see_log_away(image, loss)?;
    shop_object(alloc, path, image, out)
}

/// The exit status of an image that was shown, whatever stands in it.
fn status_by_end(shown: Result<(), CommandFault>) -> Result<u8, CommandFault>
    ensures { result ≡ status_by shown }
{
    match shown {
        Ok(()) => Ok(0),
        Err(fault) => Err(fault),
    }
}

/// The exit status of an image that was shown, and of which this says whether it is whole.
pub(crate) fn status_by_check(whole: Result<bool, CommandFault>) -> Result<u8, CommandFault>
    ensures { result ≡ status_of whole }
{
    match whole {
        Ok(true) => Ok(0),
        Ok(false) => Ok(1),
        Err(fault) => Err(fault),
    }
}

/// Prints what this look prints of an image with these bytes, and returns its exit status.
pub(crate) fn show_object<W: Write>(
    alloc: Global,
    object: ImageObject,
    path: &str,
    image: &[u8],
    out: &mut W,
) -> Result<u8, CommandFault>
    ensures ok { IfOk result (IsShownAs W.contents object path.now image.now out.old out.new) }
    ensures err { IfErr result (IsShownFault object image.now) }
    ensures untouched { IfErr result (λ fault. (fault ≢ faults.File) → out.new ≡ out.old) }
{
    match object {
        ImageObject::Check { as_is } => status_by_check(show_check(alloc, path, image, as_is, out)),
        ImageObject::List { .. } => status_by_end(list_object(alloc, path, image, out)),
        ImageObject::Free => status_by_end(free_object(alloc, path, image, out)),
        ImageObject::Map => status_by_check(map_object(alloc, path, image, out)),
        ImageObject::Show { loss, .. } => status_by_end(show_shop(alloc, path, image, loss, out)),
    }
}

/// Shows an image that is refused; of a check with the size of its file, if it is known.
pub(crate) fn show_refused<W: Write>(
    alloc: Global,
    object: ImageObject,
    path: &str,
    size: Option<u64>,
    refusal: CommandFault,
    out: &mut W,
) -> Result<(), CommandFault>
    ensures ok { OnOk result
        (IsObjectPrinted W.contents (refusal_data object path.now size (command_text refusal)) out.old out.new) }
    ensures err { IfErr result IsCutOff }
{
    let Ok(why) = format!(in alloc; "{refusal}") else {
        return Err(CommandFault::NoMemory);
    };
    match object {
        ImageObject::Check { .. } => print_unchecked(alloc, path, size, why.as_str(), out),
        _ => print_refused(alloc, path, why.as_str(), out),
    }
}
