//! What a disk has lost of its files.
ghost use Rattle.std.specs.Prelude.{◌≡◌, IfErr, IfOk, OnOk};
ghost use Rattle.opened_files.specs.Losses.{IsAwayFault, IsJudged, IsNear, IsSeen, IsTagFault, short_refusal as refused_short};
ghost use Rattle.command_faults.specs.declared.faults.CommandFault.TheVariants.{NoMemory};
ghost use Rattle.image_log.specs.life.Tags.{SaysLogAway};

use command_faults::CommandFault;
use d64_image::ImageFault;
pub use damaged_files::Loss;
use damaged_files::{Shortfall, find_image_shortfall};
use disk_layout::Fault;
use image_log::is_log_away;
use std::alloc::Global;

/// Refuses an image that says that its log has the rest of it, unless that loss is accepted: `LogAway`.
pub fn see_log_away(image: &[u8], loss: Loss) -> Result<(), CommandFault>
    ensures ok { OnOk result (IsNear loss image.now) }
    ensures err { IfErr result (IsAwayFault loss (SaysLogAway image.now)) }
{
    if loss == Loss::Refused && is_log_away(image) {
        return Err(CommandFault::LogAway);
    }
    Ok(())
}

/// Refuses an image that says that its log has the rest of it, and that is going to be changed: `LogAway`. `Device` if that
/// loss is accepted: the tag was to be taken off.
pub fn see_untagged(image: &[u8], loss: Loss) -> Result<(), CommandFault>
    ensures ok { OnOk result (¬ (SaysLogAway image.now)) }
    ensures err { IfErr result (IsTagFault loss image.now) }
{
    if !is_log_away(image) {
        return Ok(());
    }
    match loss {
        Loss::Refused => Err(CommandFault::LogAway),
        Loss::Accepted => Err(CommandFault::Device),
    }
}

/// What the files of an image lack. None also if the image has another size, or its disk isn't sound. The only error is
/// `NoMemory`.
pub fn shortfall_in(alloc: Global, image: &[u8]) -> Result<Option<Shortfall>, CommandFault>
    ensures ok { IfOk result (IsSeen image.now) }
    ensures err { IfErr result (λ refusal. refusal ≡ NoMemory) }
{
    match find_image_shortfall(alloc, image) {
        Ok(lack) => Ok(lack),
        Err(ImageFault::Size) => Ok(None),
        Err(ImageFault::NoMemory) => Err(CommandFault::NoMemory),
    }
}

/// That a file is cut short, if the files lack that.
pub fn short_refusal(lack: Option<Shortfall>) -> Option<CommandFault>
    ensures { result ≡ refused_short lack }
{
    match lack {
        Some(Shortfall::Short(place)) => Some(CommandFault::Short(place)),
        Some(Shortfall::Fewer(_)) | None => None,
    }
}

/// Why a job isn't begun that changes this image: `Short` if a file of it is cut short and no loss is accepted, or
/// `NoMemory` to see that.
pub fn loss_refusal(alloc: Global, image: &[u8], loss: Loss) -> Option<CommandFault>
    ensures { IsJudged image.now loss result }
{
    match loss {
        Loss::Accepted => None,
        Loss::Refused => match shortfall_in(alloc, image) {
            Ok(lack) => short_refusal(lack),
            Err(refusal) => Some(refusal),
        },
    }
}
