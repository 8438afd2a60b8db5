//! Functions that take the memory for their images.
ghost use Rattle.std.specs.Prelude.{◌≡◌, IfErr, IfOk, IfSome, IsNone, List, None, Some, length, true, ℕ};
ghost use Rattle.d64_image.specs.Images.{Image};
ghost use Rattle.image_log.specs.life.Bringing.{RestsAlone};
ghost use Rattle.image_log.specs.life.Faults.{IsMisfit};
ghost use Rattle.image_log.specs.life.Folders.{AllLeft, Folder, LeavesFolders};
ghost use Rattle.image_log.specs.life.Shops.{Gives, GivesOneOf};
ghost use Rattle.image_log.specs.life.Views.{Goes, IsLogViewed, Seen, SeenGives};

use crate::life::landing::{LogFault, land};
use crate::life::log_folder::LogFolder;
use crate::life::viewing::{ViewsImage, view_log};
use crate::log_file::LogFile;
use d64_image::SECTORS;
use std::alloc::Global;
use std::io;

/// Memory for an image. The only error is that it was refused.
pub fn image_room(alloc: Global) -> io::Result<Vec<[u8; 256]>>
    ensures { IfOk result (λ image. length image.items ≡ 683) }
{
    let mut image = Vec::new(alloc);
    image.resize(SECTORS, [0; 256])?;
    Ok(image)
}

/// Lands a log that is there, as `land` does. Returns the image that the folder gave, which IMAGE has now.
pub fn land_in<F: LogFile, D: LogFolder<F>>(
    alloc: Global,
    folder: &mut D,
) -> Result<Vec<[u8; 256]>, LogFault>
    ensures sized { IfOk result (λ shop. length shop.items ≡ 683) }
    ensures any_moment { (shops : List Image) (s : Folder) → D.history.held folder.old ≡ Some s → GivesOneOf shops s
        → AllLeft D.history folder.old (GivesOneOf shops)
        → LeavesFolders D.history folder.old folder.new (GivesOneOf shops) }
    ensures ok { IfOk result (λ shop. (shops : List Image) (s : Folder) → D.history.held folder.old ≡ Some s
        → GivesOneOf shops s → AllLeft D.history folder.old (GivesOneOf shops)
        → RestsAlone D.history folder.new shop.items × Gives s shop.items) }
    ensures refused { IfErr result (λ e. IsMisfit e → (s : Folder) → D.history.held folder.old ≡ Some s
        → (D.history.held folder.new ≡ Some s) × ((given : Image) → Gives s given → ⊥)) }
{
    let mut now = image_room(alloc)?;
    let mut base = image_room(alloc)?;
    let mut shop = image_room(alloc)?;
    match land(
        folder,
        now.as_mut_slice(),
        base.as_mut_slice(),
        shop.as_mut_slice(),
    ) {
        Ok(()) => Ok(shop),
        Err(fault) => Err(fault),
    }
}

/// Looks at an image through its log, which was opened. Returns the image that the log gives.
fn view_opened<V: ViewsImage>(
    alloc: Global,
    folder: &mut V,
    log: &mut V::Log,
) -> Result<Vec<[u8; 256]>, LogFault>
    ensures sized { IfOk result (λ shop. length shop.items ≡ 683) }
    ensures ok { IfOk result (λ shop. (s t : Seen) (f : List ℕ) → V.seen folder.old ≡ Some t → Goes s t
        → V.Log.bytes log.old ≡ Some f → s.log ≡ Some f → s.named ≡ true → IsLogViewed V.seen s folder.new shop.items) }
    ensures refused { IfErr result (λ e. IsMisfit e → (s t : Seen) (f : List ℕ) → V.seen folder.old ≡ Some t → Goes s t
        → V.Log.bytes log.old ≡ Some f → s.log ≡ Some f → s.named ≡ true → (given : Image) → SeenGives s given → ⊥) }
{
    let mut now = image_room(alloc)?;
    let mut base = image_room(alloc)?;
    let mut shop = image_room(alloc)?;
    match view_log(
        folder,
        log,
        now.as_mut_slice(),
        base.as_mut_slice(),
        shop.as_mut_slice(),
    ) {
        Ok(()) => Ok(shop),
        Err(fault) => Err(fault),
    }
}

/// Looks at an image through its log: first the log is read, then the image, and then it is asked whether the log was landed
/// meanwhile. Returns the image that the log gives. If there is no log, it returns None; the image wasn't read, and no memory
/// taken. Nothing is written. The log is refused only if it gave no image when the view began.
pub fn view_in<V: ViewsImage>(
    alloc: Global,
    folder: &mut V,
) -> Result<Option<Vec<[u8; 256]>>, LogFault>
    ensures sized { IfOk result (λ seen. IfSome seen (λ shop. length shop.items ≡ 683)) }
    ensures some { IfOk result (λ seen. IfSome seen (λ shop. (s : Seen) → V.seen folder.old ≡ Some s
        → IsLogViewed V.seen s folder.new shop.items)) }
    ensures none { IfOk result (λ seen. seen ≡ None → (s : Seen) → V.seen folder.old ≡ Some s → s.log ≡ None) }
    ensures refused { IfErr result (λ e. IsMisfit e → (s : Seen) → V.seen folder.old ≡ Some s
        → (given : Image) → SeenGives s given → ⊥) }
    ensures without { V.HasNoLog folder.old → IfOk result IsNone }
{
    let log = folder.open_log()?;
    match log {
        Some(mut log) => match view_opened(alloc, folder, &mut log) {
            Ok(shop) => Ok(Some(shop)),
            Err(fault) => Err(fault),
        },
        None => Ok(None),
    }
}
