//! A shop's disk repaired, and a drive switched on over it.
ghost use Rattle.disk_layout.specs.Clean.{IsClean};
ghost use Rattle.disk_layout.specs.Layout.{IsSound};
ghost use Rattle.host_session.specs.session.Mends.{Mends};
ghost use Rattle.host_session.specs.shop.Files.{HasFiles};

use crate::faults::OpenFault;
use crate::shop::shop_drive::ShopDrive;
use d64_image::Sectors;
use layout_check::repair;

/// Repairs a sound disk, and switches a drive on over it.
pub(crate) fn start<D: Sectors>(disk: D) -> Result<ShopDrive<D>, (OpenFault, D)>
    requires sound { IsSound (D.history.image disk) }
    // at Ok what both files hold is as it was; a clean disk isn't written
    ensures { Mends D.history disk result (HasFiles (D.history.image disk)) 883 IsClean (λ f i. HasFiles i f) }
{
    let mut disk = disk;
    match repair(&mut disk) {
        Ok(_) => Ok(ShopDrive::power_on(disk)),
        Err(_) => Err((OpenFault::Device, disk)),
    }
}
