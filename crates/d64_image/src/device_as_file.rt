//! A device used as a file: everything that it keeps is known.
use crate::place::Place;
use crate::sector_file::SectorFile;
use crate::sectors::Sectors;
use std::io;

/// A device in the place of a file. It keeps what the device holds, and fails when the device does.
#[derive(Drop)]
pub struct DeviceAsFile<D> {
    disk: D,
}

impl<D: Sectors> DeviceAsFile<D> {
    ghost use Rattle.std.specs.Prelude.{◌≡◌};
    ghost use Rattle.d64_image.specs.KeptDisks.{kept_disk};

    /// The device as a file.
    pub fn new(disk: D) -> DeviceAsFile<D>
        ensures disk { kept_disk result ≡ disk }
    {
        DeviceAsFile { disk }
    }

    /// The device.
    pub fn into_inner(self) -> D
        ensures { result ≡ kept_disk self }
    {
        let DeviceAsFile { disk } = self;
        disk
    }
}

impl<D: Sectors> SectorFile for DeviceAsFile<D> {
    ghost use Rattle.d64_image.specs.Calls.{WritesSector};
    ghost use Rattle.d64_image.specs.Faults.{device_fault};
    ghost use Rattle.d64_image.specs.Keeps.{KeepsSector};
    ghost use Rattle.d64_image.specs.KeptDisks.{kept_disk, keeps_device};

    ghost keeps = { keeps_device D.history };

    fn keep(&mut self, place: Place, from: &[u8; 256]) -> io::Result<()>
        ensures keeps { KeepsSector (keeps_device D.history) self.old self.new place from.now result }
    {
        match self.disk.write(place, from) {
            Ok(()) => Ok(()),
            Err(_) => Err(io::Error::from(io::ErrorKind::Other)),
        }
    }
}
