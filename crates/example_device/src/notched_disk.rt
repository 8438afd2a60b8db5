//! A disk in memory, with a notch that protects it from writes.
ghost use Rattle.std.specs.Prelude.{◌≡◌, IsErr, IsOk, false, true};
ghost use Rattle.d64_image.specs.Images.{IsImage};
ghost use Rattle.std.proofs.Props.{props};

use d64_image::{DeviceFault, ImageFault, Place, Sectors};
use std::alloc::Global;

/// A disk of 35 tracks in memory. While its notch is closed it fails each write.
#[derive(Drop)]
pub struct NotchedDisk {
    sectors: Vec<[u8; 256]>,
    closed: bool,
    ghost whole: { IsImage sectors.items } by { Prim.hlevel props },
}

impl NotchedDisk {
    ghost use Rattle.std.specs.Prelude.{ℕ, slice_index, IfErr, IfOk};
    ghost use Rattle.d64_image.specs.declared.faults.ImageFault.{ImageFault};
    ghost use Rattle.d64_image.specs.declared.place.Place.{Place};
    ghost use Rattle.d64_image.specs.Images.{sector};
    ghost use Rattle.example_device.specs.Notched.{is_closed, notched_image};

    /// A disk with a 0 in every byte and an open notch. NoMemory if the memory for its 174,848 bytes was refused.
    pub fn zeroed(alloc: Global) -> Result<NotchedDisk, ImageFault>
        ensures err { IfErr result (λ fault. fault ≡ ImageFault.NoMemory) }
        ensures notch { IfOk result (λ disk. is_closed disk ≡ false) }
        ensures bytes { IfOk result (λ disk. (p : Place) (i : ℕ)
            → slice_index (sector (notched_image disk) p) i ≡ 0) }
    {
        let mut sectors = Vec::new(alloc);
        match sectors.resize(683, [0; 256]) {
            Ok(()) => Ok(NotchedDisk {
                sectors,
                closed: false,
            }),
            Err(_) => Err(ImageFault::NoMemory),
        }
    }

    /// The same disk with its notch closed.
    pub fn protected(self) -> NotchedDisk
        ensures image { notched_image result ≡ notched_image self }
        ensures notch { is_closed result ≡ true }
    {
        let NotchedDisk { sectors, closed: _ } = self;
        NotchedDisk {
            sectors,
            closed: true,
        }
    }
}

impl Sectors for NotchedDisk {
    ghost use Rattle.std.specs.Prelude.{◌↔◌};
    ghost use Rattle.d64_image.specs.Calls.{ReadsSector, WritesSector};
    ghost use Rattle.d64_image.specs.Faults.{device_fault};
    ghost use Rattle.example_device.specs.Notched.{is_closed, notched};

    ghost history = { notched };

    /// Never fails.
    #[tactic(auto, using(std::proofs::lemmas::List::get_or_read), unfolding(d64_image::specs::Images::sector))]
    fn read(&mut self, place: Place, to: &mut [u8; 256]) -> Result<(), DeviceFault>
        ensures device { ReadsSector notched self.old self.new place to.new device_fault result }
        ensures never_fails { IsOk result }
    {
        *to = self.sectors[place.index()];
        Ok(())
    }

    /// Fails exactly if the notch is closed.
    #[tactic(auto, unfolding(d64_image::specs::Images::put))]
    fn write(&mut self, place: Place, from: &[u8; 256]) -> Result<(), DeviceFault>
        ensures device { WritesSector notched self.old self.new place from.now device_fault result }
        ensures fails { IsErr result ↔ (is_closed self.old ≡ true) }
        ensures notch { is_closed self.new ≡ is_closed self.old }
    {
        if self.closed {
            return Err(DeviceFault);
        }
        self.sectors[place.index()] = *from;
        Ok(())
    }
}
