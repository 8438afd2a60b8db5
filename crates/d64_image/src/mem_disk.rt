//! A disk in memory.
ghost use Rattle.std.specs.Prelude.{◌≡◌};
ghost use Rattle.d64_image.specs.Images.{IsImage};
ghost use Rattle.std.proofs.Props.{props};

use crate::faults::{DeviceFault, ImageFault};
use crate::geometry::{IMAGE_BYTES, SECTORS};
use crate::place::Place;
use crate::sectors::Sectors;
use std::alloc::Global;

/// A disk in memory, as the bytes of a D64 image: sector after sector in the order of their indices.
#[derive(Drop)]
pub struct MemDisk {
    sectors: Vec<[u8; 256]>,
    ghost whole: { IsImage sectors.items } by { Prim.hlevel props },
}

impl MemDisk {
    ghost use Rattle.std.specs.Prelude.{◌≢◌, ◌↔◌, ℕ, ◌<◌, length, slice_index, IfOk, IsErrOf};
    ghost use Rattle.d64_image.specs.declared.place.Place.{Place};
    ghost use Rattle.d64_image.specs.Images.{sector};
    ghost use Rattle.d64_image.specs.Memory.{disk_bytes, disk_image, sectors_in};

    /// The disk whose image has these bytes. The error is `Size` exactly if they aren't 174,848 bytes. It is `NoMemory`
    /// if the memory for another 174,848 bytes was refused.
    pub fn load(alloc: Global, bytes: &[u8]) -> Result<MemDisk, ImageFault>
        ensures size { IsErrOf result ImageFault.Size ↔ (length bytes.now ≢ 174848) }
        ensures ok { IfOk result (λ disk. disk_bytes disk ≡ bytes.now) }
        ensures image { IfOk result (λ disk. disk_image disk ≡ sectors_in bytes.now) }
    {
        if bytes.len() != IMAGE_BYTES {
            return Err(ImageFault::Size);
        }
        let (sectors, _) = bytes.as_chunks::<256>();
        match Vec::from_slice(alloc, sectors) {
            Ok(sectors) => Ok(MemDisk { sectors }),
            Err(_) => Err(ImageFault::NoMemory),
        }
    }

    /// A disk whose bytes are all 0. The error is `NoMemory` if the memory for its 174,848 bytes was refused.
    pub fn zeroed(alloc: Global) -> Result<MemDisk, ImageFault>
        ensures size { IsErrOf result ImageFault.Size → ⊥ }
        ensures ok { IfOk result (λ disk. (i : ℕ) → slice_index (disk_bytes disk) i ≡ 0) }
        ensures sectors { IfOk result (λ disk. (p : Place) (i : ℕ) → slice_index (sector (disk_image disk) p) i ≡ 0) }
    {
        let mut sectors = Vec::new(alloc);
        match sectors.resize(SECTORS, [0; 256]) {
            Ok(()) => Ok(MemDisk { sectors }),
            Err(_) => Err(ImageFault::NoMemory),
        }
    }

    /// The bytes of a sector.
    #[tactic(auto, using(std::proofs::lemmas::List::get_or_read), unfolding(crate::specs::Images::sector))]
    pub fn sector(&self, place: Place) -> &[u8; 256]
        ensures { result.now ≡ sector (disk_image self.now) place }
    {
        &self.sectors[place.index()]
    }

    /// The 174,848 bytes of the image.
    pub fn bytes(&self) -> &[u8]
        ensures value { result.now ≡ disk_bytes self.now }
        ensures size { length result.now ≡ 174848 }
        ensures image { sectors_in result.now ≡ disk_image self.now }
    {
        self.sectors.as_slice().as_flattened()
    }
}

impl Sectors for MemDisk {
    ghost use Rattle.std.specs.Prelude.{IsOk};
    ghost use Rattle.d64_image.specs.Calls.{ReadsSector, WritesSector};
    ghost use Rattle.d64_image.specs.Faults.{device_fault};
    ghost use Rattle.d64_image.specs.Memory.{memory};

    ghost history = { memory };

    /// Never fails, and takes no memory.
    fn read(&mut self, place: Place, to: &mut [u8; 256]) -> Result<(), DeviceFault>
        ensures never_fails { IsOk result }
        ensures device { ReadsSector memory self.old self.new place to.new device_fault result }
    {
        *to = *self.sector(place);
        Ok(())
    }

    /// Never fails, and takes no memory.
    #[tactic(auto, unfolding(crate::specs::Images::put))]
    fn write(&mut self, place: Place, from: &[u8; 256]) -> Result<(), DeviceFault>
        ensures never_fails { IsOk result }
        ensures device { WritesSector memory self.old self.new place from.now device_fault result }
    {
        self.sectors[place.index()] = *from;
        Ok(())
    }
}
