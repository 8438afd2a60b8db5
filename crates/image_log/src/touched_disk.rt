//! A disk that notes which sectors are written.
use d64_image::{DeviceFault, Place, SECTORS, Sectors};

/// Passes each read and write on to the disk beneath it, and marks each sector that a write was asked for. So a commit
/// takes the marked sectors, and compares none.
#[derive(Drop)]
pub struct TouchedDisk<D> {
    disk: D,
    touched: [bool; SECTORS],
}

impl<D: Sectors> TouchedDisk<D> {
    ghost use Rattle.std.specs.Prelude.{◌≡◌};
    ghost use Rattle.image_log.specs.Marks.{NoneTouched};
    ghost use Rattle.image_log.specs.Touched.{touched_disk, touched_of};

    /// A disk with no sector marked.
    pub fn new(disk: D) -> TouchedDisk<D>
        ensures disk { touched_disk result ≡ disk }
        ensures none { NoneTouched (touched_of result) }
    {
        TouchedDisk {
            disk,
            touched: [false; SECTORS],
        }
    }

    /// For each sector, by its index from 0 to 682, whether a write of it was asked for since the marks were cleared.
    pub fn touched(&self) -> &[bool; SECTORS]
        ensures { result.now ≡ touched_of self.now }
    {
        &self.touched
    }

    /// The disk beneath.
    pub fn disk(&self) -> &D
        ensures { result.now ≡ touched_disk self.now }
    {
        &self.disk
    }

    /// Takes all marks away. The disk stays.
    pub fn clear(&mut self)
        ensures none { NoneTouched (touched_of self.new) }
        ensures disk { touched_disk self.new ≡ touched_disk self.old }
    {
        self.touched = [false; SECTORS];
    }

    /// The disk beneath.
    pub fn into_inner(self) -> D
        ensures { result ≡ touched_disk self }
    {
        let TouchedDisk { disk, touched: _ } = self;
        disk
    }
}

impl<D: Sectors> Sectors for TouchedDisk<D> {
    ghost use Rattle.std.specs.Prelude.{◌≡◌, slice_set, true};
    ghost use Rattle.d64_image.specs.Calls.{ReadsSector, WritesSector};
    ghost use Rattle.d64_image.specs.Faults.{device_fault};
    ghost use Rattle.d64_image.specs.Places.{index_of};
    ghost use Rattle.image_log.specs.Touched.{touched_disk, touched_of, touching};

    ghost history = { touching D.history };

    /// Passes a read on.
    fn read(&mut self, place: Place, to: &mut [u8; 256]) -> Result<(), DeviceFault>
        ensures device { ReadsSector (touching D.history) self.old self.new place to.new device_fault result }
        // the disk beneath answers
        ensures beneath { ReadsSector D.history (touched_disk self.old) (touched_disk self.new)
            place to.new device_fault result }
        ensures marks { touched_of self.new ≡ touched_of self.old }
    {
        self.disk.read(place, to)
    }

    /// Marks the sector, whatever comes of the write, and passes the write on.
    fn write(&mut self, place: Place, from: &[u8; 256]) -> Result<(), DeviceFault>
        ensures device { WritesSector (touching D.history) self.old self.new place from.now device_fault result }
        // the disk beneath answers
        ensures beneath { WritesSector D.history (touched_disk self.old) (touched_disk self.new)
            place from.now device_fault result }
        // this sector is marked, and no other one
        ensures marks { touched_of self.new ≡ slice_set (touched_of self.old) (index_of place) true }
    {
        self.touched[place.index()] = true;
        self.disk.write(place, from)
    }
}
