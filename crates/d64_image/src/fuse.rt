//! A disk whose power fails after a number of writes.
ghost use Rattle.std.specs.Prelude.{◌≤◌};

use crate::count::Count;
use crate::faults::DeviceFault;
use crate::place::Place;
use crate::sectors::Sectors;

/// Lets a number of writes pass to the disk beneath it, and fails each read and write from then on.
#[derive(Drop)]
pub struct Fuse<D> {
    disk: D,
    limit: u32,
    passed: u32,
    failed: Count,
    ghost within: { passed ≤ limit },
}

impl<D: Sectors> Fuse<D> {
    ghost use Rattle.std.specs.Prelude.{◌≡◌};
    ghost use Rattle.d64_image.specs.Fuses.{fuse, fuse_disk, fuse_left, fuse_limit};

    /// A fuse round a disk. It lets this many writes pass and then blows.
    pub fn new(disk: D, limit: u32) -> Fuse<D>
        ensures disk { fuse_disk result ≡ disk }
        ensures limit { fuse_limit result ≡ limit }
        ensures left { fuse_left result ≡ limit }
        ensures unfailed { (fuse D.history).failures result ≡ 0 }
    {
        Fuse {
            disk,
            limit,
            passed: 0,
            failed: Count::zero(),
        }
    }

    /// The disk beneath.
    pub fn into_inner(self) -> D
        ensures { result ≡ fuse_disk self }
    {
        let Fuse {
            disk,
            limit: _,
            passed: _,
            failed: _,
        } = self;
        disk
    }
}

impl<D: Sectors> Sectors for Fuse<D> {
    ghost use Rattle.std.specs.Prelude.{◌≡◌, ◌+◌, ◌<◌, OnOk, OnErr, IsErr};
    ghost use Rattle.d64_image.specs.Calls.{ReadsSector, WritesSector};
    ghost use Rattle.d64_image.specs.Faults.{device_fault};
    ghost use Rattle.d64_image.specs.Fuses.{fuse, fuse_disk, fuse_left, fuse_limit};

    ghost history = { fuse D.history };

    /// Passes a read on if the fuse has not blown. A blown fuse returns the fault and leaves the disk alone.
    fn read(&mut self, place: Place, to: &mut [u8; 256]) -> Result<(), DeviceFault>
        ensures device { ReadsSector (fuse D.history) self.old self.new place to.new device_fault result }
        // a blown fuse reads nothing
        ensures spent { fuse_left self.old ≡ 0 → IsErr result × (fuse_disk self.new ≡ fuse_disk self.old) }
        // otherwise the disk beneath answers
        ensures passes { 0 < fuse_left self.old
            → ReadsSector D.history (fuse_disk self.old) (fuse_disk self.new) place to.new device_fault result }
        ensures kept { (fuse_left self.new ≡ fuse_left self.old) × (fuse_limit self.new ≡ fuse_limit self.old) }
    {
        if self.passed == self.limit {
            self.failed.add_one();
            return Err(DeviceFault);
        }
        match self.disk.read(place, to) {
            Ok(()) => Ok(()),
            Err(fault) => {
                self.failed.add_one();
                Err(fault)
            }
        }
    }

    /// Passes a write on if the fuse has not blown. A write that passed uses the fuse up by one. A blown fuse returns
    /// the fault and leaves the disk alone.
    fn write(&mut self, place: Place, from: &[u8; 256]) -> Result<(), DeviceFault>
        ensures device { WritesSector (fuse D.history) self.old self.new place from.now device_fault result }
        // a blown fuse writes nothing
        ensures spent { fuse_left self.old ≡ 0 → IsErr result × (fuse_disk self.new ≡ fuse_disk self.old) }
        // otherwise the disk beneath answers
        ensures passes { 0 < fuse_left self.old
            → WritesSector D.history (fuse_disk self.old) (fuse_disk self.new) place from.now device_fault
            result }
        ensures burns { OnOk result (fuse_left self.old ≡ fuse_left self.new + 1) }
        ensures kept { OnErr result (fuse_left self.new ≡ fuse_left self.old) }
        ensures limit { fuse_limit self.new ≡ fuse_limit self.old }
    {
        let left = self.limit - self.passed;
        if left == 0 {
            self.failed.add_one();
            return Err(DeviceFault);
        }
        match self.disk.write(place, from) {
            Ok(()) => {
                self.passed += 1;
                Ok(())
            }
            Err(fault) => {
                self.failed.add_one();
                Err(fault)
            }
        }
    }
}
