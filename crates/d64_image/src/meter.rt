//! A disk whose reads and writes are counted.
use crate::count::Count;
use crate::faults::DeviceFault;
use crate::place::Place;
use crate::sectors::Sectors;

/// Counts the reads and the writes that pass to the disk beneath it. Each count stays at 2^64 - 1 once there.
#[derive(Drop)]
pub struct Meter<D> {
    disk: D,
    reads: Count,
    writes: Count,
}

impl<D: Sectors> Meter<D> {
    ghost use Rattle.std.specs.Prelude.{◌≡◌};
    ghost use Rattle.d64_image.specs.Meters.{meter_disk, meter_reads, meter_writes};

    /// A meter on a disk, with both counts at 0.
    pub fn new(disk: D) -> Meter<D>
        ensures disk { meter_disk result ≡ disk }
        ensures reads { meter_reads result ≡ 0 }
        ensures writes { meter_writes result ≡ 0 }
    {
        Meter {
            disk,
            reads: Count::zero(),
            writes: Count::zero(),
        }
    }

    /// The number of reads that passed.
    pub fn reads(&self) -> u64
        ensures { result ≡ meter_reads self.now }
    {
        self.reads.get()
    }

    /// The number of writes that passed.
    pub fn writes(&self) -> u64
        ensures { result ≡ meter_writes self.now }
    {
        self.writes.get()
    }

    /// The disk beneath.
    pub fn into_inner(self) -> D
        ensures { result ≡ meter_disk self }
    {
        let Meter {
            disk,
            reads: _,
            writes: _,
        } = self;
        disk
    }
}

impl<D: Sectors> Sectors for Meter<D> {
    ghost use Rattle.std.specs.Prelude.{◌≡◌, ◌+◌, min, OnErr, OnOk};
    ghost use Rattle.d64_image.specs.Calls.{ReadsSector, WritesSector};
    ghost use Rattle.d64_image.specs.Faults.{device_fault};
    ghost use Rattle.d64_image.specs.Meters.{meter, meter_disk, meter_reads, meter_writes};

    ghost history = { meter D.history };

    /// Passes a read on, and counts it if it succeeds.
    fn read(&mut self, place: Place, to: &mut [u8; 256]) -> Result<(), DeviceFault>
        ensures device { ReadsSector (meter D.history) self.old self.new place to.new device_fault result }
        // the disk beneath answers, and is read once
        ensures beneath { ReadsSector D.history (meter_disk self.old) (meter_disk self.new)
            place to.new device_fault result }
        ensures exact { OnOk result (meter_reads self.new ≡ min (meter_reads self.old + 1) 18446744073709551615) }
        ensures kept { OnErr result (meter_reads self.new ≡ meter_reads self.old) }
    {
        self.disk.read(place, to)?;
        self.reads.add_one();
        Ok(())
    }

    /// Passes a write on, and counts it if it succeeds.
    fn write(&mut self, place: Place, from: &[u8; 256]) -> Result<(), DeviceFault>
        ensures device { WritesSector (meter D.history) self.old self.new place from.now device_fault result }
        // the disk beneath answers, and is written once
        ensures beneath { WritesSector D.history (meter_disk self.old) (meter_disk self.new)
            place from.now device_fault result }
        ensures exact { OnOk result (meter_writes self.new ≡ min (meter_writes self.old + 1) 18446744073709551615) }
    {
        self.disk.write(place, from)?;
        self.writes.add_one();
        Ok(())
    }
}
