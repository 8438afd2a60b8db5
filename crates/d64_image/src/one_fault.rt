//! A disk of which one call in a run fails.
use crate::count::Count;
use crate::faults::DeviceFault;
use crate::place::Place;
use crate::sectors::Sectors;

/// Fails one call, and passes every other call to the disk beneath. The reads and writes are numbered together from 0.
/// If the failing call is a write, the disk beneath may take it nevertheless.
#[derive(Drop)]
pub struct OneFault<D> {
    disk: D,
    left: u32,
    done: bool,
    place: Option<Place>,
    written: Count,
    failed: Count,
}

impl<D: Sectors> OneFault<D> {
    ghost use Rattle.std.specs.Prelude.{◌≡◌, ◌+◌, None, Some, IsTrue, false};
    ghost use Rattle.d64_image.specs.OneFaults.{calls_left, fault_place, faulty_disk, is_done, is_due, one_fault};

    /// A disk whose call with the number `at` fails. If that call is a write, `done` says whether the disk beneath
    /// takes it.
    pub fn new(disk: D, at: u32, done: bool) -> OneFault<D>
        ensures disk { faulty_disk result ≡ disk }
        ensures left { calls_left result ≡ at }
        ensures done { is_done result ≡ done }
        ensures place { fault_place result ≡ None }
        ensures unfailed { (one_fault D.history).failures result ≡ 0 }
    {
        OneFault {
            disk,
            left: at,
            done,
            place: None,
            written: Count::zero(),
            failed: Count::zero(),
        }
    }

    /// The place at which the call failed. None if that call is still to come.
    pub fn place(&self) -> Option<Place>
        ensures { result ≡ fault_place self.now }
    {
        self.place
    }

    /// The disk beneath.
    pub fn into_inner(self) -> D
        ensures { result ≡ faulty_disk self }
    {
        let OneFault {
            disk,
            left: _,
            done: _,
            place: _,
            written: _,
            failed: _,
        } = self;
        disk
    }

    /// Counts a call, and returns whether it is the one that fails.
    fn is_hit(&mut self, place: Place) -> bool
        ensures hit { IsTrue result → is_due self.old × (self.new.place ≡ Some place) }
        ensures missed { result ≡ false → (is_due self.old → ⊥) × (self.new.place ≡ self.old.place) }
        ensures counted { result ≡ false → self.old.place ≡ None → self.old.left ≡ self.new.left + 1 }
        ensures disk { self.new.disk ≡ self.old.disk }
        ensures done { self.new.done ≡ self.old.done }
        ensures counts { (self.new.written ≡ self.old.written) × (self.new.failed ≡ self.old.failed) }
    {
        if self.place.is_some() {
            return false;
        }
        if self.left == 0 {
            self.place = Some(place);
            return true;
        }
        self.left -= 1;
        false
    }
}

impl<D: Sectors> Sectors for OneFault<D> {
    ghost use Rattle.std.specs.Prelude.{◌≡◌, ◌+◌, None, Some, IsErr, false, true};
    ghost use Rattle.d64_image.specs.Calls.{ReadsSector, WritesSector};
    ghost use Rattle.d64_image.specs.Faults.{device_fault};
    ghost use Rattle.d64_image.specs.OneFaults.{Reaches, calls_left, fault_place, faulty_disk};
    ghost use Rattle.d64_image.specs.OneFaults.{is_done, is_due, one_fault};

    ghost history = { one_fault D.history };

    /// Passes a read on if it isn't the call that fails.
    fn read(&mut self, place: Place, to: &mut [u8; 256]) -> Result<(), DeviceFault>
        ensures device { ReadsSector (one_fault D.history) self.old self.new place to.new device_fault result }
        // the call that fails reads nothing
        ensures due { is_due self.old
            → IsErr result × (faulty_disk self.new ≡ faulty_disk self.old) × (fault_place self.new ≡ Some place) }
        // otherwise the disk beneath answers
        ensures passes { (is_due self.old → ⊥)
            → ReadsSector D.history (faulty_disk self.old) (faulty_disk self.new) place to.new device_fault result
            × (fault_place self.new ≡ fault_place self.old) }
        ensures counted { fault_place self.old ≡ None → (is_due self.old → ⊥)
            → calls_left self.old ≡ calls_left self.new + 1 }
        ensures done { is_done self.new ≡ is_done self.old }
    {
        if self.is_hit(place) {
            self.failed.add_one();
            return Err(DeviceFault);
        }
        match self.disk.read(place, to) {
            Ok(()) => Ok(()),
            Err(fault) => {
                self.failed.add_one();
                Err(fault)
            }
        }
    }

    /// Passes a write on if it isn't the call that fails, or if the disk is to take the failing write.
    fn write(&mut self, place: Place, from: &[u8; 256]) -> Result<(), DeviceFault>
        ensures device { WritesSector (one_fault D.history) self.old self.new place from.now device_fault result }
        // the disk takes the failing write or not, as `done` says
        ensures due { is_due self.old → IsErr result × (fault_place self.new ≡ Some place) }
        ensures undone { is_due self.old → is_done self.old ≡ false → faulty_disk self.new ≡ faulty_disk self.old }
        ensures reaches { is_due self.old → is_done self.old ≡ true
            → Reaches D.history (faulty_disk self.old) (faulty_disk self.new) place from.now }
        // otherwise the disk beneath answers
        ensures passes { (is_due self.old → ⊥)
            → WritesSector D.history (faulty_disk self.old) (faulty_disk self.new) place from.now device_fault result
            × (fault_place self.new ≡ fault_place self.old) }
        ensures counted { fault_place self.old ≡ None → (is_due self.old → ⊥)
            → calls_left self.old ≡ calls_left self.new + 1 }
        ensures done { is_done self.new ≡ is_done self.old }
    {
        let hit = self.is_hit(place);
        if hit && !self.done {
            self.failed.add_one();
            return Err(DeviceFault);
        }
        let answer = self.disk.write(place, from);
        if hit || answer.is_err() {
            self.failed.add_one();
            return Err(DeviceFault);
        }
        self.written.add_one();
        answer
    }
}
