//! A disk in memory whose sectors a file keeps.
ghost use Rattle.std.specs.Prelude.{◌≡◌, true};
ghost use Rattle.d64_image.specs.Keeps.{Agrees};
ghost use Rattle.d64_image.specs.Memory.{disk_image};
ghost use Rattle.std.proofs.Props.{props};

use crate::count::Count;
use crate::faults::DeviceFault;
use crate::mem_disk::MemDisk;
use crate::place::Place;
use crate::sector_file::SectorFile;
use crate::sectors::Sectors;

/// A disk in memory, and a file that keeps the same image. The mirror hands each sector to the file before memory takes
/// it. If the file fails, memory stays as it was, and each later call fails. Whether the file keeps the failed sector
/// is unknown, and a later write would make the file and memory differ for good.
#[derive(Drop)]
pub struct KeptMirror<F: SectorFile> {
    file: F,
    disk: MemDisk,
    broken: bool,
    taken: Count,
    ghost agrees: { (broken ≡ true → ⊥) → Agrees (F.keeps.kept file) (disk_image disk) } by { Prim.hlevel props },
}

impl<F: SectorFile> KeptMirror<F> {
    ghost use Rattle.std.specs.Prelude.{◌↔◌};
    ghost use Rattle.d64_image.specs.KeptMirrors.{mirror_file, is_broken, mirror_disk, mirror_writes};

    /// A mirror of a disk in a file. The file keeps the same image, or what it keeps isn't known. This changes neither
    /// of them.
    pub fn new(file: F, disk: MemDisk) -> KeptMirror<F>
        requires agrees { Agrees (F.keeps.kept file) (disk_image disk) }
        ensures file { mirror_file result ≡ file }
        ensures disk { mirror_disk result ≡ disk }
        ensures whole { is_broken result → ⊥ }
        ensures untaken { mirror_writes result ≡ 0 }
    {
        KeptMirror {
            file,
            disk,
            broken: false,
            taken: Count::zero(),
        }
    }

    /// Whether the file failed.
    pub fn is_broken(&self) -> bool
        ensures { result ≡ true ↔ is_broken self.now }
    {
        self.broken
    }

    /// The disk in memory.
    pub fn disk(&self) -> &MemDisk
        ensures { result.now ≡ mirror_disk self.now }
    {
        &self.disk
    }

    /// The file, and the disk in memory.
    pub fn into_inner(self) -> (F, MemDisk)
        ensures file { result.0 ≡ mirror_file self }
        ensures disk { result.1 ≡ mirror_disk self }
    {
        let KeptMirror {
            file,
            disk,
            broken: _,
            taken: _,
        } = self;
        (file, disk)
    }
}

impl<F: SectorFile> Sectors for KeptMirror<F> {
    ghost use Rattle.std.specs.Prelude.{IsErr, IsOk, OnErr, OnOk};
    ghost use Rattle.d64_image.specs.Calls.{ReadsSector, WritesSector};
    ghost use Rattle.d64_image.specs.Faults.{device_fault};
    ghost use Rattle.d64_image.specs.Memory.{disk_bytes};
    ghost use Rattle.d64_image.specs.KeptMirrors.{is_broken, mirror, mirror_disk, mirror_file};
    ghost use Rattle.d64_image.specs.Offsets.{offset_of, overwritten};

    ghost history = { mirror };

    /// Reads memory alone. The call fails exactly if the mirror is broken.
    fn read(&mut self, place: Place, to: &mut [u8; 256]) -> Result<(), DeviceFault>
        ensures device { ReadsSector mirror self.old self.new place to.new device_fault result }
        // it fails exactly if the mirror is broken
        ensures broken { is_broken self.old → IsErr result }
        ensures whole { (is_broken self.old → ⊥) → IsOk result }
        ensures file { mirror_file self.new ≡ mirror_file self.old }
    {
        if self.broken {
            return Err(DeviceFault);
        }
        self.disk.read(place, to)
    }

    /// Hands the sector to the file, and then to memory. If the file fails, memory is as before and the mirror is
    /// broken.
    // In line: a return right after a system call is slow.
    #[inline(always)]
    fn write(&mut self, place: Place, from: &[u8; 256]) -> Result<(), DeviceFault>
        ensures device { WritesSector mirror self.old self.new place from.now device_fault result }
        // a broken mirror hands nothing over
        ensures broken { is_broken self.old → IsErr result × (mirror_file self.new ≡ mirror_file self.old) }
        // at Ok memory's bytes changed at 256 times the sector's index
        ensures bytes { OnOk result (disk_bytes (mirror_disk self.new)
            ≡ overwritten (disk_bytes (mirror_disk self.old)) (offset_of place) from.now) }
        ensures kept { OnErr result (is_broken self.new × (mirror_disk self.new ≡ mirror_disk self.old)) }
    {
        if self.broken || self.file.keep(place, from).is_err() {
            self.broken = true;
            return Err(DeviceFault);
        }
        self.taken.add_one();
        self.disk.write(place, from)
    }
}
