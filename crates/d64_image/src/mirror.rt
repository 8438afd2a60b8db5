//! A disk in memory whose sectors also go to a file.
ghost use Rattle.std.specs.Prelude.{OnOk};
ghost use Rattle.std.specs.Io.KnownBytes.{Appends};

use crate::count::Count;
use crate::faults::DeviceFault;
use crate::mem_disk::MemDisk;
use crate::place::Place;
use crate::sectors::Sectors;
use std::io::{Seek, SeekFrom, Write};

/// A disk in memory, and a file that holds the same image: any file with `Write` and `Seek`. The mirror hands each
/// sector to the file, at 256 times its index, before memory takes it. If the file fails, memory stays as it was, and
/// each later call fails. What the file holds of the failed sector is unknown, and a later write would make the file
/// and memory differ for good. Over a file that is a `SectorFile`, `KeptMirror` also promises what the file keeps.
#[derive(Drop)]
pub struct Mirror<F> {
    file: F,
    disk: MemDisk,
    at: Option<u64>,
    broken: bool,
    taken: Count,
    failed: Count,
}

/// Writes all these bytes. A file that gathers bytes passes them on.
#[tactic(auto, using(crate::proofs::Mirrored::appends_kept))]
// In line, as all on the way to the file is: a return right after a system call is slow.
#[inline(always)]
fn write_through<F: Write>(file: &mut F, bytes: &[u8]) -> std::io::Result<()>
    ensures { OnOk result (Appends (F.contents file.old) (F.contents file.new) bytes.now) }
{
    file.write_all(bytes)?;
    file.flush()
}

impl<F: Write + Seek> Mirror<F> {
    ghost use Rattle.std.specs.Prelude.{◌≡◌, ◌↔◌, ◌+◌, None, Some, true};
    ghost use Rattle.d64_image.specs.Mirrors.{IsHanded, is_broken, mirror_at, mirror_disk};
    ghost use Rattle.d64_image.specs.Mirrors.{mirror_failures, mirror_file, mirror_writes};
    ghost use Rattle.d64_image.specs.Offsets.{offset_of};

    /// A mirror of a disk in a file that holds the same 174,848 bytes, at whatever position the file is. This changes
    /// neither of them.
    pub fn new(file: F, disk: MemDisk) -> Mirror<F>
        ensures disk { mirror_disk result ≡ disk }
        ensures file { mirror_file result ≡ file }
        ensures at { mirror_at result ≡ None }
        ensures whole { is_broken result → ⊥ }
        ensures unfailed { mirror_failures result ≡ 0 }
        ensures untaken { mirror_writes result ≡ 0 }
    {
        Mirror {
            file,
            disk,
            at: None,
            broken: false,
            taken: Count::zero(),
            failed: Count::zero(),
        }
    }

    /// Whether the file failed.
    pub fn is_broken(&self) -> bool
        ensures { result ≡ true ↔ is_broken self.now }
    {
        self.broken
    }

    /// The file, and the disk in memory.
    pub fn into_inner(self) -> (F, MemDisk)
        ensures file { result.0 ≡ mirror_file self }
        ensures disk { result.1 ≡ mirror_disk self }
    {
        let Mirror {
            file,
            disk,
            at: _,
            broken: _,
            taken: _,
            failed: _,
        } = self;
        (file, disk)
    }

    /// Hands a sector to the file. It seeks only if the file is at another position.
    // In line, as `write_through` is.
    #[inline(always)]
    fn hand_over(&mut self, place: Place, from: &[u8; 256]) -> std::io::Result<()>
        ensures disk { self.new.disk ≡ self.old.disk }
        ensures broken { self.new.broken ≡ self.old.broken }
        ensures taken { self.new.taken ≡ self.old.taken }
        ensures failed { self.new.failed ≡ self.old.failed }
        ensures ok { OnOk result (self.new.at ≡ Some (offset_of place + 256)) }
        ensures handed { OnOk result (IsHanded F.stream_position F.stream_bytes F.contents
            self.old.at self.old.file self.new.file (offset_of place) from.now) }
    {
        let offset = 256 * place.index() as u64;
        if self.at != Some(offset) {
            self.file.seek(SeekFrom::Start(offset))?;
        }
        write_through(&mut self.file, from)?;
        self.at = Some(offset + 256);
        Ok(())
    }
}

impl<F: Write + Seek> Sectors for Mirror<F> {
    ghost use Rattle.std.specs.Prelude.{◌≡◌, ◌+◌, Some, IsErr, IsOk, OnErr, OnOk};
    ghost use Rattle.d64_image.specs.Calls.{ReadsSector, WritesSector};
    ghost use Rattle.d64_image.specs.Faults.{device_fault};
    ghost use Rattle.d64_image.specs.Memory.{disk_bytes};
    ghost use Rattle.d64_image.specs.Mirrors.{IsHanded, is_broken, mirror};
    ghost use Rattle.d64_image.specs.Mirrors.{mirror_at, mirror_disk, mirror_file};
    ghost use Rattle.d64_image.specs.Offsets.{offset_of, overwritten};

    ghost history = { mirror F.stream_position F.stream_bytes F.contents };

    /// Reads memory alone. The call fails exactly if the mirror is broken.
    fn read(&mut self, place: Place, to: &mut [u8; 256]) -> Result<(), DeviceFault>
        ensures device { ReadsSector (mirror F.stream_position F.stream_bytes F.contents) self.old self.new place to.new device_fault result }
        // it fails exactly if the mirror is broken
        ensures broken { is_broken self.old → IsErr result }
        ensures whole { (is_broken self.old → ⊥) → IsOk result }
        ensures file { (mirror_file self.new ≡ mirror_file self.old) × (mirror_at self.new ≡ mirror_at self.old) }
    {
        if self.broken {
            self.failed.add_one();
            return Err(DeviceFault);
        }
        self.disk.read(place, to)
    }

    /// Hands the sector to the file, and then to memory. If the file fails, memory is as before and the mirror is
    /// broken.
    // In line, as `write_through` is.
    #[inline(always)]
    fn write(&mut self, place: Place, from: &[u8; 256]) -> Result<(), DeviceFault>
        ensures device { WritesSector (mirror F.stream_position F.stream_bytes F.contents) self.old self.new place from.now
            device_fault result }
        // a broken mirror hands nothing over
        ensures broken { is_broken self.old → IsErr result × (mirror_file self.new ≡ mirror_file self.old) }
        // the file was handed this sector alone, at its place, with a seek only if it was at another position; memory's
        // bytes changed at that same place
        ensures handed { OnOk result (IsHanded F.stream_position F.stream_bytes F.contents
            (mirror_at self.old) (mirror_file self.old) (mirror_file self.new) (offset_of place) from.now) }
        ensures bytes { OnOk result (disk_bytes (mirror_disk self.new)
            ≡ overwritten (disk_bytes (mirror_disk self.old)) (offset_of place) from.now) }
        ensures at { OnOk result (mirror_at self.new ≡ Some (offset_of place + 256)) }
        ensures kept { OnErr result (is_broken self.new × (mirror_disk self.new ≡ mirror_disk self.old)) }
    {
        if self.broken || self.hand_over(place, from).is_err() {
            self.broken = true;
            self.failed.add_one();
            return Err(DeviceFault);
        }
        self.taken.add_one();
        self.disk.write(place, from)
    }
}
