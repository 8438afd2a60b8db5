//! A disk with the bytes of an image, and with all that stood in their place before.
ghost use Rattle.std.specs.Prelude.{◌≡◌, ◌<◌, ◌+◌, ℕ, false, length, slice_index, true};
ghost use Rattle.d64_image.specs.Offsets.{overwritten};
ghost use Rattle.std.proofs.Props.{props};
ghost use Rattle.test_files.specs.Past.{AreImages};

use std::alloc::{AllocError, Global};

/// How many bytes a disk has: those of an image.
pub const IMAGE_BYTES: usize = 174_848;

/// What stays if the machine loses power: the bytes of an image, and those that stood in their place before.
#[derive(Drop)]
pub struct Disk {
    alloc: Global,
    bytes: Vec<u8>,
    past: Vec<Vec<u8>>,
    ghost size: { length bytes.items ≡ 174848 },
    ghost small: { (i : ℕ) → slice_index bytes.items i < 256 } by { Prim.hlevel props },
    ghost images: { AreImages past.items } by { Prim.hlevel props },
}

/// Puts bytes in the place of those from there on. Returns whether there are so many: if not, nothing changes.
fn put(held: &mut [u8], at: u64, bytes: &[u8]) -> bool
    ensures size { length held.new ≡ length held.old }
    ensures done { result ≡ true → held.new ≡ overwritten held.old at bytes.now }
    ensures beyond { result ≡ false → length held.old < at + length bytes.now }
{
    let from = at as usize;
    let size = bytes.len();
    if held.len() < size || held.len() - size < from {
        return false;
    }
    held[from..from + size].copy_from_slice(bytes);
    true
}

impl Disk {
    ghost use Rattle.std.specs.Prelude.{Some, IfOk, IfSome, IsSome, OnErr, OnOk, get_or};
    ghost use Rattle.image_file.specs.Lasting.{StaysOr};
    ghost use Rattle.test_files.specs.Disks.{disk_bytes, disk_lasting, changes_of};
    ghost use Rattle.test_files.specs.Past.{HadBeen};

    /// A disk with this image on it, and nothing before. An error if memory for it was refused.
    pub fn new(alloc: Global, image: &[u8]) -> Result<Disk, AllocError>
        requires size { length image.now ≡ 174848 }
        ensures bytes { IfOk result (λ disk. disk_bytes disk ≡ image.now) }
        ensures changes { IfOk result (λ disk. changes_of disk ≡ 0) }
    {
        let bytes = image.to_vec(alloc)?;
        Ok(Disk {
            alloc,
            bytes,
            past: Vec::new(alloc),
        })
    }

    /// What is on it.
    pub fn bytes(&self) -> &[u8]
        ensures { result.now ≡ disk_bytes self.now }
    {
        self.bytes.as_slice()
    }

    /// How often other bytes came to it.
    pub fn changes(&self) -> usize
        ensures { result ≡ changes_of self.now }
    {
        self.past.len()
    }

    /// Puts these bytes in the place of all that is there, which it keeps. An error if memory was refused: it is as it
    /// was.
    pub(crate) fn bring(&mut self, bytes: &[u8]) -> Result<(), AllocError>
        requires size { length bytes.now ≡ 174848 }
        ensures ok { OnOk result (disk_bytes self.new ≡ bytes.now) }
        ensures same { OnErr result (disk_bytes self.new ≡ disk_bytes self.old) }
        ensures stays { StaysOr disk_lasting self.old self.new (Some bytes.now) }
        // what was there before stays known
        ensures before { OnOk result (HadBeen self.new.past.items (disk_bytes self.old)) }
    {
        let next = bytes.to_vec(self.alloc)?;
        let before = self.bytes.to_vec(self.alloc)?;
        self.past.push(before)?;
        self.bytes = next;
        Ok(())
    }

    /// Puts these bytes in the place of those from there on. Returns whether there are so many: if not, it is as it was.
    /// An error if memory was refused: it is as it was then too.
    pub(crate) fn put(&mut self, at: u64, bytes: &[u8]) -> Result<bool, AllocError>
        ensures done { IfOk result (λ fits. fits ≡ true
            → disk_bytes self.new ≡ overwritten (disk_bytes self.old) at bytes.now) }
        ensures beyond { IfOk result (λ fits. fits ≡ false → 174848 < at + length bytes.now) }
        ensures same { IfOk result (λ fits. fits ≡ false → self.new ≡ self.old) }
        ensures refused { OnErr result (disk_bytes self.new ≡ disk_bytes self.old) }
        ensures stays { StaysOr disk_lasting self.old self.new (Some (overwritten (disk_bytes self.old) at bytes.now)) }
    {
        let mut next = self.bytes.to_vec(self.alloc)?;
        if !put(next.as_mut_slice(), at, bytes) {
            return Ok(false);
        }
        self.bring(next.as_slice())?;
        Ok(true)
    }
}
