//! A loss settled: a file that a lost sector cut short ends where it ends now, and its entry counts what is there.
ghost use Rattle.std.specs.Prelude.{◌≡◌, ◌<◌, ℕ, Contains, IfErr, List, OnOk, map};
ghost use Rattle.std.specs.List.{AllByRecursion};
ghost use Rattle.d64_image.specs.Memory.{disk_image};
ghost use Rattle.d64_image.specs.declared.place.Place as places;
ghost use Rattle.disk_layout.specs.Fault.{Holds, nowhere};
ghost use Rattle.disk_layout.specs.Layout.{IsLayout, Layout};
ghost use Rattle.disk_layout.specs.declared.slot.Slot as slots_of;
ghost use Rattle.damaged_files.specs.cut.Settled.{
  IsCountIn,
  IsLostEndIn,
  IsSettled,
  with_count,
  with_counts,
  with_end,
  with_ends,
};

use crate::cut::cuts::read_facts;
use crate::cut::tails::{count_to_set, lost_end};
use crate::sides::naming::overwrite;
use arrayvec::ArrayVec;
use d64_image::{MemDisk, Place, Sectors};
use disk_layout::{Fault, Slot};

/// The byte of a slot with which its block count begins.
const COUNT_AT: usize = 30;

/// Writes the end of a chain into a sector, of which no byte is the file's: 00 01.
fn put_end(after: &mut MemDisk, place: Place)
    ensures { disk_image after.new ≡ with_end (disk_image after.old) place }
{
    let mut bytes = *after.sector(place);
    overwrite(&mut bytes, 0, &[0, 1]);
    // a disk in memory never fails
    let _ = after.write(place, &bytes);
}

/// Writes a block count into an entry.
fn put_count(after: &mut MemDisk, slot: &Slot, count: u16)
    requires { slot.now.number < 8 }
    ensures { disk_image after.new ≡ with_count (disk_image after.old) slot.now count }
{
    let mut bytes = *after.sector(slot.sector);
    let at = 32 * slot.number as usize + COUNT_AT;
    overwrite(&mut bytes, at, &[(count % 256) as u8, (count / 256) as u8]);
    let _ = after.write(slot.sector, &bytes);
}

/// Ends the chains of these entries of a sound disk that end in a sector of zeros. `after` is a copy of `before`.
fn settle_ends(before: &mut MemDisk, after: &mut MemDisk, slots: &[Slot])
    requires copy { disk_image after.old ≡ disk_image before.old }
    ensures settled { (ends : List places.Place) × ((l : Layout) → IsLayout (disk_image before.old) l → slots.now ≡ map (λ f. f.slot) l.files
        → AllByRecursion (IsLostEndIn (disk_image before.old) l) ends)
        × (disk_image after.new ≡ with_ends (disk_image before.old) ends) }
    ensures same { disk_image before.new ≡ disk_image before.old }
{
    for slot in slots {
        if let Some(place) = lost_end(before, slot) {
            put_end(after, place);
        }
    }
}

/// Gives these entries of a sound disk the counts of their chains, if they count more blocks.
fn settle_counts(before: &mut MemDisk, after: &mut MemDisk, slots: &[Slot])
    requires low { (s : slots_of.Slot) → Contains slots.now s → s.number < 8 }
    ensures settled { (counts : List (slots_of.Slot × ℕ)) × ((l : Layout) → IsLayout (disk_image before.old) l
        → slots.now ≡ map (λ f. f.slot) l.files → AllByRecursion (IsCountIn l) counts)
        × (disk_image after.new ≡ with_counts (disk_image after.old) counts) }
    ensures same { disk_image before.new ≡ disk_image before.old }
{
    for slot in slots {
        if let Some(count) = count_to_set(before, slot) {
            put_count(after, slot, count);
        }
    }
}

/// Settles what a sound disk has lost of its files. The chain of a file that ends in a sector of zeros, as imaging tools leave
/// one that they couldn't read, ends there with no byte of that sector; and an entry that counts more blocks than its chain has
/// counts those of the chain. `after` is a copy of `before`, and gets this. If the disk isn't sound, the error is a fault that
/// holds of it, as `survey` returns it.
///
/// Nothing is written, and no memory is allocated. It takes about 20 KB of the stack.
pub fn settle(before: &mut MemDisk, after: &mut MemDisk) -> Result<(), Fault>
    requires copy { disk_image after.old ≡ disk_image before.old }
    ensures ok { OnOk result (IsSettled (disk_image before.old) (disk_image after.new)) }
    ensures err { IfErr result (Holds nowhere (disk_image before.old)) }
    ensures same { disk_image before.new ≡ disk_image before.old }
{
    let mut slots = ArrayVec::new();
    read_facts(before, &mut slots)?;
    settle_ends(before, after, slots.as_slice());
    settle_counts(before, after, slots.as_slice());
    Ok(())
}
