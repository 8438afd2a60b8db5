//! The first file of a disk that is cut short.
ghost use Rattle.std.specs.Prelude.{◌≡◌, ◌↔◌, IfErr, IfOk, IsOk, IsTrue, map};
ghost use Rattle.d64_image.specs.Images.{Image};
ghost use Rattle.d64_image.specs.Memory.{disk_image};
ghost use Rattle.disk_layout.specs.Fault.{Holds, nowhere};
ghost use Rattle.disk_layout.specs.Layout.{IsLayout, IsSound, Layout};
ghost use Rattle.damaged_files.specs.cut.Cut.{HasStray};
ghost use Rattle.disk_layout.specs.Listed.{HasStock};
ghost use Rattle.damaged_files.specs.cut.Told.{IsAsked, IsFewerTold, IsShortfall, IsShortfallOf, IsToldOf, IsToldOfDisk};

use crate::cut::names::has_stock;
use crate::cut::shortfalls::Shortfall;
use crate::cut::strays::has_stray;
use crate::cut::tails::{Facts, cut_of, fewer_of};
use arrayvec::ArrayVec;
use d64_image::{MemDisk, Place};
use disk_layout::{Fault, Slot, map_place, read_directory};
use layout_check::survey;

/// Whether the call is about the entry with this number: about each, or about the one that is asked for.
fn is_asked(number: usize, entry: Option<usize>) -> bool
    ensures { IsTrue result ↔ IsAsked entry number }
{
    match entry {
        Some(asked) => number == asked,
        None => true,
    }
}

/// The place where the first of these entries of a sound disk is cut short, of all of them or of that number alone.
fn first_cut(
    disk: &mut MemDisk,
    slots: &[Slot],
    entry: Option<usize>,
    facts: Facts,
) -> Option<Place>
    ensures told { (l : Layout) → IsLayout (disk_image disk.old) l → slots.now ≡ map (λ f. f.slot) l.files
        → (IsTrue facts.strays ↔ HasStray (disk_image disk.old) l) → (IsTrue facts.shop ↔ HasStock l)
        → IsToldOf (disk_image disk.old) l entry result }
    ensures same { disk_image disk.new ≡ disk_image disk.old }
{
    for (number, slot) in slots.iter().enumerate() {
        if is_asked(number, entry) {
            if let Some(place) = cut_of(disk, slot, facts) {
                return Some(place);
            }
        }
    }
    None
}

/// Reads the entries of a sound disk, and the facts of the whole disk. If it isn't sound, the error is a fault that holds
/// of it, as `survey` returns it.
pub(crate) fn read_facts(
    disk: &mut MemDisk,
    slots: &mut ArrayVec<Slot, 144>,
) -> Result<Facts, Fault>
    ensures ok { IfOk result (λ facts. (l : Layout) → IsLayout (disk_image disk.old) l
        → (slots.new.items ≡ map (λ f. f.slot) l.files)
        × (IsTrue facts.strays ↔ HasStray (disk_image disk.old) l) × (IsTrue facts.shop ↔ HasStock l)) }
    ensures err { IfErr result (Holds nowhere (disk_image disk.old)) }
    ensures sound { IsOk result ↔ IsSound (disk_image disk.old) }
    ensures same { disk_image disk.new ≡ disk_image disk.old }
{
    let found = survey(disk)?;
    read_directory(disk, slots)?;
    Ok(Facts {
        strays: has_stray(disk.sector(map_place()), &found),
        shop: has_stock(slots.as_slice()),
    })
}

/// Finds the first file of a sound disk that is cut short, in the order of the directory: of all files, or of the one of
/// the used entry with this number, from 0. Returns the sector where its chain ends, and None if none of them is cut
/// short. If the disk isn't sound, the error is a fault that holds of it, as `survey` returns it.
///
/// Nothing is written, and no memory is allocated. It takes about 20 KB of the stack.
pub fn find_cut(disk: &mut MemDisk, entry: Option<usize>) -> Result<Option<Place>, Fault>
    ensures ok { IfOk result (λ told. (l : Layout) → IsLayout (disk_image disk.old) l
        → IsToldOf (disk_image disk.old) l entry told) }
    ensures err { IfErr result (Holds nowhere (disk_image disk.old)) }
    // the result is Ok exactly on a sound disk
    ensures sound { IsOk result ↔ IsSound (disk_image disk.old) }
    ensures same { disk_image disk.new ≡ disk_image disk.old }
{
    let mut slots = ArrayVec::new();
    let facts = read_facts(disk, &mut slots)?;
    Ok(first_cut(disk, slots.as_slice(), entry, facts))
}

/// The place where the chain of the first of these entries of a sound disk ends that counts more blocks than it has.
fn first_fewer(disk: &mut MemDisk, slots: &[Slot]) -> Option<Place>
    ensures told { (l : Layout) → IsLayout (disk_image disk.old) l → slots.now ≡ map (λ f. f.slot) l.files
        → IsFewerTold l result }
    ensures same { disk_image disk.new ≡ disk_image disk.old }
{
    for slot in slots {
        if let Some(place) = fewer_of(disk, slot) {
            return Some(place);
        }
    }
    None
}

/// What the first of these entries of a sound disk lacks: one that is cut short comes before one that has fewer blocks.
fn first_shortfall(disk: &mut MemDisk, slots: &[Slot], facts: Facts) -> Option<Shortfall>
    ensures told { (l : Layout) → IsLayout (disk_image disk.old) l → slots.now ≡ map (λ f. f.slot) l.files
        → (IsTrue facts.strays ↔ HasStray (disk_image disk.old) l) → (IsTrue facts.shop ↔ HasStock l)
        → IsShortfall (disk_image disk.old) l result }
    ensures same { disk_image disk.new ≡ disk_image disk.old }
{
    if let Some(place) = first_cut(disk, slots, None, facts) {
        return Some(Shortfall::Short(place));
    }
    match first_fewer(disk, slots) {
        Some(place) => Some(Shortfall::Fewer(place)),
        None => None,
    }
}

/// Finds what the files of a disk lack: the first one that is cut short, as `find_cut` does, and otherwise the first one
/// that has fewer blocks than its entry says. None if there is neither, or if the disk isn't sound: then no file is checked.
///
/// Nothing is written, and no memory is allocated. It takes about 20 KB of the stack.
pub fn find_shortfall(disk: &mut MemDisk) -> Option<Shortfall>
    ensures told { IsShortfallOf (disk_image disk.old) result }
    ensures same { disk_image disk.new ≡ disk_image disk.old }
{
    let mut slots = ArrayVec::new();
    match read_facts(disk, &mut slots) {
        Ok(facts) => first_shortfall(disk, slots.as_slice(), facts),
        Err(_) => None,
    }
}

/// Finds the same, and returns None also if the disk isn't sound: then no file of it is checked.
pub fn sound_cut(disk: &mut MemDisk, entry: Option<usize>) -> Option<Place>
    ensures told { IsToldOfDisk (disk_image disk.old) entry result }
    ensures same { disk_image disk.new ≡ disk_image disk.old }
{
    match find_cut(disk, entry) {
        Ok(cut) => cut,
        Err(_) => None,
    }
}
