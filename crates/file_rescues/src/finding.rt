//! The file that is asked for, on a disk that may be hurt.
ghost use Rattle.std.specs.Prelude.{◌≡◌, ◌↔◌, IfErr, IfOk, IsTrue, MatchOption};
ghost use Rattle.d64_image.specs.Memory.{disk_image};
ghost use Rattle.damaged_files.specs.reached.Sharing as sharing;
ghost use Rattle.file_rescues.specs.Found as found;
ghost use Rattle.file_rescues.specs.Found.{HasNone, HasNoneAsked, IsAsked, IsCandidate, IsFirstAsked, IsHad, IsNamedSo};

use arrayvec::ArrayVec;
use d64_image::{MemDisk, Place};
use damaged_files::{owners_of, reach_file, read_so_far};
use disk_layout::{EntryView, Fault, MOST_BLOCKS, Slot};

/// Which entries may be found by their name.
#[derive(Clone, Copy, Debug, PartialEq, Eq)]
pub enum Candidates {
    /// Only those that are closed.
    Closed,
    /// All, closed or not.
    All,
}

/// Which entries of a name are asked for.
#[derive(Clone, Copy, Debug, PartialEq, Eq)]
pub enum Kind {
    /// Those of any type.
    Any(Candidates),
    /// Relative ones whose records have a length that there is.
    Records(Candidates),
}

/// The file of an entry as far as it can be reached.
#[derive(Clone, Copy)]
pub(crate) struct FoundFile {
    /// Its number among the used entries, from 0.
    pub(crate) number: usize,
    /// The entry.
    pub(crate) slot: Slot,
    /// The index of the last byte of the last block that is the file's: 0 or 1 if it has none there.
    pub(crate) last: u8,
    /// Why this may not be the whole file.
    pub(crate) fault: Option<Fault>,
    /// What ends its chain early.
    pub(crate) broken: Option<Fault>,
    /// Its chain aside, why this may not be the whole file.
    pub(crate) apart: Option<Fault>,
}

/// Whether the entry may be found by its name.
fn is_candidate(slot: &Slot, candidates: Candidates) -> bool
    ensures { IsTrue result ↔ IsCandidate candidates slot.now }
{
    match candidates {
        Candidates::Closed => EntryView::new(&slot.bytes).is_closed(),
        Candidates::All => true,
    }
}

/// Whether the entry may be found, of whatever type, and has this name.
fn is_named(slot: &Slot, candidates: Candidates, name: &[u8]) -> bool
    ensures { IsTrue result ↔ IsNamedSo candidates name.now slot.now }
{
    is_candidate(slot, candidates) && EntryView::new(&slot.bytes).has_name(name)
}

/// The length of the entry's records in bytes, 1 to 254, if it is relative, closed or not, and has such a length.
pub fn length_of_records(slot: &Slot) -> Option<u8>
    ensures { result ≡ found.records_length slot.now }
{
    let entry = EntryView::new(&slot.bytes);
    let length = entry.record_length();
    if entry.type_byte() % 16 == 4 && 1 <= length && length <= 254 {
        Some(length)
    } else {
        None
    }
}

/// Whether the entry is asked for: it has this name, and is of this kind.
fn is_asked(slot: &Slot, kind: Kind, name: &[u8]) -> bool
    ensures { IsTrue result ↔ IsAsked kind name.now slot.now }
{
    match kind {
        Kind::Any(candidates) => is_named(slot, candidates, name),
        Kind::Records(candidates) => {
            is_named(slot, candidates, name) && length_of_records(slot).is_some()
        }
    }
}

/// The number, from 0, of the first of these entries that is asked for.
fn first_asked(slots: &[Slot], kind: Kind, name: &[u8]) -> Option<usize>
    ensures { MatchOption result (HasNoneAsked slots.now kind name.now) (IsFirstAsked slots.now kind name.now) }
{
    for (number, slot) in slots.iter().enumerate() {
        if is_asked(slot, kind, name) {
            return Some(number);
        }
    }
    None
}

/// The fault of a file whose first shared block is this one.
fn shared_fault(shared: Option<Place>) -> Option<Fault>
    ensures { result ≡ sharing.shared_fault shared }
{
    match shared {
        Some(place) => Some(Fault::OwnedTwice(place)),
        None => None,
    }
}

/// The fault of an entry that isn't closed.
fn unclosed_fault(slot: &Slot) -> Option<Fault>
    ensures { result ≡ found.unclosed slot.now }
{
    if EntryView::new(&slot.bytes).is_closed() {
        None
    } else {
        Some(Fault::Unclosed(slot.sector))
    }
}

/// Fills `blocks` with those that can be reached of the first entry of this name and kind, in a directory that is read as
/// far as its links lead.
///
/// Its fault is the first of these: what ends the directory early; what ends the file's chain early; `OwnedTwice` at its
/// first block that the map, the directory or another entry has too; `Unclosed` at its directory sector. What ends the chain is
/// returned by itself too, and so is the first of the others. Without such an entry the error is what ends the directory early, or none.
pub(crate) fn find_file(
    disk: &MemDisk,
    kind: Kind,
    name: &[u8],
    blocks: &mut ArrayVec<Place, MOST_BLOCKS>,
) -> Result<FoundFile, Option<Fault>>
    ensures ok { IfOk result (λ file. (had : IsHad (disk_image disk.now) kind name.now file.number file.slot
        blocks.new.items file.last file.fault) × (file.broken ≡ had.broken)
        × (file.apart ≡ found.apart_from_chain file.slot blocks.new.items had.ended had.all)) }
    ensures err { IfErr result (HasNone (disk_image disk.now) kind name.now) }
{
    let mut sectors = ArrayVec::new();
    let mut entries = ArrayVec::new();
    let ended = read_so_far(disk, &mut sectors, &mut entries);
    let slots = entries.as_slice();
    let Some(number) = first_asked(slots, kind, name) else {
        return Err(ended);
    };
    let slot = slots[number];
    let reach = reach_file(disk, &slot, blocks);
    let owners = owners_of(disk, sectors.as_slice(), slots);
    let shared = owners.first_shared(blocks.as_slice());
    let several = shared_fault(shared);
    let open = unclosed_fault(&slot);
    Ok(FoundFile {
        number,
        slot,
        last: reach.last,
        fault: ended.or(reach.fault).or(several).or(open),
        broken: reach.fault,
        apart: ended.or(several).or(open),
    })
}
