//! What can be reached of each entry of a directory.
ghost use Rattle.std.specs.Prelude.{◌≡◌, ◌≢◌, ◌≤◌, ◌++◌, ◌∷◌, [], ℕ, List, IfErr, IfOk, None, OnOk, Some, filter, length, map, true};
ghost use Rattle.d64_image.specs.Memory.{disk_image};
ghost use Rattle.d64_image.specs.Places.{index_of};
ghost use Rattle.command_faults.specs.declared.faults.CommandFault.TheVariants as faults;
ghost use Rattle.std.specs.Option.{is_some};
ghost use Rattle.geos_files.specs.Long.{long_geos};
ghost use Rattle.file_rescues.specs.rescue.Rescues.{AreRescued, IsOfChain, IsRescued, is_on_disk};
ghost use Rattle.geos_files.specs.Entries.{geos_entry};

use crate::long_files::find_long;
use arrayvec::ArrayVec;
use command_faults::CommandFault;
use d64_image::{MemDisk, Place, SECTORS};
use damaged_files::{Reach, reach_file};
use disk_layout::{Fault, MOST_BLOCKS, Slot};
use geos_files::{GeosEntry, find_long_geos, geos_entry, reach_geos};
use std::alloc::Global;

/// An entry of a directory, and what can be reached of its file.
#[derive(Drop)]
pub struct Rescued {
    /// The entry, closed or not.
    pub(crate) slot: Slot,
    /// The blocks of its file that can be reached, in order and each once.
    pub(crate) blocks: Vec<Place>,
    /// The index of the last byte of the last block that is the file's: 0 or 1 if it has none there.
    pub(crate) last: u8,
    /// What ended the chain, if it wasn't its end.
    pub(crate) fault: Option<Fault>,
    /// Two bytes for each record of a file of GEOS, as CVT has them. None of any other file.
    pub(crate) pairs: Vec<u8>,
    /// The numbers of the sectors of its whole chain, or of all blocks of a file of GEOS, if one of them is past track 35 and the image has
    /// all of it: then `blocks` are those of them that tracks 1 to 35 have. None of any other file.
    pub(crate) sectors: Vec<u16>,
    /// Whether it is a file of GEOS, which is written as CVT.
    pub(crate) is_cvt: bool,
}

impl Rescued {
    ghost use Rattle.file_rescues.specs.rescue.Rescues as rescues;

    /// Whether it has a sector past track 35, and the image has all of it.
    pub(crate) fn is_long(&self) -> bool
        ensures { result ≡ rescues.is_long self.now }
    {
        0 < self.sectors.len()
    }

    /// How many blocks of it there are.
    pub(crate) fn block_count(&self) -> usize
        ensures { result ≡ rescues.block_count self.now }
    {
        if self.is_long() {
            self.sectors.len()
        } else {
            self.blocks.len()
        }
    }
}

/// The slot with what was reached of its file, in these blocks and pairs. The only error is `NoMemory`.
fn with_reach(
    alloc: Global,
    slot: &Slot,
    blocks: &[Place],
    pairs: &[u8],
    reach: &Reach,
    is_cvt: bool,
) -> Result<Rescued, CommandFault>
    ensures slot { IfOk result (λ file. file.slot ≡ slot.now) }
    ensures blocks { IfOk result (λ file. file.blocks.items ≡ blocks.now) }
    ensures pairs { IfOk result (λ file. file.pairs.items ≡ pairs.now) }
    ensures sectors { IfOk result (λ file. file.sectors.items ≡ []) }
    ensures end { IfOk result (λ file. (file.last ≡ reach.now.last) × (file.fault ≡ reach.now.fault)) }
    ensures cvt { IfOk result (λ file. file.is_cvt ≡ is_cvt) }
    ensures err { IfErr result (λ fault. fault ≡ faults.NoMemory) }
{
    let Ok(blocks) = Vec::from_slice(alloc, blocks) else {
        return Err(CommandFault::NoMemory);
    };
    let Ok(pairs) = Vec::from_slice(alloc, pairs) else {
        return Err(CommandFault::NoMemory);
    };
    Ok(Rescued {
        slot: *slot,
        blocks,
        last: reach.last,
        fault: reach.fault,
        pairs,
        sectors: Vec::new(alloc),
        is_cvt,
    })
}

/// Adds the place of this sector, if tracks 1 to 35 have the sector. The only error is `NoMemory`.
fn add_place(places: &mut Vec<Place>, number: u16) -> Result<(), CommandFault>
    ensures ok { OnOk result (map index_of places.new.items
        ≡ map index_of places.old.items ++ filter is_on_disk (number ∷ [])) }
    ensures err { IfErr result (λ fault. fault ≡ faults.NoMemory) }
{
    let number = number as usize;
    if number >= SECTORS {
        return Ok(());
    }
    match places.push(Place::nth(number)) {
        Ok(()) => Ok(()),
        Err(_) => Err(CommandFault::NoMemory),
    }
}

/// The places of those of these sectors that tracks 1 to 35 have. The only error is `NoMemory`.
fn places_among(alloc: Global, chain: &[u16]) -> Result<Vec<Place>, CommandFault>
    ensures ok { IfOk result (λ places. map index_of places.items ≡ filter is_on_disk chain.now) }
    ensures err { IfErr result (λ fault. fault ≡ faults.NoMemory) }
{
    let mut places = Vec::new(alloc);
    for &number in chain {
        add_place(&mut places, number)?;
    }
    Ok(places)
}

/// The slot with a file that has these sectors, and these pairs. The only error is `NoMemory`.
fn with_chain(
    alloc: Global,
    slot: &Slot,
    chain: &[u16],
    pairs: &[u8],
    is_cvt: bool,
) -> Result<Rescued, CommandFault>
    ensures slot { IfOk result (λ file. file.slot ≡ slot.now) }
    ensures pairs { IfOk result (λ file. file.pairs.items ≡ pairs.now) }
    ensures ok { IfOk result (λ file. IsOfChain file chain.now) }
    ensures cvt { IfOk result (λ file. file.is_cvt ≡ is_cvt) }
    ensures err { IfErr result (λ fault. fault ≡ faults.NoMemory) }
{
    let blocks = places_among(alloc, chain)?;
    let Ok(sectors) = Vec::from_slice(alloc, chain) else {
        return Err(CommandFault::NoMemory);
    };
    let Ok(pairs) = Vec::from_slice(alloc, pairs) else {
        return Err(CommandFault::NoMemory);
    };
    Ok(Rescued {
        slot: *slot,
        blocks,
        last: 0,
        fault: None,
        pairs,
        sectors,
        is_cvt,
    })
}

/// What can be reached of a file of GEOS with this entry. The only error is `NoMemory`.
fn rescue_geos(
    alloc: Global,
    disk: &MemDisk,
    slot: &Slot,
    entry: &GeosEntry,
    room: &mut ArrayVec<Place, MOST_BLOCKS>,
) -> Result<Rescued, CommandFault>
    requires geos { geos_entry slot.now ≡ Some entry.now }
    requires apart { entry.now.info ≢ entry.now.first }
    ensures slot { IfOk result (λ file. file.slot ≡ slot.now) }
    ensures ok { IfOk result (λ file. (image : List ℕ) → long_geos image slot.now ≡ None
        → IsRescued image (disk_image disk.now) file) }
    ensures err { IfErr result (λ fault. fault ≡ faults.NoMemory) }
{
    let mut pairs = ArrayVec::new();
    let reach = reach_geos(disk, entry, room, &mut pairs);
    let file = with_reach(alloc, slot, room.as_slice(), pairs.as_slice(), &reach, true)?;
    Ok(file)
}

/// What can be reached of a file that isn't one of GEOS. The only error is `NoMemory`.
fn rescue_chain(
    alloc: Global,
    image: &[u8],
    disk: &MemDisk,
    slot: &Slot,
    room: &mut ArrayVec<Place, MOST_BLOCKS>,
) -> Result<Rescued, CommandFault>
    requires long { long_geos image.now slot.now ≡ None }
    requires geos { geos_entry slot.now ≡ None }
    ensures slot { IfOk result (λ file. file.slot ≡ slot.now) }
    ensures ok { IfOk result (IsRescued image.now (disk_image disk.now)) }
    ensures err { IfErr result (λ fault. fault ≡ faults.NoMemory) }
{
    let reach = reach_file(disk, slot, room);
    let mut chain = ArrayVec::new();
    if find_long(image, slot, reach.fault, &mut chain) {
        return with_chain(alloc, slot, chain.as_slice(), &[], false);
    }
    let file = with_reach(alloc, slot, room.as_slice(), &[], &reach, false)?;
    Ok(file)
}

/// What can be reached of an entry's file that isn't one of GEOS with a sector past track 35 and all of it in the image. The only error is
/// `NoMemory`.
fn rescue_other(
    alloc: Global,
    image: &[u8],
    disk: &MemDisk,
    slot: &Slot,
    room: &mut ArrayVec<Place, MOST_BLOCKS>,
) -> Result<Rescued, CommandFault>
    requires { long_geos image.now slot.now ≡ None }
    ensures slot { IfOk result (λ file. file.slot ≡ slot.now) }
    ensures ok { IfOk result (IsRescued image.now (disk_image disk.now)) }
    ensures err { IfErr result (λ fault. fault ≡ faults.NoMemory) }
{
    match geos_entry(slot) {
        Some(entry) => rescue_geos(alloc, disk, slot, &entry, room),
        None => rescue_chain(alloc, image, disk, slot, room),
    }
}

/// What can be reached of an entry's file on the disk of an image, with room for its blocks. If its chain goes on past track 35, or one of
/// GEOS has a sector there, and the image has all of it, this is the whole file. The only error is `NoMemory`.
pub(crate) fn rescue(
    alloc: Global,
    image: &[u8],
    disk: &MemDisk,
    slot: &Slot,
    room: &mut ArrayVec<Place, MOST_BLOCKS>,
) -> Result<Rescued, CommandFault>
    ensures slot { IfOk result (λ file. file.slot ≡ slot.now) }
    ensures ok { IfOk result (IsRescued image.now (disk_image disk.now)) }
    ensures err { IfErr result (λ fault. fault ≡ faults.NoMemory) }
{
    let mut sectors = ArrayVec::new();
    let mut pairs = ArrayVec::new();
    if find_long_geos(image, slot, &mut sectors, &mut pairs) {
        return with_chain(alloc, slot, sectors.as_slice(), pairs.as_slice(), true);
    }
    rescue_other(alloc, image, disk, slot, room)
}

/// What can be reached of these entries' files, as of one. The only error is `NoMemory`.
pub(crate) fn rescue_all(
    alloc: Global,
    image: &[u8],
    disk: &MemDisk,
    slots: &[Slot],
) -> Result<Vec<Rescued>, CommandFault>
    ensures ok { IfOk result (λ files. AreRescued image.now (disk_image disk.now) slots.now files.items) }
    ensures few { IfOk result (λ files. length files.items ≡ length slots.now) }
    ensures err { IfErr result (λ fault. fault ≡ faults.NoMemory) }
{
    let mut files = Vec::new(alloc);
    let mut room = ArrayVec::new();
    for slot in slots {
        let file = rescue(alloc, image, disk, slot, &mut room)?;
        if files.push(file).is_err() {
            return Err(CommandFault::NoMemory);
        }
    }
    Ok(files)
}
