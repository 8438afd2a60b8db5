//! Files whose chain goes on past track 35, of images that have those tracks.
ghost use Rattle.std.specs.Prelude.{◌≡◌, ◌≤◌, ◌*◌, ◌++◌, IfErr, IfOk, OnOk, length};
ghost use Rattle.std.specs.List.{AllByRecursion};
ghost use Rattle.long_chains.specs.Chains.{data_of, if_ended};
ghost use Rattle.long_chains.specs.Sectors.{HasSector};
ghost use Rattle.command_faults.specs.declared.faults.CommandFault.TheVariants as faults;
ghost use Rattle.file_rescues.specs.Long as specs;

use arrayvec::ArrayVec;
use command_faults::CommandFault;
use disk_layout::{Fault, Slot};
use long_chains::{MOST_SECTORS, data_in, has_more_tracks, long_chain};
use std::alloc::Global;

/// Fills `chain` with the sectors of an entry's file, if `broken` ends its chain on tracks 1 to 35, and the image has more tracks and
/// the whole chain. Returns whether this is so.
pub(crate) fn find_long(
    image: &[u8],
    slot: &Slot,
    broken: Option<Fault>,
    chain: &mut ArrayVec<u16, MOST_SECTORS>,
) -> bool
    ensures value { if_ended result chain.new.items ≡ specs.long_chain image.now slot.now broken }
    ensures inside { AllByRecursion (HasSector image.now) chain.new.items }
{
    chain.clear();
    if broken.is_none() || !has_more_tracks(image) {
        return false;
    }
    long_chain(image, slot.bytes[3], slot.bytes[4], chain)
}

/// Appends these bytes. `NoMemory` if there was none.
pub(crate) fn append(out: &mut Vec<u8>, bytes: &[u8]) -> Result<(), CommandFault>
    ensures ok { OnOk result (out.new.items ≡ out.old.items ++ bytes.now) }
    ensures err { IfErr result (λ fault. fault ≡ faults.NoMemory) }
{
    match out.extend_from_slice(bytes) {
        Ok(()) => Ok(()),
        Err(_) => Err(CommandFault::NoMemory),
    }
}

/// The bytes of a file with these sectors. `NoMemory` if there was none for them.
pub(crate) fn read_long(alloc: Global, image: &[u8], chain: &[u16]) -> Result<Vec<u8>, CommandFault>
    requires { AllByRecursion (HasSector image.now) chain.now }
    ensures ok { IfOk result (λ bytes. bytes.items ≡ data_of image.now chain.now) }
    ensures short { IfOk result (λ bytes. length bytes.items ≤ 254 * length chain.now) }
    ensures err { IfErr result (λ fault. fault ≡ faults.NoMemory) }
{
    let mut bytes = Vec::new(alloc);
    for &number in chain {
        append(&mut bytes, data_in(image, number as usize))?;
    }
    Ok(bytes)
}
