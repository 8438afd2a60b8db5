//! The bytes of files of GEOS with sectors past track 35.
ghost use Rattle.std.specs.Prelude.{◌≡◌, ◌≤◌, ◌+◌, ◌*◌, ◌++◌, IfErr, IfOk, OnOk, drop, flat_map, length, slice_get};
ghost use Rattle.std.specs.List.{AllByRecursion};
ghost use Rattle.long_chains.specs.Sectors.{HasSector};
ghost use Rattle.command_faults.specs.declared.faults.CommandFault.TheVariants as faults;
ghost use Rattle.file_rescues.specs.rescue.LongCvt as specs;

use crate::long_files::append;
use crate::rescue::geos::{ZEROS, leading};
use crate::rescue::rescuing::Rescued;
use command_faults::CommandFault;
use geos_files::cvt_signature;
use long_chains::data_in;
use std::alloc::Global;

/// All bytes of a sector but its link.
fn body_in(image: &[u8], number: usize) -> &[u8]
    requires { HasSector image.now number }
    ensures value { result.now ≡ specs.body_in image.now number }
    ensures short { length result.now ≤ 254 }
{
    &image[256 * number + 2..256 * number + 256]
}

/// Appends all bytes of these sectors but their links. The only error is `NoMemory`.
fn append_bodies(bytes: &mut Vec<u8>, image: &[u8], numbers: &[u16]) -> Result<(), CommandFault>
    requires { AllByRecursion (HasSector image.now) numbers.now }
    ensures ok { OnOk result (bytes.new.items ≡ bytes.old.items ++ flat_map (specs.body_in image.now) numbers.now) }
    ensures short { OnOk result (length bytes.new.items ≤ length bytes.old.items + 254 * length numbers.now) }
    ensures err { IfErr result (λ fault. fault ≡ faults.NoMemory) }
{
    for &number in numbers {
        append(bytes, body_in(image, number as usize))?;
    }
    Ok(())
}

/// Appends the data of a file with these sectors: all bytes of each but the last one, and of this those up to its last index. The only
/// error is `NoMemory`.
fn append_data(bytes: &mut Vec<u8>, image: &[u8], numbers: &[u16]) -> Result<(), CommandFault>
    requires { AllByRecursion (HasSector image.now) numbers.now }
    ensures ok { OnOk result (bytes.new.items ≡ bytes.old.items ++ specs.bodies image.now numbers.now) }
    ensures short { OnOk result (length bytes.new.items ≤ length bytes.old.items + 254 * length numbers.now) }
    ensures err { IfErr result (λ fault. fault ≡ faults.NoMemory) }
{
    match numbers {
        [] => Ok(()),
        [front @ .., last] => {
            append_bodies(bytes, image, front)?;
            append(bytes, data_in(image, *last as usize))
        }
    }
}

/// The sectors after the first ones.
fn after(sectors: &[u16], leading: usize) -> &[u16]
    ensures value { result.now ≡ drop leading sectors.now }
{
    if leading > sectors.len() {
        return &sectors[sectors.len()..];
    }
    &sectors[leading..]
}

/// The info block of a file with these sectors, without its link.
fn info_in<'a>(image: &'a [u8], sectors: &[u16]) -> &'a [u8]
    requires { AllByRecursion (HasSector image.now) sectors.now }
    ensures value { result.now ≡ specs.info_in image.now (slice_get sectors.now 0) }
    ensures short { length result.now ≤ 254 }
{
    match sectors.first() {
        Some(&number) => body_in(image, number as usize),
        None => &[],
    }
}

/// The bytes of a file of GEOS with sectors past track 35, as a CVT. `NoMemory` if there was none for them.
pub(crate) fn long_cvt(alloc: Global, image: &[u8], file: &Rescued) -> Result<Vec<u8>, CommandFault>
    requires inside { AllByRecursion (HasSector image.now) file.now.sectors.items }
    requires few { length file.now.sectors.items ≤ 800 }
    requires pairs { length file.now.pairs.items ≤ 254 }
    ensures short { IfOk result (λ bytes. length bytes.items ≤ 203708) }
    ensures ok { IfOk result (λ bytes. bytes.items
        ≡ specs.long_cvt image.now file.now.slot file.now.sectors.items file.now.pairs.items) }
    ensures err { IfErr result (λ fault. fault ≡ faults.NoMemory) }
{
    let has_records = file.slot.bytes[23] == 1;
    let sectors = file.sectors.as_slice();
    let data = after(sectors, leading(has_records));
    let mut out = Vec::new(alloc);
    append(&mut out, &file.slot.bytes[2..32])?;
    append(&mut out, cvt_signature(has_records))?;
    append(&mut out, &ZEROS)?;
    append(&mut out, info_in(image, sectors))?;
    append(&mut out, file.pairs.as_slice())?;
    append_data(&mut out, image, data)?;
    Ok(out)
}
