//! Files of GEOS, each as one file of bytes.
ghost use Rattle.std.specs.Prelude.{◌≡◌, ◌≤◌, IfErr, IfOk, drop, length};
ghost use Rattle.d64_image.specs.Memory.{disk_image};
ghost use Rattle.command_faults.specs.declared.faults.CommandFault.TheVariants as faults;
ghost use Rattle.file_rescues.specs.rescue.Geos as geos;

use crate::chains::read_file;
use crate::long_files::append;
use crate::rescue::rescuing::Rescued;
use command_faults::CommandFault;
use d64_image::{MemDisk, Place};
use geos_files::{GeosEntry, cvt_signature};
use std::alloc::Global;

/// The zeros after the signature.
pub(crate) const ZEROS: [u8; 196] = [0; 196];

/// How many blocks come before those of the data.
pub(crate) fn leading(has_records: bool) -> usize
    ensures { result ≡ geos.leading has_records }
{
    if has_records { 2 } else { 1 }
}

/// The blocks after the first ones.
fn after(blocks: &[Place], leading: usize) -> &[Place]
    ensures value { result.now ≡ drop leading blocks.now }
    ensures few { length result.now ≤ length blocks.now }
{
    if leading > blocks.len() {
        return &blocks[blocks.len()..];
    }
    &blocks[leading..]
}

/// The bytes of a file of GEOS that can be reached, as a CVT. `NoMemory` if there was none for them.
pub(crate) fn cvt_bytes(
    alloc: Global,
    disk: &MemDisk,
    entry: &GeosEntry,
    file: &Rescued,
) -> Result<Vec<u8>, CommandFault>
    requires { length file.now.blocks.items ≤ 720 }
    ensures ok { IfOk result (λ bytes. bytes.items ≡ geos.cvt_bytes (disk_image disk.now) entry.now file.now) }
    ensures err { IfErr result (λ fault. fault ≡ faults.NoMemory) }
{
    let blocks = after(file.blocks.as_slice(), leading(entry.has_records));
    let data = read_file(alloc, disk, blocks, file.last)?;
    let mut out = Vec::new(alloc);
    append(&mut out, &file.slot.bytes[2..32])?;
    append(&mut out, cvt_signature(entry.has_records))?;
    append(&mut out, &ZEROS)?;
    append(&mut out, &disk.sector(entry.info)[2..256])?;
    append(&mut out, file.pairs.as_slice())?;
    append(&mut out, data.as_slice())?;
    Ok(out)
}
