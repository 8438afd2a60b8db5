//! Growth of a relative file to a record.
ghost use Rattle.std.specs.Prelude.{◌≡◌, ◌≤◌, ◌+◌, ◌-◌, ℕ, length};
ghost use Rattle.d64_image.specs.History.{TellsFailure};
ghost use Rattle.disk_layout.specs.Layout.{File, Layout, record_length, sides_for};
ghost use Rattle.disk_layout.specs.View.{blocks_free};
ghost use Rattle.rel_records.specs.Calls.{Grows, GrowsBy, MayGrow};
ghost use Rattle.rel_records.specs.File.{IsOf, OfItsFile, entry_of};
ghost use Rattle.rel_records.specs.Usable.{IsUsable};
ghost use Rattle.rel_records.specs.growth.Growth.{fill_writes, full, needed, records_had, run_writes};
ghost use Rattle.rel_records.specs.growth.Steps.{HasRun, IsAt, IsFilledUp, IsKeptOf, IsRunTo, StandsFilled};

mod filling;
mod gathering;
pub(crate) mod next_block;
mod step_parts;
mod steps;

use crate::faults::RelFault;
use crate::growth::filling::fill_up;
use crate::growth::gathering::read_parts;
use crate::growth::step_parts::Growing;
use crate::growth::steps::add_block;
use crate::reading::counting::{has_records, records};
use crate::rel_file::RelFile;
use crate::sizes::{blocks_for, side_count};
use d64_image::{DeviceFault, Sectors};
use disk_layout::Bam;

/// How many sectors a file of `blocks` blocks needs, beyond those that it has, to have `wanted` blocks.
fn sectors_needed(blocks: u16, wanted: u16) -> u16
    requires blocks { blocks ≤ 720 }
    requires wanted { wanted ≤ 720 }
    ensures { result ≡ needed blocks wanted }
{
    (wanted + side_count(wanted)).saturating_sub(blocks + side_count(blocks))
}

/// Gives blocks, one after another, to a file that is filled up, until it has `wanted`.
fn add_blocks<D: Sectors>(disk: &mut D, parts: &mut Growing, wanted: u16) -> Result<(), DeviceFault>
    requires at { StandsFilled (D.history.image disk.old) parts.old }
    requires more { length parts.old.blocks.items ≤ wanted }
    requires few { wanted ≤ 720 }
    requires room { needed (length parts.old.blocks.items) wanted ≤ blocks_free parts.old.map.bytes }
    ensures file { (l : Layout) → (n : ℕ) → (f : File) → IsAt (D.history.image disk.old) l n f parts.old → IsFilledUp f
        → GrowsBy D.history disk.old disk.new l n f (run_writes (length f.blocks) wanted)
        (full (record_length f.slot) wanted - records_had f)
        (IsRunTo (D.history.image disk.old) (D.history.image disk.new) l n f wanted parts.new) result }
    ensures reads { D.history.reads disk.new ≤ D.history.reads disk.old }
    ensures failures { TellsFailure D.history disk.old disk.new result }
{
    for _count in parts.blocks.len()..wanted as usize {
        add_block(disk, parts)?;
    }
    Ok(())
}

/// The file as growth leaves it.
fn renew(file: &mut RelFile, parts: Growing)
    requires some { 1 ≤ length parts.blocks.items }
    requires sides { length parts.sides.items ≡ sides_for (length parts.blocks.items) }
    ensures kept { IsKeptOf file.new parts }
    ensures entry { entry_of file.new ≡ entry_of file.old }
{
    let Growing {
        map: _,
        sector,
        number,
        size,
        sides,
        blocks,
        last,
        directory: _,
    } = parts;
    *file = RelFile {
        entry: file.entry,
        sector,
        number,
        size,
        sides,
        blocks: blocks.len() as u16,
        last: last[1],
    };
}

/// Fills the unused bytes of a file's last blocks, and gives it blocks until it has `wanted`.
// Out of line: `grow_to` mostly finds the record there.
#[inline(never)]
fn grow<D: Sectors>(
    disk: &mut D,
    file: &mut RelFile,
    map: Bam,
    wanted: u16,
) -> Result<(), DeviceFault>
    requires { MayGrow (D.history.image disk.old) file.old map.bytes wanted }
    ensures file { OfItsFile (D.history.image disk.old) file.old (λ l n f.
        GrowsBy D.history disk.old disk.new l n f (fill_writes f + run_writes (length f.blocks) wanted)
        (full (record_length f.slot) wanted - records_had f)
        (HasRun (D.history.image disk.old) (D.history.image disk.new) l n f wanted file.new) result) }
    ensures reads { D.history.reads disk.new ≤ D.history.reads disk.old + 9 }
    ensures entry { entry_of file.new ≡ entry_of file.old }
    ensures failures { TellsFailure D.history disk.old disk.new result }
{
    let mut parts = read_parts(disk, file, map)?;
    fill_up(disk, &mut parts, records(file))?;
    add_blocks(disk, &mut parts, wanted)?;
    renew(file, parts);
    Ok(())
}

/// Grows the file by empty records until it has record `number`. If the file has that record, or for 0, nothing is read
/// or written.
///
/// The file gets all whole records that fit into its blocks. If it doesn't have the record, two errors are possible.
/// `TooLarge`: the record would need more than 720 data blocks, or its number is past 65535. `Full`: there aren't
/// enough free blocks. Neither writes anything. At most ten sectors are read.
pub fn grow_to<D: Sectors>(disk: &mut D, file: &mut RelFile, number: u32) -> Result<(), RelFault>
    requires usable { IsUsable (D.history.image disk.old) }
    requires of { IsOf (D.history.image disk.old) file.old }
    ensures { Grows D.history disk.old disk.new file.old file.new number result }
{
    if has_records(file, number) {
        return Ok(());
    }
    let Some(wanted) = blocks_for(number, file.size) else {
        return Err(RelFault::TooLarge);
    };
    let Ok(map) = Bam::read(disk) else {
        return Err(RelFault::Device);
    };
    if map.view().blocks_free() < sectors_needed(file.blocks, wanted) {
        return Err(RelFault::Full);
    }
    let Ok(()) = grow(disk, file, map, wanted) else {
        return Err(RelFault::Device);
    };
    Ok(())
}
