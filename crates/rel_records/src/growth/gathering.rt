//! What growth keeps in memory of a file, read from the disk.
ghost use Rattle.std.specs.Prelude.{◌≡◌, ◌≤◌, ◌+◌, ◌++◌, [], List, IfOk, OnOk, length};
ghost use Rattle.d64_image.specs.History.{OnlyReads, TellsFailure};
ghost use Rattle.d64_image.specs.Images.{sector};
ghost use Rattle.d64_image.specs.declared.place.Place.{Place};
ghost use Rattle.disk_layout.specs.Directory.{map_place};
ghost use Rattle.rel_records.specs.File.{IsOf, OfItsFile};
ghost use Rattle.rel_records.specs.Usable.{IsUsable};
ghost use Rattle.rel_records.specs.growth.Steps.{IsAt};
ghost use Rattle.rel_records.specs.reading.Sides.{NamesEach};

use crate::growth::step_parts::Growing;
use crate::rel_file::RelFile;
use arrayvec::ArrayVec;
use d64_image::{DeviceFault, Place, Sectors};
use disk_layout::{Bam, MOST_BLOCKS, POINTERS, SideView};

/// Appends to the list the first `count` data blocks that a side sector points to.
fn list_blocks(bytes: &[u8; 256], count: usize, blocks: &mut ArrayVec<Place, MOST_BLOCKS>)
    requires few { count ≤ 120 }
    requires room { length blocks.old.items + count ≤ 720 }
    requires named { (qs : List Place) × (length qs ≡ count) × NamesEach bytes.now 16 qs }
    ensures { (qs : List Place) → length qs ≡ count → NamesEach bytes.now 16 qs
        → blocks.new.items ≡ blocks.old.items ++ qs }
{
    let view = SideView::new(bytes);
    for number in 0..count {
        blocks.push(view.block(number).unwrap());
    }
}

/// Lists the file's side sectors, and the data blocks that they point to.
fn read_places<D: Sectors>(
    disk: &mut D,
    file: &RelFile,
    sides: &mut ArrayVec<Place, 6>,
    blocks: &mut ArrayVec<Place, MOST_BLOCKS>,
) -> Result<(), DeviceFault>
    requires of { IsOf (D.history.image disk.old) file.now }
    requires no_sides { sides.old.items ≡ [] }
    requires no_blocks { blocks.old.items ≡ [] }
    ensures sides { OfItsFile (D.history.image disk.old) file.now (λ l n f. OnOk result (sides.new.items ≡ f.sides)) }
    ensures blocks { OfItsFile (D.history.image disk.old) file.now
        (λ l n f. OnOk result (blocks.new.items ≡ f.blocks)) }
    ensures reads { OnlyReads D.history disk.old disk.new 6 }
    ensures failures { TellsFailure D.history disk.old disk.new result }
{
    for &side in file.sides.as_slice() {
        let mut bytes = [0; 256];
        disk.read(side, &mut bytes)?;
        let count = (file.blocks as usize - blocks.len()).min(POINTERS);
        list_blocks(&bytes, count, blocks);
        sides.push(side);
    }
    Ok(())
}

/// Reads what growth keeps in memory of a file besides the map: its side sectors, its data blocks, the bytes of the
/// last of them, and those of its directory sector.
pub(crate) fn read_parts<D: Sectors>(
    disk: &mut D,
    file: &RelFile,
    map: Bam,
) -> Result<Growing, DeviceFault>
    requires usable { IsUsable (D.history.image disk.old) }
    requires of { IsOf (D.history.image disk.old) file.now }
    requires map { map.bytes ≡ sector (D.history.image disk.old) map_place }
    ensures ok { OfItsFile (D.history.image disk.old) file.now
        (λ l n f. IfOk result (IsAt (D.history.image disk.old) l n f)) }
    ensures reads { OnlyReads D.history disk.old disk.new 8 }
    ensures failures { TellsFailure D.history disk.old disk.new result }
{
    let mut sides = ArrayVec::new();
    let mut blocks = ArrayVec::new();
    read_places(disk, file, &mut sides, &mut blocks)?;
    let mut directory = [0; 256];
    disk.read(file.sector, &mut directory)?;
    let mut last = [0; 256];
    disk.read(blocks[blocks.len() - 1], &mut last)?;
    Ok(Growing {
        map,
        sector: file.sector,
        number: file.number,
        size: file.size,
        sides,
        blocks,
        last,
        directory,
    })
}
