//! Records written: the bytes of one record, in the one or two blocks that they touch.
ghost use Rattle.std.specs.Prelude.{[], ◌∷◌, ◌≡◌, ◌+◌, ◌<◌, ◌≤◌, IfErr, IfSome, IsSome, OnOk, length};
ghost use Rattle.d64_image.specs.Images.{sector};
ghost use Rattle.disk_layout.specs.Chain.{named_at};
ghost use Rattle.rel_records.specs.Calls.{IsPosition, WritesRecord, WritesThere};
ghost use Rattle.rel_records.specs.File.{IsOf, length_of};
ghost use Rattle.rel_records.specs.Puts.{PutsEach, in_block, in_two};
ghost use Rattle.rel_records.specs.Usable.{IsUsable};
ghost use Rattle.rel_records.specs.Written.{patched, touched};
ghost use Rattle.rel_records.specs.declared.faults.RelFault.TheVariants.{Overflow};

use crate::access::{read, write};
use crate::faults::RelFault;
use crate::growth::grow_to;
use crate::reading::lookup::block_at;
use crate::reading::parts::patch;
use crate::rel_file::RelFile;
use d64_image::{Place, Sectors};
use disk_layout::DATA;

/// Writes the text over the data bytes from `start` to below `end` of the block at `place`, and zeros if it is shorter.
/// `block` has the block's bytes after that.
#[inline(always)]
fn write_block<D: Sectors>(
    disk: &mut D,
    place: Place,
    start: usize,
    end: usize,
    text: &[u8],
    block: &mut [u8; 256],
) -> Result<(), RelFault>
    requires order { start ≤ end }
    requires inside { end ≤ 254 }
    ensures put { PutsEach D.history disk.old disk.new
        (in_block (D.history.image disk.old) place start end text.now ∷ []) 1 result }
    ensures block { OnOk result (block.new ≡ patched start end text.now (sector (D.history.image disk.old) place)) }
{
    read(disk, place, block)?;
    patch(block, start, end, text);
    write(disk, place, block)
}

/// Writes the text over the data bytes of the block at `place` from `start` on, and then over those of the block to which
/// it links, to below `end`. If the text is shorter, the rest is zeros.
// Out of line, since few records lie in two blocks.
#[inline(never)]
fn write_across<D: Sectors>(
    disk: &mut D,
    place: Place,
    start: usize,
    end: usize,
    text: &[u8],
) -> Result<(), RelFault>
    requires start { start < 254 }
    requires end { end ≤ 254 }
    requires next { IsSome (named_at (sector (D.history.image disk.old) place) 0) }
    ensures { IfSome (named_at (sector (D.history.image disk.old) place) 0) (λ next.
        PutsEach D.history disk.old disk.new
        (in_two (D.history.image disk.old) place next start end text.now) 2 result) }
{
    let mut block = [0; 256];
    write_block(disk, place, start, DATA, text, &mut block)?;
    let next = Place::known(block[0], block[1]);
    let rest = &text[text.len().min(DATA - start)..];
    write_block(disk, next, 0, end, rest, &mut block)
}

/// Writes the text into a record that is there, from the position on, as far as it fits; the rest of the record is
/// zeros.
fn write_there<D: Sectors>(
    disk: &mut D,
    file: &RelFile,
    number: u32,
    position: u8,
    text: &[u8],
) -> Result<(), RelFault>
    requires { IsPosition (D.history.image disk.old) file.now number position }
    ensures { WritesThere D.history disk.old disk.new file.now number position text.now
        (touched (length_of file.now) number position) 3 result }
{
    let size = file.size as usize;
    let start = (number as usize - 1) * size + (position as usize - 1);
    let end = number as usize * size;
    let block = start / DATA;
    let begins = DATA * block;
    let place = block_at(disk, file, block)?;
    if end <= begins + DATA {
        return write_block(
            disk,
            place,
            start - begins,
            end - begins,
            text,
            &mut [0; 256],
        );
    }
    write_across(disk, place, start - begins, end - begins - DATA, text)
}

/// The result for a text that was written from the position on into a record of this size: `Overflow` if it was cut.
fn told_of_text(text: &[u8], position: u8, size: u8) -> Result<(), RelFault>
    ensures ok { OnOk result (length text.now + position ≤ size + 1) }
    ensures err { IfErr result (λ fault. (fault ≡ Overflow) × (size + 1 < length text.now + position)) }
{
    if text.len() + position as usize > size as usize + 1 {
        return Err(RelFault::Overflow);
    }
    Ok(())
}

/// Writes the text into a record, from the position on, counted from 1. The record's bytes before the position stay,
/// and its bytes after the text become zeros. No other record changes. If the file has no such record, it grows first.
///
/// `Overflow` is returned if the text is longer than the rest of the record: as much as fits is written. `TooLarge` and
/// `Full` are those of `grow_to`; then nothing is written.
///
/// At most three sectors are read if the record is there, otherwise ten more.
pub fn write_record<D: Sectors>(
    disk: &mut D,
    file: &mut RelFile,
    number: u32,
    position: u8,
    text: &[u8],
) -> Result<(), RelFault>
    requires usable { IsUsable (D.history.image disk.old) }
    requires of { IsOf (D.history.image disk.old) file.old }
    requires number { 1 ≤ number }
    requires position_low { 1 ≤ position }
    requires position_high { position ≤ length_of file.old }
    ensures { WritesRecord D.history disk.old disk.new file.old file.new number position text.now result }
{
    grow_to(disk, file, number)?;
    write_there(disk, file, number, position, text)?;
    told_of_text(text, position, file.size)
}
