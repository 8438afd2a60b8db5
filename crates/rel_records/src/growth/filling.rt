//! Empty records in the unused bytes of a file's last blocks.
ghost use Rattle.std.specs.Prelude.{◌≡◌, ◌≤◌, ◌<◌, ◌+◌, ◌-◌, ◌*◌, ◌⊎◌, ℕ, length, nat_lt, slice_index, if◌then◌else◌};
ghost use Rattle.d64_image.specs.History.{TellsFailure};
ghost use Rattle.d64_image.specs.Images.{IsSector};
ghost use Rattle.disk_layout.specs.Layout.{File, Layout, record_length};
ghost use Rattle.disk_layout.specs.Records.{filler, record_count};
ghost use Rattle.rel_records.specs.Calls.{GrowsBy, WritesAtMost};
ghost use Rattle.rel_records.specs.File.{IsLength};
ghost use Rattle.rel_records.specs.growth.Growth.{fill_writes, full, records_had};
ghost use Rattle.rel_records.specs.growth.Steps.{FillsBefore, HasFilled, IsAt, IsEnd, StandsAt};

use crate::growth::step_parts::Growing;
use crate::sizes::{BLOCK, full_records, last_index};
use d64_image::{DeviceFault, Sectors};
use disk_layout::fill;

/// Fills a block's tail in memory: from data byte `from` of the file on. The block begins at data byte `at`.
fn fill_tail(bytes: &mut [u8; 256], at: u32, from: u32, length: u8, total: u32)
    requires at { at ≤ 1000000 }
    requires total { total ≤ 1000000 }
    requires length { 0 < length }
    ensures filled { (j : ℕ) → j < 254 → from ≤ at + j → slice_index bytes.new (2 + j) ≡ filler length total (at + j) }
    ensures kept { (j : ℕ) → j < 254 → at + j < from → slice_index bytes.new (2 + j) ≡ slice_index bytes.old (2 + j) }
    ensures link { (j : ℕ) → j < 2 → slice_index bytes.new j ≡ slice_index bytes.old j }
    ensures sector { IsSector bytes.new }
{
    fill(bytes, at, from, length, total);
}

/// Fills the tail of the block before the last, if `from` is in that block.
fn fill_before<D: Sectors>(
    disk: &mut D,
    parts: &Growing,
    from: u32,
    total: u32,
) -> Result<(), DeviceFault>
    requires some { 1 ≤ length parts.now.blocks.items }
    requires total { total ≤ 1000000 }
    requires from { 254 * (length parts.now.blocks.items - 2) ≤ from }
    ensures { WritesAtMost D.history disk.old disk.new
        (if nat_lt from (254 * (length parts.now.blocks.items - 1)) then 1 else 0) 1
        (λ c. (c ≡ D.history.image disk.old) ⊎ FillsBefore (D.history.image disk.old) parts.now from total c)
        (FillsBefore (D.history.image disk.old) parts.now from total) result }
{
    let count = parts.blocks.len();
    if from >= BLOCK * (count as u32 - 1) {
        return Ok(());
    }
    let place = parts.blocks[count - 2];
    let mut bytes = [0; 256];
    disk.read(place, &mut bytes)?;
    fill_tail(
        &mut bytes,
        BLOCK * (count as u32 - 2),
        from,
        parts.size,
        total,
    );
    disk.write(place, &bytes)
}

/// Fills the last of `count` blocks up in memory, and ends it after the last whole record that fits.
fn fill_last(bytes: &mut [u8; 256], from: u32, count: u16, length: u8)
    requires some { 1 ≤ count }
    requires few { count ≤ 720 }
    requires length { IsLength length }
    ensures end { IsEnd count length from bytes.old bytes.new }
    ensures sector { IsSector bytes.new }
{
    let total = full_records(count, length);
    fill(bytes, BLOCK * (count as u32 - 1), from, length, total);
    bytes[1] = last_index(count, length);
}

/// Fills the unused bytes of a file's last blocks with empty records, if a whole one fits. If the first new record
/// begins in the block before the last, that block is written first. The file has `had` records.
pub(crate) fn fill_up<D: Sectors>(
    disk: &mut D,
    parts: &mut Growing,
    had: u32,
) -> Result<(), DeviceFault>
    requires at { StandsAt (D.history.image disk.old) parts.old }
    requires few { length parts.old.blocks.items ≤ 720 }
    requires had { had ≡ record_count (length parts.old.blocks.items) (slice_index parts.old.last 1) parts.old.size }
    ensures file { (l : Layout) → (n : ℕ) → (f : File) → IsAt (D.history.image disk.old) l n f parts.old
        → GrowsBy D.history disk.old disk.new l n f (fill_writes f)
        (full (record_length f.slot) (length f.blocks) - records_had f)
        (HasFilled (D.history.image disk.old) (D.history.image disk.new) l n f parts.old parts.new) result }
    ensures reads { D.history.reads disk.new ≤ D.history.reads disk.old + 1 }
    ensures failures { TellsFailure D.history disk.old disk.new result }
{
    let count = parts.blocks.len() as u16;
    let total = full_records(count, parts.size);
    if had == total {
        return Ok(());
    }
    let from = had * parts.size as u32;
    fill_before(disk, parts, from, total)?;
    fill_last(&mut parts.last, from, count, parts.size);
    disk.write(parts.last_place(), &parts.last)
}
