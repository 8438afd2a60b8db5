//! Records of STOCK on a disk for two tills, through a caller that knows only the trait: STOCK grows until the disk is
//! full, and its records are read and written all over it.
ghost use Rattle.std.specs.Prelude.{◌≤◌, ◌*◌, IfOk, OnOk};
ghost use Rattle.d64_image.specs.History.{OnlyReads};
ghost use Rattle.disk_layout.specs.Clean.{IsClean};
ghost use Rattle.rel_records.specs.Faults.{TellsRelFault};
ghost use Rattle.rel_records.specs.File.{IsOf, records_in};

use arrayvec::ArrayVec;
use d64_image::Sectors;
use disk_layout::blank_image;
use rel_records::{RelFault, RelFile, find, grow_to, read_record, write_record};

/// How many records STOCK has when it fills the disk.
pub const RECORDS: u32 = 9256;

/// Makes the disk blank, for two tills, and lets STOCK grow until no block is free.
pub fn grow_stock<D: Sectors>(disk: &mut D) -> Result<RelFile, RelFault>
    ensures ok { IfOk result (λ file.
        IsClean (D.history.image disk.new) × IsOf (D.history.image disk.new) file × (9256 ≤ records_in file)) }
{
    let Ok(()) = blank_image(disk, b"STOCK LEDGER", *b"01", 2) else {
        return Err(RelFault::Device);
    };
    let mut file = find(disk, b"STOCK")?;
    grow_to(disk, &mut file, RECORDS)?;
    Ok(file)
}

/// The number of the record that comes after this one: some 250 blocks on, and round by round all of them come.
pub fn next_number(number: u32) -> u32
    requires high { number ≤ 9256 }
    ensures low { 1 ≤ result }
    ensures high { result ≤ 9256 }
{
    (number + 3570) % RECORDS + 1
}

/// Reads so many records, and sums up the first and the last byte of each. Each sum is 31 times the one before and the
/// two bytes, without what is above 64 bits.
fn read_spread<D: Sectors>(disk: &mut D, file: &RelFile, rounds: u64) -> Result<u64, RelFault>
    requires of { IsOf (D.history.image disk.old) file.now }
    ensures reads { OnlyReads D.history disk.old disk.new (3 * rounds) }
    ensures failures { TellsRelFault D.history disk.old disk.new result }
{
    let mut text = ArrayVec::new();
    let mut number = RECORDS;
    let mut sum = 0u64;
    for round in 0..rounds {
        number = next_number(number);
        read_record(disk, file, number, &mut text)?;
        let bytes = text.as_slice();
        let ends = u64::from(bytes[0]) + u64::from(bytes[bytes.len() - 1]);
        sum = sum.wrapping_mul(31).wrapping_add(ends);
    }
    Ok(sum)
}

/// Writes so many records, each with a text that fills it.
fn write_spread<D: Sectors>(disk: &mut D, file: &mut RelFile, rounds: u64) -> Result<(), RelFault>
    requires clean { IsClean (D.history.image disk.old) }
    requires of { IsOf (D.history.image disk.old) file.old }
    ensures clean { OnOk result (IsClean (D.history.image disk.new)) }
    ensures of { OnOk result (IsOf (D.history.image disk.new) file.new) }
    ensures failures { TellsRelFault D.history disk.old disk.new result }
{
    let mut number = RECORDS;
    for round in 0..rounds {
        number = next_number(number);
        write_record(disk, file, number, 1, &[(round % 251) as u8; 18])?;
    }
    Ok(())
}

/// Grows STOCK on a disk that is made blank, writes each of its records, and reads so many of them.
pub fn read_full<D: Sectors>(disk: &mut D, rounds: u64) -> Result<u64, RelFault> {
    let mut file = grow_stock(disk)?;
    write_spread(disk, &mut file, u64::from(RECORDS))?;
    read_spread(disk, &file, rounds)
}

/// Grows STOCK on a disk that is made blank, and writes so many of its records.
pub fn write_full<D: Sectors>(disk: &mut D, rounds: u64) -> Result<(), RelFault>
    ensures clean { OnOk result (IsClean (D.history.image disk.new)) }
{
    let mut file = grow_stock(disk)?;
    write_spread(disk, &mut file, rounds)
}
