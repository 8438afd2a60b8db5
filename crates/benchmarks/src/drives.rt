//! Records of STOCK and REQUESTS on a full disk, written in turns through a drive.
ghost use Rattle.std.specs.Prelude.{◌≡◌, ◌↔◌, true, IsErr};

use crate::records::{RECORDS, next_number};
use d64_image::Sectors;
use drive_channels::{Dead, Drive};

/// Opens a file, goes to a record of it, writes the record and closes the file.
fn put_record<D: Sectors>(
    drive: &mut Drive<D>,
    name: &[u8],
    number: u16,
    text: &[u8],
) -> Result<(), Dead>
    ensures dies { (drive.new.dead ≡ true) ↔ IsErr result }
{
    let number = number.to_le_bytes();
    drive.open(2, name)?;
    drive.command(&[b'P', 96 + 2, number[0], number[1], 1])?;
    drive.write(2, text)?;
    drive.close(2)
}

/// Writes a record of STOCK and one of REQUESTS so many times.
pub fn put_by_turns<D: Sectors>(drive: &mut Drive<D>, rounds: u64) -> Result<(), Dead>
    ensures dead { IsErr result → (drive.new.dead ≡ true) }
{
    let mut number = RECORDS;
    for round in 0..rounds {
        number = next_number(number);
        let byte = (round % 251) as u8;
        put_record(drive, b"STOCK", number as u16, &[byte; 18])?;
        put_record(drive, b"REQUESTS", (round % 2) as u16 + 1, &[byte; 127])?;
    }
    Ok(())
}
