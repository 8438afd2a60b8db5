//! Reading from a channel.
ghost use Rattle.std.specs.Prelude.{◌≡◌, ◌≢◌, ◌⊎◌, ◌<◌, ◌≤◌, ◌-◌, [], ℕ, true, OnOk, Some, drop, length};
ghost use Rattle.std.specs.Prelude.{slice_index};
ghost use Rattle.d64_image.specs.History.{OnlyReads};
ghost use Rattle.drive_channels.specs.Calls.{ReadsAt, ReadsOn};
ghost use Rattle.drive_channels.specs.Given.{IsGiven};
ghost use Rattle.drive_channels.specs.Inside.{IsFound, IsKnown, IsSpot};
ghost use Rattle.drive_channels.specs.Serving.{Serves};
ghost use Rattle.drive_channels.specs.State.{view_of};
ghost use Rattle.drive_channels.specs.Tables.{Reads};
ghost use Rattle.drive_channels.specs.declared.open_files.OpenFiles.{OpenFiles};

use crate::drive::Drive;
use crate::faults::Dead;
use crate::open_file::{NamedFile, OpenFile, Position};
use crate::open_files::OpenFiles;
use crate::status::Status;
use arrayvec::ArrayVec;
use d64_image::Sectors;
use disk_layout::DATA;
use rel_records::{RelFault, read_record};

/// The number of bytes up to the last one that isn't 00, and 1 if there is none.
fn end_of(bytes: &[u8]) -> usize
    requires some { 0 < length bytes.now }
    ensures low { 1 ≤ result }
    ensures high { result ≤ length bytes.now }
    ensures zeros { (i : ℕ) → result ≤ i → slice_index bytes.now i ≡ 0 }
    ensures last { (result ≡ 1) ⊎ (slice_index bytes.now (result - 1) ≢ 0) }
{
    let mut end = 1;
    for i in 0..bytes.len() {
        if bytes[i] != 0 {
            end = i + 1;
        }
    }
    end
}

/// Fills a list with these bytes.
fn copy(from: &[u8], to: &mut ArrayVec<u8, DATA>)
    requires fits { length from.now ≤ 254 }
    ensures { to.new.items ≡ from.now }
{
    to.clear();
    for &byte in from {
        to.push(byte);
    }
}

/// The bytes from this index on.
fn rest_of(bytes: &[u8], from: usize) -> &[u8]
    requires within { from ≤ length bytes.now }
    ensures { result.now ≡ drop from bytes.now }
{
    &bytes[from..]
}

/// Gives the bytes from this position on, counted from 1, up to the last one that isn't 00, or one 00 if there is none.
fn give(bytes: &[u8], position: u8, to: &mut ArrayVec<u8, DATA>)
    requires low { 0 < position }
    requires within { position ≤ length bytes.now }
    requires fits { length bytes.now ≤ 254 }
    ensures { IsGiven (drop (position - 1) bytes.now) to.new.items }
{
    let rest = rest_of(bytes, position as usize - 1);
    let end = end_of(rest);
    copy(&rest[..end], to);
}

/// Reads at a place, and goes on from it. Returns the status.
fn read_at<D: Sectors>(
    disk: &mut D,
    found: &NamedFile,
    spot: &mut Position,
    to: &mut ArrayVec<u8, DATA>,
) -> Result<Status, Dead>
    requires found { IsFound (D.history.image disk.old) found.now }
    requires spot { IsSpot found.now spot.old }
    ensures { ReadsAt D.history disk.old disk.new found.now spot.old spot.new to.new.items result }
{
    let mut text = ArrayVec::new();
    match read_record(disk, &found.file, spot.record_number, &mut text) {
        Ok(()) => {
            give(text.as_slice(), spot.position, to);
            spot.advance();
            Ok(Status::Ok)
        }
        Err(fault) => match fault {
            RelFault::Device => Err(Dead),
            _ => {
                to.clear();
                Ok(Status::RecordNotPresent)
            }
        },
    }
}

impl OpenFile {
    /// Reads if its channel is open and has this number.
    fn read<D: Sectors>(
        &mut self,
        disk: &mut D,
        channel: u8,
        to: &mut ArrayVec<u8, DATA>,
    ) -> Result<Status, Dead>
        requires { (k : OpenFiles) × (k.last ≡ Some self.old) × IsKnown (D.history.image disk.old) k }
        ensures { (k : OpenFiles) → k.last ≡ Some self.old → IsKnown (D.history.image disk.old) k
            → ReadsOn D.history disk.old disk.new k (record {
              last = Some self.new;
              before = k.before;
              checked = k.checked;
            }) channel to.new.items result }
    {
        to.clear();
        if let Some(spot) = &mut self.spot {
            if spot.channel == channel {
                return read_at(disk, &self.found, spot, to);
            }
        }
        Ok(Status::FileNotOpen)
    }
}

impl OpenFiles {
    /// Reads if the channel is the open one.
    fn read<D: Sectors>(
        &mut self,
        disk: &mut D,
        channel: u8,
        to: &mut ArrayVec<u8, DATA>,
    ) -> Result<Status, Dead>
        requires known { IsKnown (D.history.image disk.old) self.old }
        ensures { ReadsOn D.history disk.old disk.new self.old self.new channel to.new.items result }
    {
        if let Some(opened) = &mut self.last {
            return opened.read(disk, channel, to);
        }
        to.clear();
        Ok(Status::FileNotOpen)
    }
}

impl<D: Sectors> Drive<D> {
    /// Reads the record at the channel's place, from the position on up to its last byte that isn't 00, or one 00 if
    /// there is none, and goes on to the next record: 00. If the record isn't there, the status is 50 and the place
    /// stays. If the channel isn't open, it is 61. In both cases no byte is returned. At most three sectors are read.
    ///
    /// A dead drive returns no byte. If the device fails in this call, `to` may hold any bytes.
    pub fn read(&mut self, channel: u8, to: &mut ArrayVec<u8, DATA>) -> Result<(), Dead>
        ensures serves { Serves D.history self.old self.new result }
        ensures row { OnOk result
            (Reads (view_of D.history self.old) channel to.new.items (view_of D.history self.new)) }
        ensures reads { OnlyReads D.history self.old.disk self.new.disk 3 }
        ensures silent { self.old.dead ≡ true → to.new.items ≡ [] }
    {
        if self.dead {
            to.clear();
            return Err(Dead);
        }
        let Ok(status) = self.known.read(&mut self.disk, channel, to) else {
            self.dead = true;
            return Err(Dead);
        };
        self.status = status;
        Ok(())
    }
}
