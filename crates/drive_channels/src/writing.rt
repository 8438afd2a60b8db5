//! Writing to a channel.
ghost use Rattle.std.specs.Prelude.{◌≡◌, ◌≤◌, ◌+◌, [], OnErr, OnOk, Some, length};
ghost use Rattle.d64_image.specs.History.{Changes, FailsInOneStep, OnlyReads};
ghost use Rattle.disk_layout.specs.Layout.{File, Layout, record_length};
ghost use Rattle.drive_channels.specs.Calls.{IsPlace, WritesAt, WritesOn};
ghost use Rattle.drive_channels.specs.Files.{IsRelAt};
ghost use Rattle.drive_channels.specs.Inside.{IsKnown};
ghost use Rattle.drive_channels.specs.Moments.{IsOnTheWay, writes_for};
ghost use Rattle.drive_channels.specs.Serving.{Serves};
ghost use Rattle.drive_channels.specs.State.{Channel, view_of};
ghost use Rattle.drive_channels.specs.Tables.{HasOn, IsOn, Writes};
ghost use Rattle.drive_channels.specs.declared.open_files.OpenFiles.{OpenFiles};
ghost use Rattle.drive_channels.specs.declared.status.Status.TheVariants.{FileTooLarge};
ghost use Rattle.rel_records.specs.Written.{IsInOneBlock};
ghost use Rattle.rel_records.specs.growth.Growth.{records_had};

use crate::drive::Drive;
use crate::faults::Dead;
use crate::open_file::{NamedFile, OpenFile, Position};
use crate::open_files::OpenFiles;
use crate::status::Status;
use d64_image::Sectors;
use rel_records::{RelFault, grow_to, write_record};

/// Grows the file so that it has the record at a place. Returns the status.
fn grow_at<D: Sectors>(disk: &mut D, found: &mut NamedFile, spot: Position) -> Result<Status, Dead>
    requires { IsPlace (D.history.image disk.old) found.old spot }
    ensures { WritesAt D.history disk.old disk.new found.old found.new spot spot [] result }
{
    match grow_to(disk, &mut found.file, spot.record_number) {
        Ok(()) => Ok(Status::Ok),
        Err(fault) => match fault {
            RelFault::Device => Err(Dead),
            _ => Ok(Status::FileTooLarge),
        },
    }
}

/// Writes a text that isn't empty at a place, and goes on from it. Returns the status.
fn write_text<D: Sectors>(
    disk: &mut D,
    found: &mut NamedFile,
    spot: &mut Position,
    text: &[u8],
) -> Result<Status, Dead>
    requires some { 1 ≤ length text.now }
    requires place { IsPlace (D.history.image disk.old) found.old spot.old }
    ensures { WritesAt D.history disk.old disk.new found.old found.new spot.old spot.new text.now result }
{
    match write_record(
        disk,
        &mut found.file,
        spot.record_number,
        spot.position,
        text,
    ) {
        Ok(()) => {
            spot.advance();
            Ok(Status::Ok)
        }
        Err(fault) => match fault {
            RelFault::Device => Err(Dead),
            RelFault::Overflow => {
                spot.advance();
                Ok(Status::Overflow)
            }
            _ => Ok(Status::FileTooLarge),
        },
    }
}

/// Writes at a place, and goes on from it. Returns the status.
fn write_at<D: Sectors>(
    disk: &mut D,
    found: &mut NamedFile,
    spot: &mut Position,
    text: &[u8],
) -> Result<Status, Dead>
    requires { IsPlace (D.history.image disk.old) found.old spot.old }
    ensures { WritesAt D.history disk.old disk.new found.old found.new spot.old spot.new text.now result }
{
    if text.is_empty() {
        return grow_at(disk, found, *spot);
    }
    write_text(disk, found, spot, text)
}

impl OpenFile {
    /// Writes if its channel is open and has this number.
    fn write<D: Sectors>(&mut self, disk: &mut D, channel: u8, text: &[u8]) -> Result<Status, Dead>
        requires { (k : OpenFiles) × (k.last ≡ Some self.old) × IsKnown (D.history.image disk.old) k }
        ensures { (k : OpenFiles) → k.last ≡ Some self.old → IsKnown (D.history.image disk.old) k
            → WritesOn D.history disk.old disk.new k (record {
              last = Some self.new;
              before = k.before;
              checked = k.checked;
            }) channel text.now result }
    {
        if let Some(spot) = &mut self.spot {
            if spot.channel == channel {
                return write_at(disk, &mut self.found, spot, text);
            }
        }
        Ok(Status::FileNotOpen)
    }
}

impl OpenFiles {
    /// Writes if the channel is the open one.
    fn write<D: Sectors>(&mut self, disk: &mut D, channel: u8, text: &[u8]) -> Result<Status, Dead>
        requires known { IsKnown (D.history.image disk.old) self.old }
        ensures { WritesOn D.history disk.old disk.new self.old self.new channel text.now result }
    {
        if let Some(opened) = &mut self.last {
            return opened.write(disk, channel, text);
        }
        Ok(Status::FileNotOpen)
    }
}

impl<D: Sectors> Drive<D> {
    /// Writes the record at the channel's place, from the position on, and goes on to the next record: 00, or 51 if the
    /// text reached past the record's end and was cut. The rest of the record becomes 00. If the record isn't there, it
    /// is made first, and all before it. If it can't be made, or the disk is too full for it, the status is 52, nothing
    /// is written and the place stays.
    ///
    /// An empty text makes the record and writes nothing into it; the place stays. If the channel isn't open, the
    /// status is 61. At most thirteen sectors are read.
    ///
    /// At `Dead` the disk holds what it held at one of the moments of the growth or of the writing.
    pub fn write(&mut self, channel: u8, text: &[u8]) -> Result<(), Dead>
        ensures serves { Serves D.history self.old self.new result }
        ensures row { OnOk result (Writes (view_of D.history self.old) channel text.now (view_of D.history self.new)) }
        // if the channel isn't open, the disk isn't touched; at 52 nothing is written
        ensures silent { ¬ (HasOn self.old.channel channel) → self.new.disk ≡ self.old.disk }
        ensures refused { OnOk result (self.new.status ≡ FileTooLarge
            → OnlyReads D.history self.old.disk self.new.disk 1) }
        ensures reads { D.history.reads self.new.disk ≤ D.history.reads self.old.disk + 13 }
        // otherwise each image held, and the number of writes, is that of the call on the record
        ensures moments { (c : Channel) (l : Layout) (f : File) → IsOn self.old.channel channel c
            → IsRelAt (D.history.image self.old.disk) l c.entry f
            → Changes D.history self.old.disk self.new.disk (writes_for f c text.now)
            (IsOnTheWay (D.history.image self.old.disk) text.now c l f) }
        // a record that is there and lies in one block is written in one step: at Dead no write was counted, and what was
        // shown of the record isn't taken back
        ensures one_step { (c : Channel) (l : Layout) (f : File) → IsOn self.old.channel channel c
            → IsRelAt (D.history.image self.old.disk) l c.entry f → c.record_number ≤ records_had f
            → IsInOneBlock (record_length f.slot) c.record_number
            → OnErr result (FailsInOneStep D.history self.old.disk self.new.disk) }
    {
        if self.dead {
            return Err(Dead);
        }
        let Ok(status) = self.known.write(&mut self.disk, channel, text) else {
            self.dead = true;
            return Err(Dead);
        };
        self.status = status;
        Ok(())
    }
}
