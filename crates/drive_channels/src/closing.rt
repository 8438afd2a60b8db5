//! Closing a channel.
ghost use Rattle.std.specs.Prelude.{◌≡◌, IfSome, OnOk};
ghost use Rattle.d64_image.specs.Images.{Image};
ghost use Rattle.drive_channels.specs.Inside.{IsKnown, IsSpot, channel_in, channel_of};
ghost use Rattle.drive_channels.specs.Serving.{Serves};
ghost use Rattle.drive_channels.specs.State.{view_of};
ghost use Rattle.drive_channels.specs.Tables.{Closes, channel_without};
ghost use Rattle.rel_records.specs.File.{entry_of};

use crate::drive::Drive;
use crate::faults::Dead;
use crate::open_file::OpenFile;
use crate::open_files::OpenFiles;
use crate::status::Status;
use d64_image::Sectors;

impl OpenFile {
    /// Closes its channel, if the channel has this number.
    fn close(&mut self, channel: u8)
        ensures found { self.new.found ≡ self.old.found }
        ensures channel { channel_in (entry_of self.old.found.file) self.new.spot
            ≡ channel_without channel (channel_in (entry_of self.old.found.file) self.old.spot) }
        ensures spot { IfSome self.old.spot (IsSpot self.old.found) → IfSome self.new.spot (IsSpot self.old.found) }
    {
        if let Some(spot) = &self.spot {
            if spot.channel == channel {
                self.spot = None;
            }
        }
    }
}

impl OpenFiles {
    /// Closes the open channel, if it has this number.
    fn close(&mut self, channel: u8)
        ensures channel { channel_of self.new.last ≡ channel_without channel (channel_of self.old.last) }
        ensures checked { self.new.checked ≡ self.old.checked }
        ensures known { (img : Image) → IsKnown img self.old → IsKnown img self.new }
    {
        if let Some(opened) = &mut self.last {
            opened.close(channel);
        }
    }
}

impl<D: Sectors> Drive<D> {
    /// Closes the channel, if it is open. The status is 00.
    pub fn close(&mut self, channel: u8) -> Result<(), Dead>
        ensures serves { Serves D.history self.old self.new result }
        ensures row { OnOk result (Closes (view_of D.history self.old) channel (view_of D.history self.new)) }
        ensures disk { self.new.disk ≡ self.old.disk }
    {
        if self.dead {
            return Err(Dead);
        }
        self.known.close(channel);
        self.status = Status::Ok;
        Ok(())
    }
}
