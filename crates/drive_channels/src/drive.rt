//! The drive over a disk.
ghost use Rattle.std.specs.Prelude.{◌≡◌};

use crate::faults::Dead;
use crate::open_files::OpenFiles;
use crate::status::Status;
use d64_image::Sectors;
use std::marker::Model;

/// A drive with one relative channel, over a disk.
///
/// Each call does what the first matching row of its table says, and sets the status, which `status` returns. The
/// tables are in `docs/DRIVE.md`; they follow the 1541 User's Guide (relative files, command channel and error
/// channel). Once the device has failed, every call but `into_disk` returns `Dead` and changes nothing.
#[derive(Drop)]
pub struct Drive<D: Sectors> {
    pub(crate) disk: D,
    pub(crate) known: OpenFiles,
    pub(crate) status: Status,
    /// Whether the device has failed.
    pub(crate) dead: bool,
}

impl<D: Sectors> Model for Drive<D> {
    ghost use Rattle.drive_channels.specs.State.{Seen};

    ghost Value = { Seen D };

    ghost use Rattle.drive_channels.specs.Inside.{IsSteady, seen_of};

    ghost view = { seen_of };

    ghost invariant = { IsSteady D.history };
}

impl<D: Sectors> Drive<D> {
    ghost use Rattle.std.specs.Prelude.{false, None, IfOk, OnOk};
    ghost use Rattle.drive_channels.specs.Serving.{Serves};
    ghost use Rattle.drive_channels.specs.State.{view_of};
    ghost use Rattle.drive_channels.specs.Tables.{Tells};
    ghost use Rattle.drive_channels.specs.declared.status.Status.TheVariants as statuses;

    /// A drive over this disk, just switched on: no channel is open, the status is 73, and nothing was read.
    pub fn power_on(disk: D) -> Drive<D>
        ensures disk { result.disk ≡ disk }
        ensures channel { result.channel ≡ None }
        ensures status { result.status ≡ statuses.PowerOn }
        ensures checked { result.checked ≡ false }
        ensures alive { result.dead ≡ false }
    {
        Drive {
            disk,
            known: OpenFiles::nothing(),
            status: Status::PowerOn,
            dead: false,
        }
    }

    /// The disk, also of a drive that is dead.
    pub fn into_disk(self) -> D
        ensures { result ≡ self.disk }
    {
        let Drive {
            disk,
            known: _,
            status: _,
            dead: _,
        } = self;
        disk
    }

    /// The disk, lent.
    pub fn disk(&self) -> &D
        ensures { result.now ≡ self.now.disk }
    {
        &self.disk
    }

    /// The status of the last call, as a read of the error channel returns it. It is 00 from then on.
    pub fn status(&mut self) -> Result<Status, Dead>
        ensures serves { Serves D.history self.old self.new result }
        ensures told { IfOk result (λ s. s ≡ self.old.status) }
        ensures row { OnOk result (Tells (view_of D.history self.old) statuses.Ok (view_of D.history self.new)) }
        ensures disk { self.new.disk ≡ self.old.disk }
    {
        if self.dead {
            return Err(Dead);
        }
        let status = self.status;
        self.status = Status::Ok;
        Ok(status)
    }
}
