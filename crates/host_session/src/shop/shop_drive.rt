//! The two files of a shop, through the drive.
ghost use Rattle.std.specs.Prelude.{ℕ, ◌≡◌, ◌≤◌, IsErr, None, Ok, OnErr, OnOk, Option, Some, false, true};
ghost use Rattle.d64_image.specs.History.{Changes, FailsInOneStep, OnlyReads, TellsFailure};
ghost use Rattle.disk_layout.specs.Layout.{File, IsLayout, Layout, record_length};
ghost use Rattle.disk_layout.specs.Rest.{IsFirst};
ghost use Rattle.drive_channels.specs.Files.{IsRelAt};
ghost use Rattle.drive_channels.specs.Moments.{IsOnTheWay, writes_for};
ghost use Rattle.drive_channels.specs.Serving.{Serves};
ghost use Rattle.drive_channels.specs.Spelling.{IsName};
ghost use Rattle.drive_channels.specs.State.{Channel, Seen, view_of};
ghost use Rattle.drive_channels.specs.Tables.{Writes};
ghost use Rattle.drive_channels.specs.Tables as tables;
ghost use Rattle.host_session.specs.shop.Putting.{IsInReach};
ghost use Rattle.host_session.specs.shop.Selecting.{IsAt, IsReady, IsInFile, place_text};
ghost use Rattle.host_session.specs.shop.Channels.{IsKnownOn, IsOn, length_of, name_of};
ghost use Rattle.rel_records.specs.Written.{IsInOneBlock};
ghost use Rattle.rel_records.specs.growth.Growth.{records_had};

use d64_image::Sectors;
use disk_layout::{REQUESTS_NAME, STOCK_NAME};
use drive_channels::{Dead, Drive};
use request_cards::{REQUEST_CARD_LENGTH, STOCK_CARD_LENGTH};
use std::marker::Model;

/// One of the two files of a shop.
#[derive(Clone, Copy, PartialEq, Eq)]
pub(crate) enum ShopFile {
    Stock,
    Requests,
}

impl ShopFile {
    /// Its name.
    pub(crate) fn name(self) -> &'static [u8]
        ensures value { result.now ≡ name_of self }
        ensures name { IsName result.now }
    {
        match self {
            ShopFile::Stock => STOCK_NAME,
            ShopFile::Requests => REQUESTS_NAME,
        }
    }

    /// The length of its records, in bytes.
    pub(crate) fn record_length(self) -> u8
        ensures { result ≡ length_of self }
    {
        match self {
            ShopFile::Stock => STOCK_CARD_LENGTH as u8,
            ShopFile::Requests => REQUEST_CARD_LENGTH as u8,
        }
    }
}

/// The drive over a shop's disk, and the file that its channel 2 is open on, if one is known: then `P` alone reaches a
/// record of the same file.
pub(crate) struct ShopDrive<D: Sectors> {
    drive: Drive<D>,
    known: Option<ShopFile>,
}

impl<D: Sectors> Model for ShopDrive<D> {
    ghost Value = { Seen D };

    ghost view = { λ s. s.drive };

    ghost invariant = { λ s. s.drive.dead ≡ false → IsKnownOn D.history s.drive s.known };
}

/// The command that places channel 2 at the start of a record.
fn placing(number: u16) -> [u8; 5]
    ensures { result ≡ place_text number }
{
    [b'P', 2, (number % 256) as u8, (number / 256) as u8, 1]
}

impl<D: Sectors> ShopDrive<D> {
    /// A drive over this disk, just switched on.
    pub(crate) fn power_on(disk: D) -> ShopDrive<D>
        ensures disk { result.disk ≡ disk }
        ensures channel { result.channel ≡ None }
        ensures alive { result.dead ≡ false }
    {
        ShopDrive {
            drive: Drive::power_on(disk),
            known: None,
        }
    }

    /// The disk, lent.
    pub(crate) fn disk(&self) -> &D
        ensures { result.now ≡ self.now.disk }
    {
        self.drive.disk()
    }

    /// The disk.
    pub(crate) fn into_disk(self) -> D
        ensures { result ≡ self.disk }
    {
        let ShopDrive { drive, known: _ } = self;
        drive.into_disk()
    }

    /// Whether channel 2 is open on this file.
    fn is_open(&self, file: ShopFile) -> bool
        ensures on { result ≡ true → self.now.dead ≡ false → IsOn D.history self.now file }
        ensures off { result ≡ false → self.now.dead ≡ false → ¬ (IsOn D.history self.now file) }
    {
        self.known == Some(file)
    }

    /// Opens channel 2 on a file.
    // Out of line, since the way to a record of the file that the channel is on needs none of it.
    #[inline(never)]
    fn open(&mut self, file: ShopFile) -> Result<(), Dead>
        requires ready { IsReady D.history self.old }
        requires there { (l : Layout) × (n : ℕ) × (f : File)
            × IsLayout (D.history.image self.old.disk) l × IsFirst l (name_of file) n f }
        ensures on { (l : Layout) (n : ℕ) (f : File)
            → IsLayout (D.history.image self.old.disk) l → IsFirst l (name_of file) n f
            → OnOk result (IsInFile self.new n) }
        ensures reads { OnlyReads D.history self.old.disk self.new.disk 2817 }
        ensures failures { TellsFailure D.history self.old.disk self.new.disk result }
        ensures dies { IsErr result → self.new.dead ≡ true }
    {
        self.drive.close(2)?;
        self.drive.open(2, file.name())?;
        self.known = Some(file);
        Ok(())
    }

    /// Opens channel 2 on a file, if it isn't open on it.
    fn turn_to(&mut self, file: ShopFile) -> Result<(), Dead>
        requires ready { IsReady D.history self.old }
        requires there { (l : Layout) × (n : ℕ) × (f : File)
            × IsLayout (D.history.image self.old.disk) l × IsFirst l (name_of file) n f }
        ensures on { (l : Layout) (n : ℕ) (f : File)
            → IsLayout (D.history.image self.old.disk) l → IsFirst l (name_of file) n f
            → OnOk result (IsInFile self.new n) }
        // a channel that is on the file stays as it is
        ensures stays { IsOn D.history self.old file → (result ≡ Ok tt) × (self.new ≡ self.old) }
        ensures reads { OnlyReads D.history self.old.disk self.new.disk 2817 }
        ensures failures { TellsFailure D.history self.old.disk self.new.disk result }
        ensures dies { IsErr result → self.new.dead ≡ true }
    {
        if self.is_open(file) {
            return Ok(());
        }
        self.open(file)
    }

    /// Places channel 2 at the start of a record of a file, which is there or which the file can grow to.
    pub(crate) fn select(&mut self, file: ShopFile, number: u16) -> Result<(), Dead>
        requires ready { IsReady D.history self.old }
        requires reach { (l : Layout) × (n : ℕ) × (f : File)
            × IsInReach (D.history.image self.old.disk) (name_of file) number l n f }
        ensures at { (l : Layout) (n : ℕ) (f : File)
            → IsInReach (D.history.image self.old.disk) (name_of file) number l n f
            → OnOk result (IsAt self.new n number) }
        // if the channel is on the file, no sector is read
        ensures quiet { IsOn D.history self.old file → self.new.disk ≡ self.old.disk }
        ensures reads { OnlyReads D.history self.old.disk self.new.disk 2817 }
        ensures failures { TellsFailure D.history self.old.disk self.new.disk result }
        ensures dies { IsErr result → self.new.dead ≡ true }
    {
        self.turn_to(file)?;
        self.drive.command(&placing(number))
    }

    /// Writes at channel 2's place.
    // In line, as all on the way to a device's write is: a return right after a system call is slow.
    #[inline(always)]
    pub(crate) fn write(&mut self, text: &[u8]) -> Result<(), Dead>
        ensures serves { Serves D.history self.old self.new result }
        ensures row { OnOk result (Writes (view_of D.history self.old) 2 text.now (view_of D.history self.new)) }
        ensures moments { (c : Channel) (l : Layout) (f : File) → tables.IsOn self.old.channel 2 c
            → IsRelAt (D.history.image self.old.disk) l c.entry f
            → Changes D.history self.old.disk self.new.disk (writes_for f c text.now)
            (IsOnTheWay (D.history.image self.old.disk) text.now c l f) }
        ensures one_step { (c : Channel) (l : Layout) (f : File) → tables.IsOn self.old.channel 2 c
            → IsRelAt (D.history.image self.old.disk) l c.entry f → c.record_number ≤ records_had f
            → IsInOneBlock (record_length f.slot) c.record_number
            → OnErr result (FailsInOneStep D.history self.old.disk self.new.disk) }
    {
        self.drive.write(2, text)
    }
}
