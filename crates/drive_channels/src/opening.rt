//! Opening a channel.
ghost use Rattle.rel_records.specs.File.{IsLength, length_of};
ghost use Rattle.std.specs.Prelude.{◌≡◌, ◌≢◌, ◌↔◌, true, false, IfSome, IsTrue, List, MatchOption, None, OnOk, Some, ℕ};
ghost use Rattle.std.specs.Prelude.{◌≤◌, ◌+◌, ◌⊎◌, length};
ghost use Rattle.d64_image.specs.History.{Changes, OnlyReads};
ghost use Rattle.d64_image.specs.Images.{Image};
ghost use Rattle.disk_layout.specs.Clean.{IsClean};
ghost use Rattle.disk_layout.specs.Layout.{IsLayout, Layout};
ghost use Rattle.drive_channels.specs.Calls.{Checks, IsChannelNumber, IsShut, LooksFor, MakesFile, OpensText};
ghost use Rattle.drive_channels.specs.Calls.{OpensWish};
ghost use Rattle.drive_channels.specs.Files.{HasFile};
ghost use Rattle.drive_channels.specs.Moments.{IsCreatingFrom};
ghost use Rattle.drive_channels.specs.Serving.{Serves};
ghost use Rattle.drive_channels.specs.Spelling.{IsName, IsWish, Wish};
ghost use Rattle.drive_channels.specs.State.{view_of};
ghost use Rattle.drive_channels.specs.Tables.{Opens, OpensFile};
ghost use Rattle.drive_channels.specs.Wishes.{wish_of};
ghost use Rattle.rel_records.specs.creation.Made.{creation_writes};
ghost use Rattle.drive_channels.specs.Inside.{HasLooked, IsFound, IsKnown, channel_of, found_in, shown};
ghost use Rattle.drive_channels.specs.declared.open_file.NamedFile.{NamedFile};
ghost use Rattle.drive_channels.specs.declared.status.Status as statuses;

use crate::drive::Drive;
use crate::faults::Dead;
use crate::open_file::{NamedFile, OpenFile, Position};
use crate::open_files::OpenFiles;
use crate::status::Status;
use crate::text::{FileWish, wish};
use d64_image::Sectors;
use disk_layout::Fault;
use layout_check::check;
use rel_records::{RelFault, RelFile, create, find};
use std::mem::swap;

/// Whether the file's records have this length, if one is given.
fn has_length(file: &RelFile, length: Option<u8>) -> bool
    ensures { IsTrue result ↔ IfSome length (λ l. length_of file.now ≡ l) }
{
    match length {
        Some(length) => file.length() == length,
        None => true,
    }
}

/// The first closed relative file of this name. None if there is none.
fn find_file<D: Sectors>(disk: &mut D, name: &[u8]) -> Result<Option<NamedFile>, Dead>
    requires clean { IsClean (D.history.image disk.old) }
    requires name { IsName name.now }
    ensures { LooksFor D.history disk.old disk.new result (λ o.
        MatchOption o (¬ (HasFile (D.history.image disk.old) name.now))
        (λ e. IsFound (D.history.image disk.old) e × (e.name.items ≡ name.now))) }
{
    match find(disk, name) {
        Ok(file) => Ok(Some(NamedFile::new(name, file))),
        Err(fault) => match fault {
            RelFault::Device => Err(Dead),
            _ => Ok(None),
        },
    }
}

impl OpenFile {
    /// Changes places with the file before, if that has this name. Returns whether it has.
    fn recall(&mut self, before: &mut Option<NamedFile>, name: &[u8]) -> bool
        ensures found { result ≡ true → (e : NamedFile) × (before.old ≡ Some e) × (e.name.items ≡ name.now)
            × (self.new ≡ record { found = e; spot = self.old.spot }) × (before.new ≡ Some self.old.found) }
        ensures other { result ≡ false
            → (self.new ≡ self.old) × (before.new ≡ before.old) × IfSome before.old (λ e. e.name.items ≢ name.now) }
    {
        if let Some(found) = before {
            if found.is_named(name) {
                swap(&mut self.found, found);
                return true;
            }
        }
        false
    }
}

impl OpenFiles {
    /// Whether a channel is open.
    fn is_open(&self) -> bool
        ensures { MatchOption (channel_of self.now.last) (result ≡ false) (λ c. result ≡ true) }
    {
        match &self.last {
            Some(opened) => opened.spot.is_some(),
            None => false,
        }
    }

    /// Whether the file opened last has this name.
    fn is_last(&self, name: &[u8]) -> bool
        ensures { MatchOption self.now.last (result ≡ false) (λ o. IsTrue result ↔ (o.found.name.items ≡ name.now)) }
    {
        match &self.last {
            Some(opened) => opened.found.is_named(name),
            None => false,
        }
    }

    /// Makes the file of this name the one opened last, if it is one of the two that are remembered. Returns whether it
    /// is.
    fn recall(&mut self, name: &[u8]) -> bool
        requires closed { channel_of self.old.last ≡ None }
        ensures found { (img : Image) → IsKnown img self.old → result ≡ true → HasLooked img name.now self.new true }
        ensures other { result ≡ false
            → (self.new ≡ self.old) × IfSome self.old.last (λ o. o.found.name.items ≢ name.now) }
        ensures checked { self.new.checked ≡ self.old.checked }
    {
        if self.is_last(name) {
            return true;
        }
        if let Some(opened) = &mut self.last {
            return opened.recall(&mut self.before, name);
        }
        false
    }

    /// Makes this file the one opened last, with no channel. The file before it is then the one that was opened last
    /// until now.
    fn set_last(&mut self, found: NamedFile)
        ensures last { self.new.last ≡ Some (record { found = found; spot = None }) }
        ensures before { self.new.before ≡ found_in self.old.last }
        ensures checked { self.new.checked ≡ self.old.checked }
    {
        let last = self.last.replace(OpenFile { found, spot: None });
        self.before = match last {
            Some(opened) => Some(opened.found),
            None => None,
        };
    }

    /// Makes the file of this name the one opened last, with no channel, if there is one. Returns whether there is.
    fn look_up<D: Sectors>(&mut self, disk: &mut D, name: &[u8]) -> Result<bool, Dead>
        requires shut { IsShut (D.history.image disk.old) self.old }
        requires name { IsName name.now }
        ensures { LooksFor D.history disk.old disk.new result (HasLooked (D.history.image disk.old) name.now self.new) }
    {
        if self.recall(name) {
            return Ok(true);
        }
        match find_file(disk, name)? {
            Some(found) => {
                self.set_last(found);
                Ok(true)
            }
            None => Ok(false),
        }
    }

    /// Checks the disk, if no check has passed yet. Returns whether one has now.
    fn passes_check<D: Sectors>(&mut self, disk: &mut D) -> Result<bool, Dead>
        requires known { IsKnown (D.history.image disk.old) self.old }
        ensures { Checks D.history disk.old disk.new self.old self.new result }
    {
        if self.checked {
            return Ok(true);
        }
        match check(disk) {
            Ok(_) => {
                self.checked = true;
                Ok(true)
            }
            Err(fault) => match fault {
                Fault::Device(_) => Err(Dead),
                _ => Ok(false),
            },
        }
    }

    /// Opens the file opened last at its first record, unless its records have another length than the one given.
    /// Returns the status.
    fn open_last(&mut self, channel: u8, length: Option<u8>) -> Status
        requires { IsChannelNumber channel }
        ensures row { (img : Image) → (name : List ℕ) → (s : statuses.Status) → HasLooked img name self.old true
            → OpensFile (shown img self.old s) channel (record { name = name; length = length })
            (shown img self.new result) }
        ensures known { (img : Image) → IsKnown img self.old → IsKnown img self.new }
    {
        if let Some(opened) = &mut self.last {
            if !has_length(&opened.found.file, length) {
                return Status::RecordNotPresent;
            }
            opened.spot = Some(Position::first(channel));
            return Status::Ok;
        }
        Status::FileNotFound
    }

    /// Makes a file that isn't there, and opens it. Returns the status.
    fn make<D: Sectors>(
        &mut self,
        disk: &mut D,
        channel: u8,
        name: &[u8],
        size: u8,
    ) -> Result<Status, Dead>
        requires known { IsKnown (D.history.image disk.old) self.old }
        requires checked { self.old.checked ≡ true }
        requires missing { ¬ (HasFile (D.history.image disk.old) name.now) }
        requires channel { IsChannelNumber channel }
        requires name { IsName name.now }
        requires size { IsLength size }
        ensures { MakesFile D.history disk.old disk.new self.old self.new channel name.now size result }
    {
        match create(disk, name, size) {
            Ok(file) => {
                self.before = None;
                self.last = Some(OpenFile {
                    found: NamedFile::new(name, file),
                    spot: Some(Position::first(channel)),
                });
                Ok(Status::Ok)
            }
            Err(fault) => match fault {
                RelFault::Device => Err(Dead),
                RelFault::Exists => Ok(Status::TypeMismatch),
                _ => Ok(Status::DiskFull),
            },
        }
    }

    /// Opens or makes the file that the text of open names. Returns the status.
    fn open_file<D: Sectors>(
        &mut self,
        disk: &mut D,
        channel: u8,
        wish: FileWish<'_>,
    ) -> Result<Status, Dead>
        requires shut { IsShut (D.history.image disk.old) self.old }
        requires channel { IsChannelNumber channel }
        requires wish { (text : List ℕ) × IsWish text (wish_of wish) }
        ensures { OpensWish D.history disk.old disk.new self.old self.new channel (wish_of wish.entry) result }
    {
        if self.look_up(disk, wish.name)? {
            return Ok(self.open_last(channel, wish.length));
        }
        match wish.length {
            Some(length) => self.make(disk, channel, wish.name, length),
            None => Ok(Status::FileNotFound),
        }
    }

    /// Opens the file that the text of open names, while no channel is open. Returns the status.
    // Out of line, since a call pays for all locals at its start, and `open` mostly finds the file remembered.
    #[inline(never)]
    fn open_wish<D: Sectors>(
        &mut self,
        disk: &mut D,
        channel: u8,
        text: &[u8],
    ) -> Result<Status, Dead>
        requires known { IsKnown (D.history.image disk.old) self.old }
        requires closed { channel_of self.old.last ≡ None }
        requires channel { IsChannelNumber channel }
        ensures { OpensText D.history disk.old disk.new self.old self.new channel text.now result }
    {
        let Some(wish) = wish(text) else {
            return Ok(Status::SyntaxError);
        };
        if !self.passes_check(disk)? {
            return Ok(Status::DirError);
        }
        self.open_file(disk, channel, wish)
    }

    /// Opens the file that the text of open names. Returns the status. If the file is remembered, only its name is
    /// compared.
    fn open<D: Sectors>(&mut self, disk: &mut D, channel: u8, text: &[u8]) -> Result<Status, Dead>
        requires known { IsKnown (D.history.image disk.old) self.old }
        ensures { OpensText D.history disk.old disk.new self.old self.new channel text.now result }
    {
        if channel < 2 || channel > 14 || self.is_open() {
            return Ok(Status::NoChannel);
        }
        if self.recall(text) {
            return Ok(self.open_last(channel, None));
        }
        self.open_wish(disk, channel, text)
    }
}

impl<D: Sectors> Drive<D> {
    /// Opens a channel, from 2 to 14, on the first closed relative file of a name, at its first record: 00. The text is
    /// the name, or the name, `,L,` and one byte, the length of the file's records. With a length the file is made if
    /// it isn't there.
    ///
    /// In the following cases nothing is opened and nothing is written. The first that matches sets the status:
    ///
    /// - 70 if the number isn't that of such a channel, or while a channel is open;
    /// - 30 if the text is neither of the two;
    /// - 71 if no check has passed since power-on and the check now finds a fault;
    /// - 62 without a length, if there is no such file;
    /// - 50 with another length than the file's;
    /// - 64 with a length, if only files of another type have the name;
    /// - 72 if there is no room for the new file.
    ///
    /// At `Dead` the disk holds what it held at one of the moments of the creation; otherwise at most 2872 sectors were
    /// read.
    pub fn open(&mut self, channel: u8, text: &[u8]) -> Result<(), Dead>
        ensures serves { Serves D.history self.old self.new result }
        ensures row { OnOk result (Opens (view_of D.history self.old) channel text.now (view_of D.history self.new)) }
        // without a length, if the file is there, or if the channel isn't opened, nothing is written
        ensures quiet { ((w : Wish) → IsWish text.now w → w.length ≡ None)
            ⊎ ((w : Wish) × IsWish text.now w × HasFile (D.history.image self.old.disk) w.name)
            → OnlyReads D.history self.old.disk self.new.disk 2817 }
        ensures refused { OnOk result (self.new.channel ≡ self.old.channel
            → OnlyReads D.history self.old.disk self.new.disk 2872) }
        ensures reads { OnOk result (D.history.reads self.new.disk ≤ D.history.reads self.old.disk + 2872) }
        // nothing is written on a disk that isn't clean; otherwise each image held, and the number of writes, is that
        // of the creation
        ensures unclean { ¬ (IsClean (D.history.image self.old.disk))
            → OnlyReads D.history self.old.disk self.new.disk 2115 }
        ensures moments { (l : Layout) → IsLayout (D.history.image self.old.disk) l
            → Changes D.history self.old.disk self.new.disk (creation_writes l)
            (IsCreatingFrom (D.history.image self.old.disk) l text.now) }
    {
        if self.dead {
            return Err(Dead);
        }
        let Ok(status) = self.known.open(&mut self.disk, channel, text) else {
            self.dead = true;
            return Err(Dead);
        };
        self.status = status;
        Ok(())
    }
}
