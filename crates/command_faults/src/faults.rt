//! Why a command isn't done.
ghost use Rattle.std.specs.Prelude.{◌≡◌, Some};
ghost use Rattle.std.specs.IoError.{error_kind};
ghost use Rattle.command_faults.specs.Faults.{
  call_fault,
  command_status,
  command_text,
  image_fault,
  io_fault,
  is_told as told_there,
  lock_fault,
  record_fault,
};
ghost use Rattle.command_faults.specs.declared.faults.CommandFault.TheVariants as faults;

use d64_image::{ImageFault, Place};
use disk_layout::Fault;
use rel_records::RelFault;
use std::error::Error;
use std::fmt::{self, Display, Formatter};
use std::fs::TryLockError;
use std::io;

/// Why a command isn't done, as it is reported on standard error.
#[derive(Clone, Copy, Debug, PartialEq, Eq)]
pub enum CommandFault {
    /// The image hasn't the 174,848 bytes of a disk of 35 tracks.
    ImageSize,
    /// What the layout of the image has wrong, and where.
    Layout(Fault),
    /// The image has no closed file of this name, or none of the kind that is asked for.
    NoFile,
    /// An entry of the directory has the new name already.
    FileExists,
    /// The disk has too few free sectors, or no room in its directory.
    DiskFull,
    /// The file is locked.
    Locked,
    /// The image has no closed relative file STOCK, or the first one has records of another length than 18.
    NoStock,
    /// The image has no closed relative file REQUESTS, or the first one has records of another length than 127.
    NoRequests,
    /// This record of STOCK is neither empty nor the card of its item; it is the first such one.
    BadCard(u16),
    /// This till's record of REQUESTS is neither empty nor a card, or is an open intent for an item whose record STOCK
    /// hasn't; it is the first such one.
    BadRequestCard(u8),
    /// More than one intent is open.
    TwoIntents,
    /// A line of the script can't be played: the first such line, counted from 1.
    ScriptLine(usize),
    /// This line of records, counted from 1, is the first that is of no record that the file has or can have.
    RecordsLine(usize),
    /// The disk is one of GEOS, which keeps sectors that no file owns.
    Geos,
    /// The disk's format byte isn't $41, that of the 1541.
    Format,
    /// A file couldn't be opened or read, or a file or the output not written.
    File,
    /// There was no memory for the words, a file's bytes, the disk or the output.
    NoMemory,
    /// A sector couldn't be read or written. A disk in memory has no such fault; of a disk whose sectors go on to a
    /// file the file failed.
    Device,
    /// A file of the image is cut short: its chain ends at this sector, too early.
    Short(Place),
    /// A file that was listed as a program in BASIC is none: it has no end of one, and doesn't begin with a line of one.
    NoProgram,
    /// A file that is to be renamed or deleted is one of a shop's two files. Nothing was changed.
    ShopFile,
    /// Another program has the image. Nothing was read or changed.
    InUse,
    /// Input that is set not to wait had nothing more yet. What was read before stands.
    NotReady,
    /// The disk is repaired, except that this number of sectors stay taken though no file owns them. The output says
    /// so.
    StraysLeft(u16),
    /// A file is to be made under a name that exists, or that has a log beside it. Nothing was changed.
    PathExists,
    /// The log beside the image can't be used: it is of another image, or isn't whole. Nothing was changed.
    Log,
    /// The image says that its log has the rest of it, and no log stands beside it. Nothing was changed.
    LogAway,
    /// The image's file has a second name, by which it would have another log. Nothing was changed.
    TwoNames,
    /// An image was trimmed, and sectors of it weren't read or are past track 35. Standard error has them.
    Trimmed,
    /// At least one of several images has a fault or is refused. The output has which and why. This is the greatest of
    /// their exit statuses.
    Several(u8),
}

impl CommandFault {
    /// The exit status: 1 for what the image or the script holds, 3 for a file, the output, memory, the device or
    /// another program.
    pub fn status(&self) -> u8
        ensures { result ≡ command_status self.now }
    {
        match self {
            CommandFault::File | CommandFault::NoMemory | CommandFault::Device => 3,
            CommandFault::InUse | CommandFault::NotReady => 3,
            CommandFault::Several(greatest) => *greatest,
            _ => 1,
        }
    }

    /// Whether it is reported on standard error now: all but what was reported before.
    pub fn is_told(&self) -> bool
        ensures { result ≡ told_there self.now }
    {
        match self {
            CommandFault::StraysLeft(_) | CommandFault::Trimmed | CommandFault::Several(_) => false,
            _ => true,
        }
    }

    /// What is reported if a file or the output failed so: `NoMemory` for lack of memory, otherwise `File`.
    pub fn of_io(error: &io::Error) -> CommandFault
        ensures { result ≡ io_fault (error_kind error.now) }
    {
        match error.kind() {
            io::ErrorKind::OutOfMemory => CommandFault::NoMemory,
            _ => CommandFault::File,
        }
    }

    /// What is reported if a file isn't locked for this reason: `InUse` if another program has it, otherwise that it
    /// can't be used.
    pub fn of_lock(error: &TryLockError) -> CommandFault
        ensures { result ≡ lock_fault error.now }
    {
        match error {
            TryLockError::WouldBlock => CommandFault::InUse,
            TryLockError::Error(error) => CommandFault::of_io(error),
        }
    }
}

impl Display for CommandFault {
    ghost output = { λ fault. Some (command_text fault) };

    fn fmt<W: fmt::Write>(&self, f: &mut Formatter<W>) -> fmt::Result {
        match self {
            CommandFault::ImageSize => f.write_str("IMAGE SIZE"),
            CommandFault::Layout(fault) => write!(f, "LAYOUT {fault}"),
            CommandFault::NoFile => f.write_str("NO FILE"),
            CommandFault::FileExists => f.write_str("FILE EXISTS"),
            CommandFault::DiskFull => f.write_str("DISK FULL"),
            CommandFault::Locked => f.write_str("LOCKED"),
            CommandFault::NoStock => f.write_str("NO STOCK"),
            CommandFault::NoRequests => f.write_str("NO REQUESTS"),
            CommandFault::BadCard(record) => write!(f, "BAD CARD {record}"),
            CommandFault::BadRequestCard(till) => write!(f, "BAD REQUEST CARD {till}"),
            CommandFault::TwoIntents => f.write_str("TWO INTENTS"),
            CommandFault::ScriptLine(line) => write!(f, "SCRIPT LINE {line}"),
            CommandFault::RecordsLine(line) => write!(f, "RECORDS LINE {line}"),
            CommandFault::Geos => f.write_str("GEOS"),
            CommandFault::Format => f.write_str("FORMAT"),
            CommandFault::File => f.write_str("FILE"),
            CommandFault::NoMemory => f.write_str("NO MEMORY"),
            CommandFault::Device => f.write_str("DEVICE"),
            CommandFault::Short(place) => write!(f, "SHORT {}/{}", place.track(), place.sector()),
            CommandFault::NoProgram => f.write_str("NO PROGRAM"),
            CommandFault::ShopFile => f.write_str("SHOP FILE"),
            CommandFault::InUse => f.write_str("IN USE"),
            CommandFault::NotReady => f.write_str("NOT READY"),
            CommandFault::StraysLeft(count) => write!(f, "KEPT {count}"),
            CommandFault::PathExists => f.write_str("FILE EXISTS"),
            CommandFault::Log => f.write_str("LOG"),
            CommandFault::LogAway => f.write_str("LOG AWAY"),
            CommandFault::TwoNames => f.write_str("TWO NAMES"),
            CommandFault::Trimmed => f.write_str("TRIMMED"),
            CommandFault::Several(greatest) => write!(f, "STATUS {greatest}"),
        }
    }
}

impl Error for CommandFault {}

impl From<ImageFault> for CommandFault {
    ghost from_gives = { λ e fault. fault ≡ image_fault e };

    fn from(e: ImageFault) -> CommandFault {
        match e {
            ImageFault::Size => CommandFault::ImageSize,
            ImageFault::NoMemory => CommandFault::NoMemory,
        }
    }
}

impl From<Fault> for CommandFault {
    ghost from_gives = { λ e fault. fault ≡ faults.Layout e };

    fn from(e: Fault) -> CommandFault {
        CommandFault::Layout(e)
    }
}

impl From<RelFault> for CommandFault {
    ghost from_gives = { λ e fault. fault ≡ record_fault e };

    fn from(e: RelFault) -> CommandFault {
        match e {
            RelFault::NotFound => CommandFault::NoFile,
            RelFault::Exists => CommandFault::FileExists,
            RelFault::Full => CommandFault::DiskFull,
            _ => CommandFault::Device,
        }
    }
}

impl From<io::Error> for CommandFault {
    ghost from_gives = { λ e fault. fault ≡ call_fault (error_kind e) };

    /// `NotReady` if the system was asked not to wait, otherwise what `of_io` returns.
    fn from(e: io::Error) -> CommandFault {
        match e.kind() {
            io::ErrorKind::WouldBlock => CommandFault::NotReady,
            _ => CommandFault::of_io(&e),
        }
    }
}
