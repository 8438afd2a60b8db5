//! Why words ask for nothing.
ghost use Rattle.std.specs.Prelude.{◌≡◌};
ghost use Rattle.ledger_cli.specs.Faults.{job_number, job_status};

use clap::error::ErrorKind;
use thiserror::Error;

/// Why the words of a command line ask for nothing.
#[derive(Debug, Drop, Error)]
pub enum JobFault {
    /// The words are none of the program's, or ask for help, or there was no memory to read them.
    #[error(transparent)]
    Words(clap::Error),
    /// The number of tills isn't one of 1 to 64, in decimal digits without leading zeros.
    #[error("TILLS")]
    Tills,
    /// The name isn't one that a file or a disk can have: a text of at most sixteen bytes, the last of which isn't a shifted
    /// space. The name that a file gets has one byte at least.
    #[error("NAME")]
    Name,
    /// The length of a record isn't one of 1 to 254, in decimal digits without leading zeros.
    #[error("LENGTH")]
    Length,
    /// There are several images to be drawn, but neither on a sheet nor to be compared. Or there are more than a sheet
    /// has room for, or not two to be compared. Or two forms of a picture are asked for: a poster, a sheet, a comparison.
    #[error("IMAGES")]
    Images,
    /// The text of a sector isn't that of one of the disk: its track, a slash and its number, such as 17/4.
    #[error("SECTOR")]
    Sector,
    /// The ID of a disk isn't the text of two bytes.
    #[error("ID")]
    Id,
    /// Two flags are given that exclude one another: `--sync` and `--log`, or `--fields` and `--at`.
    #[error("FLAGS")]
    Flags,
    /// The type of a file isn't `prg`, `seq` or `usr`.
    #[error("TYPE")]
    Kind,
    /// The positions aren't numbers of 1 to 254, in decimal digits without leading zeros and with a comma between two, of
    /// which the first is 1 and each is greater than the one before; or they are more than 32.
    #[error("POSITIONS")]
    Positions,
    /// A file that is to be made, replaced or changed is named `-`, which is standard input.
    #[error("PATH")]
    Path,
}

impl JobFault {
    /// The fault's number: 1 for `Words`, 2 for `Tills`, 3 for `Name`, 4 for `Length`, 5 for `Images`, 6
    /// for `Sector`, 7 for `Id`, 8 for `Flags`, 9 for `Kind`, 10 for `Positions`, 11 for `Path`.
    pub fn number(&self) -> u8
        ensures { result ≡ job_number self.now }
    {
        match self {
            JobFault::Words(_) => 1,
            JobFault::Tills => 2,
            JobFault::Name => 3,
            JobFault::Length => 4,
            JobFault::Images => 5,
            JobFault::Sector => 6,
            JobFault::Id => 7,
            JobFault::Flags => 8,
            JobFault::Kind => 9,
            JobFault::Positions => 10,
            JobFault::Path => 11,
        }
    }

    /// The exit status: 3 if memory ran out, 0 if help or the version is asked for, otherwise 2.
    pub fn status(&self) -> u8
        ensures { result ≡ job_status self.now }
    {
        match self {
            JobFault::Words(error) => match error.kind() {
                ErrorKind::OutOfMemory => 3,
                ErrorKind::DisplayHelp | ErrorKind::DisplayVersion => 0,
                _ => 2,
            },
            JobFault::Tills | JobFault::Name | JobFault::Length => 2,
            JobFault::Images | JobFault::Sector => 2,
            JobFault::Id | JobFault::Flags | JobFault::Kind => 2,
            JobFault::Positions | JobFault::Path => 2,
        }
    }
}
