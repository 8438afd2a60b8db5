//! The free blocks of a disk, as they are printed.
ghost use Rattle.std.specs.Prelude.{◌≡◌, ◌≢◌, ◌+◌, IfErr, OnOk, Some};
ghost use Rattle.std.specs.Io.KnownBytes.{Appends};
ghost use Rattle.disk_layout.specs.Map.{map_count};
ghost use Rattle.disk_pictures.specs.Texts.{each_below};
ghost use Rattle.disk_pictures.specs.Views.{AreFreePrinted, IsViewFault, free_line, free_text, free_total};
ghost use Rattle.command_faults.specs.declared.faults.CommandFault.TheVariants as faults;

use command_faults::{CommandFault, flush, load, print_text};
use d64_image::TRACKS;
use disk_layout::{BamView, map_place};
use std::alloc::Global;
use std::fmt::{self, Display, Formatter};
use std::io::Write;

/// The line of a track with so many free sectors.
#[derive(Clone, Copy)]
struct FreeLine {
    track: u8,
    free: u8,
}

impl Display for FreeLine {
    ghost output = { λ line. Some (free_line line.track line.free) };

    fn fmt<W: fmt::Write>(&self, f: &mut Formatter<W>) -> fmt::Result {
        writeln!(f, "TRACK {} FREE {}", self.track, self.free)
    }
}

/// The line with the free sectors of all tracks together.
#[derive(Clone, Copy)]
struct FreeTotal(u16);

impl Display for FreeTotal {
    ghost output = { λ total. Some (free_total total.0) };

    fn fmt<W: fmt::Write>(&self, f: &mut Formatter<W>) -> fmt::Result {
        writeln!(f, "{} BLOCKS FREE", self.0)
    }
}

/// Prints the lines of the tracks.
fn print_tracks<W: Write>(out: &mut W, map: &[u8; 256]) -> Result<(), CommandFault>
    ensures ok { OnOk result (Appends (W.contents out.old) (W.contents out.new)
        (each_below 35 (λ b. free_line (b + 1) (map_count map.now (b + 1))))) }
    ensures err { IfErr result (λ fault. fault ≡ faults.File) }
{
    let view = BamView::new(map);
    for below in 0..TRACKS {
        let track = below + 1;
        print_text(
            out,
            FreeLine {
                track,
                free: view.free_on(track),
            },
        )?;
    }
    Ok(())
}

/// Prints the lines of the tracks, and their sum.
fn print_free<W: Write>(out: &mut W, map: &[u8; 256]) -> Result<(), CommandFault>
    ensures ok { OnOk result (Appends (W.contents out.old) (W.contents out.new) (free_text map.now)) }
    ensures err { IfErr result (λ fault. fault ≡ faults.File) }
{
    print_tracks(out, map)?;
    print_text(out, FreeTotal(BamView::new(map).blocks_free()))?;
    flush(out)
}

/// Prints how many sectors of each track are free, as the map in 18/0 counts them, whether that is right or not. There is
/// a line `TRACK n FREE k` for each of the 35 tracks. The last line says how many blocks are free for files; track 18
/// doesn't count for it. The rest of the image isn't checked.
///
/// `ImageSize` and `NoMemory`: nothing was printed. `File` if the output failed, which may then have a part.
pub fn free_image<W: Write>(alloc: Global, image: &[u8], out: &mut W) -> Result<(), CommandFault>
    ensures ok { OnOk result (AreFreePrinted W.contents image.now out.old out.new) }
    ensures err { IfErr result (IsViewFault image.now) }
    ensures untouched { IfErr result (λ fault. (fault ≢ faults.File) → out.new ≡ out.old) }
{
    let disk = load(alloc, image)?;
    print_free(out, disk.sector(map_place()))
}
