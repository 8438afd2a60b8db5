//! The tracks of a map, with one character for each sector or with two.
ghost use Rattle.std.specs.Prelude.{◌≡◌, IfErr, OnOk, Some};
ghost use Rattle.std.specs.Io.KnownBytes.{Appends};
ghost use Rattle.disk_pictures.specs.Held.{drawn_in};
ghost use Rattle.disk_pictures.specs.Maps.{narrow_tracks, track_line, track_number, track_text, tracks_text};
ghost use Rattle.disk_pictures.specs.Maps.{wide_line, wide_tracks};
ghost use Rattle.command_faults.specs.declared.faults.CommandFault.TheVariants as faults;

use crate::drawing::Drawing;
use crate::signs::{Cell, sign};
use command_faults::{CommandFault, print_text};
use d64_image::{Place, TRACK_SECTORS, TRACKS};
use disk_layout::Fault;
use std::fmt::{self, Display, Formatter};
use std::io::Write;

/// What stands above the tracks: the numbers of the sectors.
const HEAD: &str = "   0         1         2\n   012345678901234567890\n";

/// What stands above tracks with two characters for each sector.
const WIDE_HEAD: &str = "   00 01 02 03 04 05 06 07 08 09 10 11 12 13 14 15 16 17 18 19 20\n";

/// Prints the line of a track, with the marks of the sectors that it has.
fn print_track<W: Write>(
    out: &mut W,
    found: Option<Fault>,
    drawing: &Drawing,
    track: u8,
) -> Result<(), CommandFault>
    ensures ok { OnOk result (Appends (W.contents out.old) (W.contents out.new)
        (track_line found drawing.now.map (drawn_in drawing.now) track)) }
    ensures err { IfErr result (λ fault. fault ≡ faults.File) }
{
    print_text(out, TrackText(track))?;
    for sector in 0..TRACK_SECTORS {
        if let Some(place) = Place::new(track, sector) {
            print_text(out, sign(found, drawing, place))?;
        }
    }
    print_text(out, "\n")
}

/// Prints the head and the lines of the tracks, with a character for each sector.
fn print_tracks<W: Write>(
    out: &mut W,
    found: Option<Fault>,
    drawing: &Drawing,
) -> Result<(), CommandFault>
    ensures ok { OnOk result (Appends (W.contents out.old) (W.contents out.new)
        (narrow_tracks found drawing.now.map (drawn_in drawing.now))) }
    ensures err { IfErr result (λ fault. fault ≡ faults.File) }
{
    print_text(out, HEAD)?;
    for below in 0..TRACKS {
        print_track(out, found, drawing, below + 1)?;
    }
    Ok(())
}

/// Prints the line of a track, with two characters for each of the sectors that it has.
fn print_wide_track<W: Write>(
    out: &mut W,
    found: Option<Fault>,
    drawing: &Drawing,
    track: u8,
) -> Result<(), CommandFault>
    ensures ok { OnOk result (Appends (W.contents out.old) (W.contents out.new)
        (wide_line found drawing.now.map (drawn_in drawing.now) track)) }
    ensures err { IfErr result (λ fault. fault ≡ faults.File) }
{
    print_text(out, TrackNumber(track))?;
    for sector in 0..TRACK_SECTORS {
        if let Some(place) = Place::new(track, sector) {
            print_text(
                out,
                Cell {
                    found,
                    drawing,
                    place,
                },
            )?;
        }
    }
    print_text(out, "\n")
}

/// Prints the head and the lines of the tracks, with two characters for each sector.
fn print_wide_tracks<W: Write>(
    out: &mut W,
    found: Option<Fault>,
    drawing: &Drawing,
) -> Result<(), CommandFault>
    ensures ok { OnOk result (Appends (W.contents out.old) (W.contents out.new)
        (wide_tracks found drawing.now.map (drawn_in drawing.now))) }
    ensures err { IfErr result (λ fault. fault ≡ faults.File) }
{
    print_text(out, WIDE_HEAD)?;
    for below in 0..TRACKS {
        print_wide_track(out, found, drawing, below + 1)?;
    }
    Ok(())
}

/// The number of a track in two columns.
#[derive(Clone, Copy)]
struct TrackNumber(u8);

impl Display for TrackNumber {
    ghost output = { λ text. Some (track_number text.0) };

    fn fmt<W: fmt::Write>(&self, f: &mut Formatter<W>) -> fmt::Result {
        let space = if self.0 < 10 { " " } else { "" };
        write!(f, "{space}{}", self.0)
    }
}

/// The number of a track before its line.
#[derive(Clone, Copy)]
struct TrackText(u8);

impl Display for TrackText {
    ghost output = { λ text. Some (track_text text.0) };

    fn fmt<W: fmt::Write>(&self, f: &mut Formatter<W>) -> fmt::Result {
        let space = if self.0 < 10 { " " } else { "" };
        write!(f, "{space}{} ", self.0)
    }
}

/// Prints the head and the lines of the tracks, with one or two characters for each sector.
pub(crate) fn print_either_tracks<W: Write>(
    out: &mut W,
    wide: bool,
    found: Option<Fault>,
    drawing: &Drawing,
) -> Result<(), CommandFault>
    ensures ok { OnOk result (Appends (W.contents out.old) (W.contents out.new)
        (tracks_text wide found drawing.now.map (drawn_in drawing.now))) }
    ensures err { IfErr result (λ fault. fault ≡ faults.File) }
{
    if wide {
        print_wide_tracks(out, found, drawing)
    } else {
        print_tracks(out, found, drawing)
    }
}
