//! A tile of a contact sheet: a small drawing of a disk, and what is printed of it.
ghost use Rattle.std.specs.Prelude.{◌≡◌, ◌<◌, ◌+◌, IfErr, OnOk, Some};
ghost use Rattle.std.specs.Io.KnownBytes.{Appends};
ghost use Rattle.d64_image.specs.Places.{place_at};
ghost use Rattle.disk_pictures.specs.Held.{drawn_in};
ghost use Rattle.disk_pictures.specs.Html.{html_of};
ghost use Rattle.disk_pictures.specs.Petscii.{petscii_of};
ghost use Rattle.disk_pictures.specs.Sheets.{caption, own_stroke, shade as shade_of, shade_head, shade_path};
ghost use Rattle.disk_pictures.specs.Shades.{HasEach};
ghost use Rattle.disk_pictures.specs.Sheets.{small_drawing, stroke, tile_head, tile_text};
ghost use Rattle.disk_pictures.specs.Texts.{at_place, each_below};
ghost use Rattle.command_faults.specs.declared.faults.CommandFault.TheVariants as faults;

use crate::drawing::Drawing;
use crate::html::Html;
use crate::pages::page::class_of;
use crate::petscii::Petscii;
use crate::sheets::shades::{SHADES, Shades, shade};
use crate::verdicts::Verdict;
use command_faults::{CommandFault, print_text};
use d64_image::{Place, TRACK_SECTORS, TRACKS};
use damaged_files::disk_name;
use disk_layout::{BamView, Fault};
use std::fmt::{self, Display, Formatter};
use std::io::Write;

/// A sector of a small drawing.
#[derive(Clone, Copy)]
struct Stroke(Place);

impl Display for Stroke {
    ghost output = { λ sector. Some (stroke sector.0) };

    fn fmt<W: fmt::Write>(&self, f: &mut Formatter<W>) -> fmt::Result {
        write!(f, "M{} {}h.8", self.0.track(), self.0.sector())
    }
}

/// The beginning of the sectors of a shade.
#[derive(Clone, Copy)]
struct ShadeHead(usize);

impl Display for ShadeHead {
    ghost output = { λ head. Some (shade_head head.0) };

    fn fmt<W: fmt::Write>(&self, f: &mut Formatter<W>) -> fmt::Result {
        write!(f, "<path class=\"p{}\" d=\"", self.0)
    }
}

/// Prints a sector, if it has the shade.
fn print_stroke<W: Write>(
    out: &mut W,
    found: Option<Fault>,
    drawing: &Drawing,
    number: usize,
    place: Place,
) -> Result<(), CommandFault>
    ensures ok { OnOk result (Appends (W.contents out.old) (W.contents out.new)
        (own_stroke found drawing.now.map (drawn_in drawing.now) number place)) }
    ensures err { IfErr result (λ fault. fault ≡ faults.File) }
{
    if shade(drawing, found, place) == number {
        print_text(out, Stroke(place))
    } else {
        Ok(())
    }
}

/// Prints the sectors of the shade on a track.
fn print_strokes_on<W: Write>(
    out: &mut W,
    found: Option<Fault>,
    drawing: &Drawing,
    number: usize,
    track: u8,
) -> Result<(), CommandFault>
    ensures ok { OnOk result (Appends (W.contents out.old) (W.contents out.new) (each_below 21 (λ sector.
        at_place (own_stroke found drawing.now.map (drawn_in drawing.now) number) (place_at track sector)))) }
    ensures err { IfErr result (λ fault. fault ≡ faults.File) }
{
    for sector in 0..TRACK_SECTORS {
        if let Some(place) = Place::new(track, sector) {
            print_stroke(out, found, drawing, number, place)?;
        }
    }
    Ok(())
}

/// Prints the sectors of the shade on the track with so many tracks before it, if it has one there.
fn print_track<W: Write>(
    out: &mut W,
    found: Option<Fault>,
    drawing: &Drawing,
    shades: &Shades,
    number: usize,
    below: u8,
) -> Result<(), CommandFault>
    requires small { number < 29 }
    requires track { below < 35 }
    requires each { HasEach shades.now (shade_of found drawing.now.map (drawn_in drawing.now)) }
    ensures ok { OnOk result (Appends (W.contents out.old) (W.contents out.new) (each_below 21 (λ sector.
        at_place (own_stroke found drawing.now.map (drawn_in drawing.now) number) (place_at (below + 1) sector)))) }
    ensures err { IfErr result (λ fault. fault ≡ faults.File) }
{
    if shades.has(below, number) {
        print_strokes_on(out, found, drawing, number, below + 1)
    } else {
        Ok(())
    }
}

/// Prints the sectors of the shade, track by track.
fn print_shade<W: Write>(
    out: &mut W,
    found: Option<Fault>,
    drawing: &Drawing,
    shades: &Shades,
    number: usize,
) -> Result<(), CommandFault>
    requires small { number < 29 }
    requires each { HasEach shades.now (shade_of found drawing.now.map (drawn_in drawing.now)) }
    ensures ok { OnOk result (Appends (W.contents out.old) (W.contents out.new)
        (shade_path found drawing.now.map (drawn_in drawing.now) number)) }
    ensures err { IfErr result (λ fault. fault ≡ faults.File) }
{
    print_text(out, ShadeHead(number))?;
    for below in 0..TRACKS {
        print_track(out, found, drawing, shades, number, below)?;
    }
    print_text(out, "\"/>")
}

/// Prints the small drawing.
fn print_small<W: Write>(
    out: &mut W,
    found: Option<Fault>,
    drawing: &Drawing,
) -> Result<(), CommandFault>
    ensures ok { OnOk result (Appends (W.contents out.old) (W.contents out.new)
        (small_drawing found drawing.now.map (drawn_in drawing.now))) }
    ensures err { IfErr result (λ fault. fault ≡ faults.File) }
{
    let shades = Shades::of(drawing, found);
    for number in 0..SHADES {
        print_shade(out, found, drawing, &shades, number)?;
    }
    Ok(())
}

/// The beginning of a tile.
#[derive(Clone, Copy)]
struct TileHead(Verdict);

impl Display for TileHead {
    ghost output = { λ head. Some (tile_head head.0) };

    fn fmt<W: fmt::Write>(&self, f: &mut Formatter<W>) -> fmt::Result {
        let class = class_of(self.0);
        write!(
            f,
            "<figure class=\"{class}\"><svg viewBox=\"0 -1 37 23\" aria-hidden=\"true\">"
        )
    }
}

/// What is printed of a disk below its drawing.
#[derive(Clone, Copy)]
struct Caption<'a> {
    path: &'a str,
    verdict: Verdict,
    map: &'a [u8; 256],
}

impl Display for Caption<'_> {
    ghost output = { λ told. Some (caption html_of petscii_of told.path.now told.verdict told.map.now) };

    fn fmt<W: fmt::Write>(&self, f: &mut Formatter<W>) -> fmt::Result {
        let name = disk_name(self.map);
        let free = BamView::new(self.map).blocks_free();
        write!(
            f,
            "</svg><figcaption><code>{}</code> <span>{}<bdi>{}</bdi></span> <b>{}</b> \
            <span>{free} blocks free</span></figcaption>",
            Html(self.path.as_bytes()),
            Html(name),
            Petscii(name),
            self.verdict
        )
    }
}

/// Prints the tile of a disk up to its end.
pub(crate) fn print_tile<W: Write>(
    out: &mut W,
    path: &str,
    verdict: Verdict,
    drawing: &Drawing,
) -> Result<(), CommandFault>
    ensures ok { OnOk result (Appends (W.contents out.old) (W.contents out.new)
        (tile_text html_of petscii_of path.now verdict drawing.now.map (drawn_in drawing.now))) }
    ensures err { IfErr result (λ fault. fault ≡ faults.File) }
{
    print_text(out, TileHead(verdict))?;
    print_small(out, verdict.found, drawing)?;
    print_text(
        out,
        Caption {
            path,
            verdict,
            map: &drawing.map,
        },
    )
}
