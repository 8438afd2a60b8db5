//! White lines over sectors in use that the map calls free: for each track that has such a sector a circle with a dash
//! over each.
ghost use Rattle.std.specs.Prelude.{◌≡◌, IfErr, OnOk, Some};
ghost use Rattle.std.specs.Io.KnownBytes.{Appends};
ghost use Rattle.d64_image.specs.Places.{place_at};
ghost use Rattle.disk_pictures.specs.Held.{drawn_in};
ghost use Rattle.disk_pictures.specs.Pictures.{is_open as open_at, is_track_open as track_open, open_group};
ghost use Rattle.disk_pictures.specs.Pictures.{own_ring, track_dashes, white_head};
ghost use Rattle.disk_pictures.specs.Texts.{is_at_place};
ghost use Rattle.command_faults.specs.declared.faults.CommandFault.TheVariants as faults;

use crate::drawing::Drawing;
use crate::owners::Owner;
use crate::pages::arcs::{Dash, radius};
use crate::pages::others::GROUP_END;
use command_faults::{CommandFault, print_text};
use d64_image::{Place, TRACK_SECTORS, TRACKS};
use disk_layout::BamView;
use std::fmt::{self, Display, Formatter};
use std::io::Write;

/// Whether the sector is in use, and free in the map.
pub(crate) fn is_open(drawing: &Drawing, place: Place) -> bool
    ensures { result ≡ open_at drawing.now.map (drawn_in drawing.now) place }
{
    match drawing.owner(place) {
        Owner::Nobody => false,
        _ => BamView::new(&drawing.map).is_free(place),
    }
}

/// Whether the track has the sector, in use and free in the map.
fn is_open_at(drawing: &Drawing, track: u8, sector: u8) -> bool
    ensures { result ≡ is_at_place (open_at drawing.now.map (drawn_in drawing.now)) (place_at track sector) }
{
    match Place::new(track, sector) {
        Some(place) => is_open(drawing, place),
        None => false,
    }
}

/// Whether the track has a sector in use that is free in the map.
fn is_track_open(drawing: &Drawing, track: u8) -> bool
    ensures { result ≡ track_open drawing.now.map (drawn_in drawing.now) track }
{
    let mut found = false;
    for sector in 0..TRACK_SECTORS {
        let here = is_open_at(drawing, track, sector);
        found = found || here;
    }
    found
}

/// Prints the dashes of the sectors that the track has.
fn print_dashes<W: Write>(out: &mut W, drawing: &Drawing, track: u8) -> Result<(), CommandFault>
    ensures ok { OnOk result (Appends (W.contents out.old) (W.contents out.new)
        (track_dashes drawing.now.map (drawn_in drawing.now) track)) }
    ensures err { IfErr result (λ fault. fault ≡ faults.File) }
{
    for sector in 0..TRACK_SECTORS {
        if let Some(place) = Place::new(track, sector) {
            let white = is_open(drawing, place);
            print_text(out, Dash { white, place })?;
        }
    }
    Ok(())
}

/// The beginning of the circle of a track's white line.
#[derive(Clone, Copy)]
struct WhiteHead(u8);

impl Display for WhiteHead {
    ghost output = { λ head. Some (white_head head.0) };

    fn fmt<W: fmt::Write>(&self, f: &mut Formatter<W>) -> fmt::Result {
        write!(
            f,
            "<circle r=\"{}\" style=\"stroke-dasharray:",
            radius(self.0)
        )
    }
}

/// Prints the white line of a track, if it has a sector in use that is free in the map.
fn print_ring<W: Write>(out: &mut W, drawing: &Drawing, track: u8) -> Result<(), CommandFault>
    ensures ok { OnOk result (Appends (W.contents out.old) (W.contents out.new)
        (own_ring drawing.now.map (drawn_in drawing.now) track)) }
    ensures err { IfErr result (λ fault. fault ≡ faults.File) }
{
    if is_track_open(drawing, track) {
        print_text(out, WhiteHead(track))?;
        print_dashes(out, drawing, track)?;
        print_text(out, "\"/>\n")
    } else {
        Ok(())
    }
}

/// Prints the group of the white lines.
pub(crate) fn print_open<W: Write>(out: &mut W, drawing: &Drawing) -> Result<(), CommandFault>
    ensures ok { OnOk result (Appends (W.contents out.old) (W.contents out.new)
        (open_group drawing.now.map (drawn_in drawing.now))) }
    ensures err { IfErr result (λ fault. fault ≡ faults.File) }
{
    print_text(out, "<g class=\"open\">\n")?;
    for below in 0..TRACKS {
        print_ring(out, drawing, below + 1)?;
    }
    print_text(out, GROUP_END)
}
