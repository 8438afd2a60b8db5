//! The sectors of nobody.
ghost use Rattle.std.specs.Prelude.{◌≡◌, IfErr, OnOk};
ghost use Rattle.std.specs.Io.KnownBytes.{Appends};
ghost use Rattle.disk_pictures.specs.Held.{drawn_in};
ghost use Rattle.disk_pictures.specs.Pictures.{other_arc, others_group};
ghost use Rattle.command_faults.specs.declared.faults.CommandFault.TheVariants as faults;

use crate::drawing::Drawing;
use crate::owners::Owner;
use crate::pages::arcs::PlainArc;
use command_faults::{CommandFault, print_text};
use d64_image::{Place, SECTORS};
use disk_layout::BamView;
use std::io::Write;

/// The end of a group.
pub(crate) const GROUP_END: &str = "</g>\n";

/// Prints a sector, if it is nobody's.
fn print_other<W: Write>(out: &mut W, drawing: &Drawing, place: Place) -> Result<(), CommandFault>
    ensures ok { OnOk result (Appends (W.contents out.old) (W.contents out.new)
        (other_arc drawing.now.map (drawn_in drawing.now) place)) }
    ensures err { IfErr result (λ fault. fault ≡ faults.File) }
{
    let free = BamView::new(&drawing.map).is_free(place);
    match drawing.owner(place) {
        Owner::Nobody => {
            if free {
                let sector = PlainArc {
                    place,
                    class: "free",
                    owner: "free",
                };
                print_text(out, sector)
            } else {
                let sector = PlainArc {
                    place,
                    class: "lost",
                    owner: "taken, of no file",
                };
                print_text(out, sector)
            }
        }
        _ => Ok(()),
    }
}

/// Prints the group of the sectors of nobody, track by track.
pub(crate) fn print_others<W: Write>(out: &mut W, drawing: &Drawing) -> Result<(), CommandFault>
    ensures ok { OnOk result (Appends (W.contents out.old) (W.contents out.new)
        (others_group drawing.now.map (drawn_in drawing.now))) }
    ensures err { IfErr result (λ fault. fault ≡ faults.File) }
{
    print_text(out, "<g id=\"r\">\n")?;
    for index in 0..SECTORS {
        print_other(out, drawing, Place::nth(index))?;
    }
    print_text(out, GROUP_END)
}
