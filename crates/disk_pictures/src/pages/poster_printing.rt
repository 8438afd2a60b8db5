//! The poster of a disk, as an SVG file of its own.
ghost use Rattle.std.specs.Prelude.{◌≡◌, ◌≢◌, IfErr, IfOk, OnOk, length, map};
ghost use Rattle.std.specs.Io.KnownBytes.{Appends};
ghost use Rattle.d64_image.specs.Memory.{sectors_in};
ghost use Rattle.disk_layout.specs.Layout.{IsLayout, Layout};
ghost use Rattle.disk_pictures.specs.Drawings.{file_in};
ghost use Rattle.disk_pictures.specs.Held.{drawn_in};
ghost use Rattle.disk_pictures.specs.Html.{html_of};
ghost use Rattle.disk_pictures.specs.Petscii.{petscii_of};
ghost use Rattle.disk_pictures.specs.Outcomes.{IsDrawnAs, IsPictureFault, IsPosterPrinted};
ghost use Rattle.disk_pictures.specs.Posters.{poster_end, poster_line, poster_of};
ghost use Rattle.disk_pictures.specs.Texts.{numbered};
ghost use Rattle.command_faults.specs.declared.faults.CommandFault.TheVariants as faults;

use crate::drawing::Drawing;
use crate::drawn_file::DrawnFile;
use crate::pages::legend::Legend;
use crate::pages::picture_printing::print_drawing;
use crate::pages::poster::{END, Head, Heading, Line, MISSING_END};
use crate::verdicts::{Verdict, judged};
use command_faults::{CommandFault, flush, print_text};
use disk_layout::Fault;
use std::alloc::Global;
use std::io::Write;

/// Prints the lines of the entries.
fn print_lines<W: Write>(out: &mut W, files: &[DrawnFile]) -> Result<(), CommandFault>
    ensures ok { OnOk result (Appends (W.contents out.old) (W.contents out.new)
        (numbered (poster_line html_of petscii_of (length files.now)) 0 (map file_in files.now))) }
    ensures err { IfErr result (λ fault. fault ≡ faults.File) }
{
    for (number, file) in files.iter().enumerate() {
        let count = files.len();
        print_text(
            out,
            Line {
                count,
                number,
                file,
            },
        )?;
    }
    Ok(())
}

/// Prints the poster up to its end.
fn print_poster<W: Write>(
    out: &mut W,
    verdict: Verdict,
    drawing: &Drawing,
) -> Result<(), CommandFault>
    ensures ok { OnOk result (Appends (W.contents out.old) (W.contents out.new)
        (poster_of verdict drawing.now.map (drawn_in drawing.now))) }
    ensures err { IfErr result (λ fault. fault ≡ faults.File) }
{
    print_text(out, Head(&drawing.map))?;
    print_text(out, Heading { drawing, verdict })?;
    print_drawing(out, verdict.found, drawing)?;
    print_text(out, Legend::of(verdict.found, drawing))?;
    print_lines(out, drawing.files.as_slice())?;
    flush(out)
}

/// Prints the disk as a poster up to its end, which `print_poster_end` prints: an SVG file of its own, 297 by 420 units. It has the drawing of `picture_image`, the
/// disk's name, what a check reports as a sentence, the meaning of the colours that it shows, and the directory in up to four
/// columns: the fewer entries, the larger are their lines. It has no script and loads nothing, and names of the disk stand in it only
/// as text. A name longer than its column is cut by the column's edge. What a check of the disk reports is also the result. A damaged disk is drawn as far as its links
/// go. The poster of a sound disk is that of its layout.
///
/// `ImageSize`; `NoMemory`; `Layout` if the directory's sectors aren't a chain on track 18: nothing was printed then.
/// `File` if the output failed, which may then have a part.
pub fn poster_image<W: Write>(
    alloc: Global,
    image: &[u8],
    out: &mut W,
) -> Result<Option<Fault>, CommandFault>
    ensures ok { IfOk result (IsPosterPrinted W.contents image.now out.old out.new) }
    ensures sound { IfOk result (λ found. (l : Layout) → IsLayout (sectors_in image.now) l
        → IsDrawnAs W.contents poster_of image.now l out.old out.new found) }
    ensures err { IfErr result (IsPictureFault image.now) }
    ensures untouched { IfErr result (λ fault. (fault ≢ faults.File) → out.new ≡ out.old) }
{
    let (drawing, verdict) = judged(alloc, image)?;
    print_poster(out, verdict, &drawing)?;
    Ok(verdict.found)
}

/// Prints the end of a poster after `poster_image`, where these are the lines of `missing_lines`. If there are any, a sentence between the
/// drawing and the directory says so. `File` if the output failed.
pub fn print_poster_end<W: Write>(lines: &[u8], out: &mut W) -> Result<(), CommandFault>
    ensures ok { OnOk result (Appends (W.contents out.old) (W.contents out.new) (poster_end lines.now)) }
    ensures err { IfErr result (λ fault. fault ≡ faults.File) }
{
    if lines.is_empty() {
        return print_text(out, END);
    }
    print_text(out, MISSING_END)
}
