//! What isn't on the disk of an image, below the drawing of a page.
ghost use Rattle.std.specs.Prelude.{◌≡◌, ◌++◌, IfErr, OnOk, codes, flat_map};
ghost use Rattle.std.specs.Io.KnownBytes.{Appends};
ghost use Rattle.disk_pictures.specs.Html.{escaped};
ghost use Rattle.disk_pictures.specs.Missing.{missing_block};
ghost use Rattle.disk_pictures.specs.Sheets.{tile_end};
ghost use Rattle.command_faults.specs.declared.faults.CommandFault.TheVariants as faults;

use command_faults::CommandFault;
use std::io::{self, Write};

/// Writes a byte of a text in HTML.
fn print_escaped<W: Write>(out: &mut W, byte: u8) -> io::Result<()>
    ensures { OnOk result (Appends (W.contents out.old) (W.contents out.new) (escaped byte)) }
{
    match byte {
        b'&' => out.write_all(b"&amp;"),
        b'<' => out.write_all(b"&lt;"),
        b'>' => out.write_all(b"&gt;"),
        _ => out.write_all(&[byte]),
    }
}

/// Writes the bytes of a text in HTML.
fn print_all_escaped<W: Write>(out: &mut W, text: &[u8]) -> io::Result<()>
    ensures { OnOk result (Appends (W.contents out.old) (W.contents out.new) (flat_map escaped text.now)) }
{
    for &byte in text {
        print_escaped(out, byte)?;
    }
    Ok(())
}

/// Writes the lines below a heading.
fn print_below_heading<W: Write>(out: &mut W, lines: &[u8]) -> io::Result<()>
    ensures { OnOk result (Appends (W.contents out.old) (W.contents out.new)
        (codes "<h2>Not on the disk of 35 tracks</h2>\n<pre>" ++ (flat_map escaped lines.now ++ codes "</pre>\n"))) }
{
    out.write_all(b"<h2>Not on the disk of 35 tracks</h2>\n<pre>")?;
    print_all_escaped(out, lines)?;
    out.write_all(b"</pre>\n")
}

/// Writes the lines below a heading to click, and the end of a tile.
fn print_below_summary<W: Write>(out: &mut W, lines: &[u8]) -> io::Result<()>
    ensures { OnOk result (Appends (W.contents out.old) (W.contents out.new)
        (codes "<details><summary>Not on the disk of 35 tracks</summary><pre>"
        ++ (flat_map escaped lines.now ++ codes "</pre></details></figure>\n"))) }
{
    out.write_all(b"<details><summary>Not on the disk of 35 tracks</summary><pre>")?;
    print_all_escaped(out, lines)?;
    out.write_all(b"</pre></details></figure>\n")
}

/// Writes the end of a tile.
fn write_tile_end<W: Write>(out: &mut W, lines: &[u8]) -> io::Result<()>
    ensures { OnOk result (Appends (W.contents out.old) (W.contents out.new) (tile_end lines.now)) }
{
    if lines.is_empty() {
        return out.write_all(b"</figure>\n");
    }
    print_below_summary(out, lines)
}

/// Prints the end of a tile, with the lines of `missing_lines`, if there are any. `File` if the output failed.
pub(crate) fn print_tile_end<W: Write>(lines: &[u8], out: &mut W) -> Result<(), CommandFault>
    ensures ok { OnOk result (Appends (W.contents out.old) (W.contents out.new) (tile_end lines.now)) }
    ensures err { IfErr result (λ fault. fault ≡ faults.File) }
{
    match write_tile_end(out, lines) {
        Ok(()) => Ok(()),
        Err(_) => Err(CommandFault::File),
    }
}

/// Prints the lines of `missing_lines` for a page, below the drawing; nothing if there is none. `File` if the output failed.
pub fn print_missing_block<W: Write>(lines: &[u8], out: &mut W) -> Result<(), CommandFault>
    ensures ok { OnOk result (Appends (W.contents out.old) (W.contents out.new) (missing_block lines.now)) }
    ensures err { IfErr result (λ fault. fault ≡ faults.File) }
{
    if lines.is_empty() {
        return Ok(());
    }
    match print_below_heading(out, lines) {
        Ok(()) => Ok(()),
        Err(_) => Err(CommandFault::File),
    }
}
