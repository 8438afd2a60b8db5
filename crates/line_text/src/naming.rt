//! Names written before lines.
ghost use Rattle.std.specs.Prelude.{◌≡◌, OnOk};
ghost use Rattle.std.specs.Io.KnownBytes.{Appends};
ghost use Rattle.line_text.specs.Named.{heading, named, piece};

use std::io::{self, Write};

/// Writes the heading of a line.
fn print_heading<W: Write>(out: &mut W, name: &[u8]) -> io::Result<()>
    ensures { OnOk result (Appends (W.contents out.old) (W.contents out.new) (heading name.now)) }
{
    out.write_all(name)?;
    out.write_all(b": ")
}

/// Writes one byte, after the heading if the byte begins a line.
fn print_piece<W: Write>(out: &mut W, name: &[u8], begins: bool, byte: u8) -> io::Result<()>
    ensures { OnOk result (Appends (W.contents out.old) (W.contents out.new) (piece name.now begins byte)) }
{
    if begins {
        print_heading(out, name)?;
    }
    out.write_all(&[byte])
}

/// Writes a text with the name, a colon and a space before each of its lines. No LF is added: a last line without one
/// stays as it is. An error is the writer's, which may have taken a part.
pub fn print_named<W: Write>(out: &mut W, name: &[u8], text: &[u8]) -> io::Result<()>
    ensures { OnOk result (Appends (W.contents out.old) (W.contents out.new) (named name.now text.now)) }
{
    let mut begins = true;
    let mut rest = text;
    while let [byte, behind @ ..] = rest {
        print_piece(out, name, begins, *byte)?;
        begins = *byte == b'\n';
        rest = behind;
    }
    Ok(())
}
