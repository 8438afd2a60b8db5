//! Parts of the objects of JSON by which images are planned.
ghost use Rattle.std.specs.Prelude.{◌≡◌, OnOk, flat_map};
ghost use Rattle.std.specs.Io.KnownBytes.{Appends};
ghost use Rattle.disk_reports.specs.Objects.{end_text, files_text, head_text, lack_text, names_text, next_name};

use crate::json::{print_string, print_typed};
use damaged_files::{Shortfall, entry_name};
use disk_layout::Slot;
use std::io::{self, Write};

/// Writes what an object begins with.
pub(crate) fn print_head<W: Write>(out: &mut W, name: &[u8]) -> io::Result<()>
    ensures { OnOk result (Appends (W.contents out.old) (W.contents out.new) (head_text name.now)) }
{
    out.write_all(b"{\"name\":")?;
    print_string(out, name)
}

/// Writes the name of one entry more.
fn print_next<W: Write>(out: &mut W, slot: &Slot) -> io::Result<()>
    ensures { OnOk result (Appends (W.contents out.old) (W.contents out.new) (next_name slot.now)) }
{
    out.write_all(b",")?;
    print_typed(out, entry_name(slot))
}

/// Writes the names of more entries.
fn print_more<W: Write>(out: &mut W, slots: &[Slot]) -> io::Result<()>
    ensures { OnOk result (Appends (W.contents out.old) (W.contents out.new) (flat_map next_name slots.now)) }
{
    for slot in slots {
        print_next(out, slot)?;
    }
    Ok(())
}

/// Writes the names of entries, with commas between them.
fn print_names<W: Write>(out: &mut W, slots: &[Slot]) -> io::Result<()>
    ensures { OnOk result (Appends (W.contents out.old) (W.contents out.new) (names_text slots.now)) }
{
    let [first, rest @ ..] = slots else {
        return Ok(());
    };
    print_typed(out, entry_name(first))?;
    print_more(out, rest)
}

/// Writes the files that a fault concerns.
pub(crate) fn print_files<W: Write>(out: &mut W, files: &[Slot]) -> io::Result<()>
    ensures { OnOk result (Appends (W.contents out.old) (W.contents out.new) (files_text files.now)) }
{
    out.write_all(b",\"files\":[")?;
    print_names(out, files)?;
    out.write_all(b"]")
}

/// Writes what a file lacks.
fn print_shortfall<W: Write>(out: &mut W, lack: Shortfall) -> io::Result<()>
    ensures { OnOk result (Appends (W.contents out.old) (W.contents out.new) (lack_text lack)) }
{
    match lack {
        Shortfall::Short(place) => {
            let (track, sector) = (place.track(), place.sector());
            write!(out, ",\"short\":\"{track}/{sector}\",\"fewer\":null")
        }
        Shortfall::Fewer(place) => {
            let (track, sector) = (place.track(), place.sector());
            write!(out, ",\"short\":null,\"fewer\":\"{track}/{sector}\"")
        }
    }
}

/// The same, if a file lacks something.
pub(crate) fn print_end<W: Write>(out: &mut W, lack: Option<Shortfall>) -> io::Result<()>
    ensures { OnOk result (Appends (W.contents out.old) (W.contents out.new) (end_text lack)) }
{
    match lack {
        None => out.write_all(b",\"short\":null,\"fewer\":null"),
        Some(lack) => print_shortfall(out, lack),
    }
}
