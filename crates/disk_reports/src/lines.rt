//! Faults as lines, with the files that they concern.
ghost use Rattle.std.specs.Prelude.{◌≡◌, ◌≤◌, OnOk, flat_map, length};
ghost use Rattle.std.specs.Io.KnownBytes.{Appends};
ghost use Rattle.disk_reports.specs.AllFaults.{ArePrinted, AreShown, IsLine, fault_line, spaced_name};

use crate::concerned::Slots;
use crate::links::Links;
use crate::showing::shows;
use crate::trail::Trail;
use arrayvec::ArrayVec;
use damaged_files::entry_name;
use disk_layout::{Fault, Slot};
use line_text::write_text;
use std::io::{self, Write};

/// Lists the entries that show the fault, or have the sector at which it is.
fn keep_shown(trails: &[Trail], fault: Fault, files: &mut Slots)
    requires { length trails.now ≤ 144 }
    ensures { AreShown trails.now fault files.new.items }
{
    files.clear();
    for trail in trails {
        if shows(trail, fault) {
            files.push(trail.slot);
        }
    }
}

/// Writes a space and the name of an entry between quotation marks.
pub(crate) fn print_name<W: Write>(out: &mut W, slot: &Slot) -> io::Result<()>
    ensures { OnOk result (Appends (W.contents out.old) (W.contents out.new) (spaced_name slot.now)) }
{
    out.write_all(b" \"")?;
    write_text(out, entry_name(slot))?;
    out.write_all(b"\"")
}

/// Writes the names of entries.
pub(crate) fn print_names<W: Write>(out: &mut W, slots: &[Slot]) -> io::Result<()>
    ensures { OnOk result (Appends (W.contents out.old) (W.contents out.new) (flat_map spaced_name slots.now)) }
{
    for slot in slots {
        print_name(out, slot)?;
    }
    Ok(())
}

/// Writes the line of a fault that concerns these files.
fn print_fault<W: Write>(out: &mut W, fault: Fault, files: &[Slot]) -> io::Result<()>
    ensures { OnOk result (Appends (W.contents out.old) (W.contents out.new) (fault_line fault files.now)) }
{
    write!(out, "{fault}")?;
    print_names(out, files)?;
    out.write_all(b"\n")
}

/// Writes the line of a fault.
fn print_line<W: Write>(out: &mut W, links: &Links, fault: Fault) -> io::Result<()>
    requires { length links.now.trails.items ≤ 144 }
    ensures { OnOk result (IsLine links.now fault (W.contents out.old) (W.contents out.new)) }
{
    let mut files = ArrayVec::new();
    keep_shown(links.trails.as_slice(), fault, &mut files);
    print_fault(out, fault, files.as_slice())
}

/// Writes the lines of faults.
pub(crate) fn print_lines<W: Write>(out: &mut W, links: &Links, faults: &[Fault]) -> io::Result<()>
    requires { length links.now.trails.items ≤ 144 }
    ensures { OnOk result (ArePrinted links.now faults.now (W.contents out.old) (W.contents out.new)) }
{
    for &fault in faults {
        print_line(out, links, fault)?;
    }
    Ok(())
}
